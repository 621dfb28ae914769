// Finite fields: what each has to keep, the fields of 2, 16 and 256 elements, and the refusals of the whole library.
#![tactic(auto)]

mod binary;
mod field;
mod gf16;
mod gf2;
mod gf256;
mod products;
mod refusal;
mod tabled;
mod tables;

pub use field::Field;
pub use gf2::Gf2;
pub use gf16::Gf16;
pub use gf256::Gf256;
pub use refusal::{Layer, Refusal};
