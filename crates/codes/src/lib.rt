// Polynomials over every field, and the check code: the remainder of a division, filling the checks of a word, and correcting a word.
#![tactic(auto)]

mod code;
mod division;
mod elimination;
mod error_values;
mod errors;
mod generator;
mod locator;
mod room;
mod syndromes;

pub use code::{MAX_CHECKS, MAX_SYMBOLS, WORK_SYMBOLS, correct, encode, has_shape};
pub use division::{continue_remainder, remainder};
