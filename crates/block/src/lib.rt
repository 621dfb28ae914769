// Super frames: check words, parameters and header; settings and the writer; the reader in three states.
#![tactic(auto)]

mod checks;
mod fault;
mod header;
mod making;
mod packed_starts;
mod parameters;
mod reader;
mod refused;
mod rows;
mod settings;
mod sized_block;
mod writer;

pub use checks::{fire_word, unit_check};
pub use fault::HeaderFault;
pub use header::{Header, UnitPlace};
pub use interleaver::Repair;
pub use making::make_super_frame;
pub use parameters::{ChannelMode, DacRate, Layout, Parameters};
pub use reader::{AccessUnit, Opened, Received, Repaired};
pub use refused::Refused;
pub use settings::Settings;
pub use writer::{OpenWriter, SealedWriter};
