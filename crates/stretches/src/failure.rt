// Why the program ends with a message.
use gf::Refusal;
use std::alloc::AllocError;
use std::io;
use thiserror::Error;

#[derive(Debug, Drop, Error)]
pub enum Failure {
    #[error("stretches: {0}")]
    Refused(#[from] Refusal),
    #[error("stretches: reading or writing failed: {0}")]
    Io(#[from] io::Error),
    #[error("stretches: there is not enough memory")]
    Memory(#[from] AllocError),
}
