// Why the program ends with a message.
use crate::args::USAGE;
use gf::Refusal;
use std::alloc::AllocError;
use std::io;
use thiserror::Error;

#[derive(Debug, Drop, Error)]
pub enum Failure {
    #[error("{USAGE}")]
    Usage,
    #[error("dabframes: '{0}' is no option that can stand there\n\n{USAGE}")]
    UnknownOption(String),
    #[error("dabframes: '{0}' is given twice")]
    GivenTwice(&'static str),
    #[error("dabframes: '{0}' has no number behind it")]
    NoNumber(&'static str),
    #[error("dabframes: N of {option} is a number from 1 to {most}, and not '{word}'")]
    Number {
        option: &'static str,
        most: usize,
        word: String,
    },
    #[error("dabframes: SIZE is a subchannel index from 1 to 24, and not '{0}'")]
    Size(String),
    #[error("dabframes: the file '{0}' cannot be read")]
    NoFile(String),
    #[error("dabframes: what came out is not what was recorded")]
    Differ,
    #[error("dabframes: {0}")]
    Refused(#[from] Refusal),
    #[error("dabframes: reading or writing failed: {0}")]
    Io(#[from] io::Error),
    #[error("dabframes: there is not enough memory")]
    Memory(#[from] AllocError),
}
