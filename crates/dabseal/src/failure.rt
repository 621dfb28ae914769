// Why the program ends with a message.
use crate::args::USAGE;
use gf::Refusal;
use std::alloc::AllocError;
use std::io;
use thiserror::Error;

#[derive(Debug, Drop, Error)]
pub enum Failure {
    #[error("{USAGE}")]
    Usage,
    #[error("dabseal: '{0}' is no option that can stand there\n\n{USAGE}")]
    UnknownOption(String),
    #[error("dabseal: the file '{0}' cannot be read")]
    NoSpec(String),
    #[error("dabseal: 'size' is missing")]
    NoSize,
    #[error("dabseal: line {line}: {fault}")]
    Line { line: usize, fault: Fault },
    #[error("dabseal: the file '{0}' cannot be written")]
    NotWritten(String),
    #[error("dabseal: reading or writing failed: {0}")]
    Io(#[from] io::Error),
    #[error("dabseal: there is not enough memory")]
    Memory(#[from] AllocError),
}

impl Failure {
    // The library refuses what the line says.
    pub fn refused(line: usize, refusal: Refusal) -> Failure {
        Failure::Line {
            line,
            fault: Fault::Refused(refusal),
        }
    }
}

// What is wrong with a line of a SPEC.
#[derive(Debug, Drop, Error)]
pub enum Fault {
    #[error("'{0}' is no setting and no unit")]
    UnknownWord(String),
    #[error("'{setting}' is {admitted}, and not '{value}'")]
    Value {
        setting: &'static str,
        admitted: &'static str,
        value: String,
    },
    #[error("'{0}' is given twice")]
    GivenTwice(&'static str),
    #[error("'{0}' has an odd number of hexadecimal digits")]
    OddDigits(String),
    #[error("'{0}' is not hexadecimal")]
    NotHexadecimal(String),
    #[error("the file '{0}' cannot be read")]
    NoUnitFile(String),
    #[error("{0}")]
    Refused(Refusal),
    #[error("there is not enough memory")]
    Memory(#[from] AllocError),
}
