// Why the program ends with a message.
use crate::args::USAGE;
use gf::Refusal;
use std::alloc::AllocError;
use std::io;
use thiserror::Error;

#[derive(Debug, Drop, Error)]
pub enum Failure {
    #[error("{USAGE}")]
    Usage,
    #[error("dabreceive: '{0}' is no option that can stand there\n\n{USAGE}")]
    UnknownOption(String),
    #[error("dabreceive: '{0}' is given twice")]
    GivenTwice(&'static str),
    #[error("dabreceive: '{0}' has no word behind it")]
    NoWord(&'static str),
    #[error("dabreceive: '{word}' is no name that can stand behind {option}")]
    NoName { option: &'static str, word: String },
    #[error("dabreceive: P of --patience is a number from 1 to 16, and not '{0}'")]
    Patience(String),
    #[error("dabreceive: SIZE is a subchannel index from 1 to 24, and not '{0}'")]
    Size(String),
    #[error("dabreceive: the file '{0}' cannot be read")]
    NoFile(String),
    #[error("dabreceive: the folder '{0}' cannot be made")]
    NoFolder(String),
    #[error("dabreceive: the file '{0}' cannot be written")]
    NotWritten(String),
    #[error("dabreceive: line {line} of the script: {fault}")]
    Line { line: usize, fault: Fault },
    #[error("dabreceive: {0}")]
    Refused(#[from] Refusal),
    #[error("dabreceive: reading or writing failed: {0}")]
    Io(#[from] io::Error),
    #[error("dabreceive: there is not enough memory")]
    Memory(#[from] AllocError),
}

// What is wrong with a line of a script.
#[derive(Debug, Drop, Error)]
pub enum Fault {
    #[error("'{0}' is no call")]
    UnknownCall(String),
    #[error("behind '{call}' stands {admitted}, and not '{found}'")]
    Behind {
        call: &'static str,
        admitted: &'static str,
        found: String,
    },
    #[error("there is not enough memory")]
    Memory(#[from] AllocError),
}
