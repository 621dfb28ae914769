// Why the program ends with a message.
use crate::args::USAGE;
use gf::Refusal;
use std::alloc::AllocError;
use std::io;
use thiserror::Error;

#[derive(Debug, Drop, Error)]
pub enum Failure {
    #[error("{USAGE}")]
    Usage,
    #[error("dabopen: '{0}' is no option that can stand there\n\n{USAGE}")]
    UnknownOption(String),
    #[error("dabopen: '{0}' is no name of a folder for --units\n\n{USAGE}")]
    NoFolderName(String),
    #[error("dabopen: SIZE is a subchannel index from 1 to 24, and not '{0}'")]
    Size(String),
    #[error("dabopen: the file '{0}' cannot be opened")]
    NoFile(String),
    #[error("dabopen: the folder '{0}' cannot be made")]
    NoFolder(String),
    #[error("dabopen: the file '{0}' cannot be written")]
    NotWritten(String),
    #[error("dabopen: {0}")]
    Refused(#[from] Refusal),
    #[error("dabopen: reading or writing failed: {0}")]
    Io(#[from] io::Error),
    #[error("dabopen: there is not enough memory")]
    Memory(#[from] AllocError),
}
