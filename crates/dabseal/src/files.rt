// Reading the SPEC, and writing the block.
use crate::failure::Failure;
use std::io::Write;
use std::{fs, io};

// The text of the file with this name, or of standard input, whose name is -.
pub fn read_text(rt: &HostRuntime, name: String) -> Result<String, Failure> {
    if name.as_str() == "-" {
        return Ok(io::read_to_string(rt.alloc(), rt.stdin())?);
    }
    match fs::read_to_string(rt, name.as_str()) {
        Ok(text) => Ok(text),
        Err(_) => Err(Failure::NoSpec(name)),
    }
}

// Writes the bytes to the file, or to standard output.
pub fn write_bytes(rt: &HostRuntime, file: Option<String>, bytes: &[u8]) -> Result<(), Failure> {
    match file {
        None => Ok(io::writer(rt).write_all(bytes)?),
        Some(path) => match fs::write(rt, path.as_str(), bytes) {
            Ok(()) => Ok(()),
            Err(_) => Err(Failure::NotWritten(path)),
        },
    }
}
