// The files that units are written to.
use crate::failure::Failure;
use std::fs;

// Makes the folder for the units' files, where it is not there.
pub fn make_folder(rt: &HostRuntime, folder: &String) -> Result<(), Failure> {
    match fs::create_dir_all(rt, folder.as_str()) {
        Ok(()) => Ok(()),
        Err(_) => Err(Failure::NoFolder(folder.clone()?)),
    }
}

// Writes unit `n` of a block to a file of its own.
pub fn write_unit(
    rt: &HostRuntime,
    folder: &String,
    block: u64,
    n: usize,
    bytes: &[u8],
) -> Result<(), Failure> {
    let path = format!(in rt.alloc(); "{folder}/block-{block}-unit-{n}.au")?;
    match fs::write(rt, path.as_str(), bytes) {
        Ok(()) => Ok(()),
        Err(_) => Err(Failure::NotWritten(path)),
    }
}
