// The files that are read, and those that units are written to.
ghost use Rattle.std.specs.Prelude.{◌≡◌, IfOk};
ghost use Rattle.dabreceive.specs.Units.{bytes_of_unit};

use crate::failure::Failure;
use crate::units::is_good;
use gf::Refusal;
use reception::Delivery;
use std::fs;
use std::io::Read;

// All bytes of the file with this name, or of standard input.
pub fn read_bytes(rt: &HostRuntime, file: Option<String>) -> Result<Vec<u8>, Failure> {
    match file {
        None => {
            let mut bytes = Vec::new(rt.alloc());
            rt.stdin().read_to_end(&mut bytes)?;
            Ok(bytes)
        }
        Some(path) => match fs::read(rt, path.as_str()) {
            Ok(bytes) => Ok(bytes),
            Err(_) => Err(Failure::NoFile(path)),
        },
    }
}

// The text of the file with this name.
pub fn read_text(rt: &HostRuntime, path: String) -> Result<String, Failure> {
    match fs::read_to_string(rt, path.as_str()) {
        Ok(text) => Ok(text),
        Err(_) => Err(Failure::NoFile(path)),
    }
}

// Makes the folder for the units' files, where it is not there.
pub fn make_folder(rt: &HostRuntime, folder: &String) -> Result<(), Failure> {
    match fs::create_dir_all(rt, folder.as_str()) {
        Ok(()) => Ok(()),
        Err(_) => Err(Failure::NoFolder(folder.clone()?)),
    }
}

// The bytes of unit `n` of a block that was delivered.
fn unit_bytes<'b>(delivery: &Delivery, block: &'b [u8], n: usize) -> Result<&'b [u8], Refusal>
    ensures { IfOk result (λ bytes. bytes.now ≡ bytes_of_unit delivery.now.header block.now n) }
{
    let stands = delivery.header.unit(n)?;
    block
        .get(stands.place..)
        .and_then(|rest| rest.get(..stands.length))
        // The units of a header that was read stand in its block.
        .ok_or(Refusal::Index)
}

// Writes unit `n` of a super frame to a file of its own.
fn write_unit(
    rt: &HostRuntime,
    folder: &String,
    number: usize,
    n: usize,
    bytes: &[u8],
) -> Result<(), Failure> {
    let path = format!(in rt.alloc(); "{folder}/super-frame-{number:04}-unit-{n}.au")?;
    match fs::write(rt, path.as_str(), bytes) {
        Ok(()) => Ok(()),
        Err(_) => Err(Failure::NotWritten(path)),
    }
}

// Writes the good units of the super frame with this number.
pub fn write_good_units(
    rt: &HostRuntime,
    folder: &String,
    number: usize,
    delivery: &Delivery,
    block: &[u8],
) -> Result<(), Failure> {
    for (n, state) in delivery.units.iter().enumerate() {
        if is_good(state) {
            write_unit(rt, folder, number, n, unit_bytes(delivery, block, n)?)?;
        }
    }
    Ok(())
}
