// The words of the call.
use crate::failure::Failure;
use std::env;

pub const USAGE: &str = "usage: dabseal SPEC [FILE] [--hex]

Makes the block of one super frame, and writes it to FILE, or to standard output without FILE.
SPEC is a text file, or - for standard input, with one setting or unit a line:
  size 1            the subchannel index, 1 to 24; it has to be there
  rate 32           or 48, in kHz; 48 where it is left out
  sbr on            or off; off where it is left out
  mode mono         or stereo; mono where it is left out
  ps off            or on; off where it is left out
  surround 0        0 to 7; 0 where it is left out
  unit 80 01 02     the bytes of the next unit in hexadecimal, with or without blanks between the pairs
  unit-file NAME    the bytes of the next unit are those of the file NAME
Settings stand in any order, each once; units stand in theirs. Empty lines, and lines that begin with #, say nothing.
--hex writes hexadecimal text, 16 bytes a line.
--help or -h prints this text.";

// Which super frame is made, and where its block goes.
#[derive(Drop)]
pub struct Order {
    // The name of the file, or - for standard input.
    pub spec: String,
    // Standard output where it is left out.
    pub file: Option<String>,
    pub hex: bool,
}

// What a call asks for.
#[derive(Drop)]
pub enum Request {
    Help,
    Seal(Order),
}

// Reads the words of the call. Options may stand before, between and behind the other words.
pub fn read_request(rt: &HostRuntime) -> Result<Request, Failure> {
    let mut spec = None;
    let mut file = None;
    let mut hex = false;
    for word in env::args(rt)?.skip(1) {
        match word.as_str() {
            "--help" | "-h" => return Ok(Request::Help),
            "--hex" => hex = true,
            "-" if spec.is_none() => spec = Some(word),
            option if option.starts_with('-') => return Err(Failure::UnknownOption(word)),
            _ if spec.is_none() => spec = Some(word),
            _ if file.is_none() => file = Some(word),
            _ => return Err(Failure::Usage),
        }
    }
    match spec {
        Some(spec) => Ok(Request::Seal(Order { spec, file, hex })),
        None => Err(Failure::Usage),
    }
}
