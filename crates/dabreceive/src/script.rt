// Scripts: the calls of a receiver as text, one a line.
use crate::failure::{Failure, Fault};
use std::alloc::{AllocError, Global};
use std::fmt;

// How many digits a number of frames has at most. The bytes of a frame have one more at least.
const COUNT_DIGITS: usize = 47;

// What a line of a script asks for.
#[derive(Drop)]
pub enum Command {
    // With a buffer for a block.
    Pull,
    // With a buffer of so many bytes.
    PullInto(usize),
    // The next so many frames of the recording.
    OfferFrames(usize),
    OfferBytes(Vec<u8>),
    Reset,
    Patience(usize),
    Report,
}

// The first word of a line, and what stands behind it.
fn split_word(text: &str) -> (&str, &str) {
    match text.split_once(|c: char| c.is_whitespace()) {
        Some((word, rest)) => (word, rest.trim()),
        None => (text, ""),
    }
}

// The number that a word of digits writes.
pub fn parse_number(word: &str) -> Option<usize> {
    if word.starts_with('+') {
        return None;
    }
    word.parse().ok()
}

// The byte that two hexadecimal digits write.
fn pair_value(pair: &[u8]) -> Option<u8> {
    let [high, low] = pair else {
        return None;
    };
    let high = char::from(*high).to_digit(16)?;
    let low = char::from(*low).to_digit(16)?;
    Some((16 * high + low) as u8)
}

// The bytes that pairs of hexadecimal digits write; None where they are no such pairs.
fn parse_pairs(alloc: Global, digits: &str) -> Result<Option<Vec<u8>>, AllocError> {
    let mut bytes = Vec::new(alloc);
    for pair in digits.as_bytes().chunks(2) {
        let Some(byte) = pair_value(pair) else {
            return Ok(None);
        };
        bytes.push(byte)?;
    }
    Ok(Some(bytes))
}

// The fault of a call with something else behind it than what is admitted.
fn wrong_behind(alloc: Global, call: &'static str, admitted: &'static str, found: &str) -> Fault {
    match String::from_str(alloc, found) {
        Ok(found) => Fault::Behind {
            call,
            admitted,
            found,
        },
        Err(error) => Fault::Memory(error),
    }
}

fn parse_pull(alloc: Global, behind: &str) -> Result<Command, Fault> {
    if behind.is_empty() {
        return Ok(Command::Pull);
    }
    match parse_number(behind) {
        Some(length) => Ok(Command::PullInto(length)),
        None => Err(wrong_behind(alloc, "pull", "a number of bytes or nothing", behind)),
    }
}

// Whether a word is read as a number of frames: it has decimal digits alone, and at most `COUNT_DIGITS` of them. Other pairs of digits are
// bytes.
fn is_count(word: &str) -> bool {
    !word.is_empty()
        && word.len() <= COUNT_DIGITS
        && word.as_bytes().iter().all(|byte| byte.is_ascii_digit())
}

fn parse_offer(alloc: Global, behind: &str) -> Result<Command, Fault> {
    let command = match behind.strip_prefix("0x") {
        Some(digits) => parse_pairs(alloc, digits)?.map(Command::OfferBytes),
        None if is_count(behind) => parse_number(behind).map(Command::OfferFrames),
        None if behind.is_empty() => None,
        None => parse_pairs(alloc, behind)?.map(Command::OfferBytes),
    };
    match command {
        Some(command) => Ok(command),
        None => Err(wrong_behind(
            alloc,
            "offer",
            "a number of frames, or pairs of hexadecimal digits",
            behind,
        )),
    }
}

fn parse_patience(alloc: Global, behind: &str) -> Result<Command, Fault> {
    match parse_number(behind) {
        Some(patience) => Ok(Command::Patience(patience)),
        None => Err(wrong_behind(alloc, "patience", "a number", behind)),
    }
}

// A call that goes alone.
fn parse_alone(
    alloc: Global,
    call: &'static str,
    command: Command,
    behind: &str,
) -> Result<Command, Fault> {
    if behind.is_empty() {
        Ok(command)
    } else {
        Err(wrong_behind(alloc, call, "nothing", behind))
    }
}

impl Command {
    // What a line asks for; None where it says nothing.
    fn parse(alloc: Global, line: &str) -> Result<Option<Command>, Fault> {
        let text = line.trim();
        if text.is_empty() || text.starts_with('#') {
            return Ok(None);
        }
        let (word, behind) = split_word(text);
        let command = match word {
            "pull" => parse_pull(alloc, behind)?,
            "offer" => parse_offer(alloc, behind)?,
            "reset" => parse_alone(alloc, "reset", Command::Reset, behind)?,
            "patience" => parse_patience(alloc, behind)?,
            "report" => parse_alone(alloc, "report", Command::Report, behind)?,
            _ => return Err(Fault::UnknownCall(String::from_str(alloc, word)?)),
        };
        Ok(Some(command))
    }
}

// What the lines of a script ask for, one after the other.
pub fn parse_script(alloc: Global, text: &str) -> Result<Vec<Command>, Failure> {
    let mut commands = Vec::new(alloc);
    for (n, line) in text.lines().enumerate() {
        match Command::parse(alloc, line) {
            Ok(None) => {}
            Ok(Some(command)) => commands.push(command).map_err(AllocError::from)?,
            Err(fault) => {
                let line = n.saturating_add(1);
                return Err(Failure::Line { line, fault });
            }
        }
    }
    Ok(commands)
}

// What stands before bytes whose digits alone could be read as a number of frames, or where there are none.
fn prefix_of(bytes: &[u8]) -> &'static str {
    let is_decimal = bytes.iter().all(|byte| byte / 16 < 10 && byte % 16 < 10);
    if is_decimal && bytes.len() * 2 <= COUNT_DIGITS {
        "0x"
    } else {
        ""
    }
}

// The line of a script that asks for it.
impl fmt::Display for Command {
    fn fmt<W: fmt::Write>(&self, f: &mut fmt::Formatter<W>) -> fmt::Result {
        match self {
            Self::Pull => write!(f, "pull"),
            Self::PullInto(length) => write!(f, "pull {length}"),
            Self::OfferFrames(count) => write!(f, "offer {count}"),
            Self::OfferBytes(bytes) => {
                write!(f, "offer {}", prefix_of(bytes))?;
                for byte in bytes {
                    write!(f, "{byte:02x}")?;
                }
                Ok(())
            }
            Self::Reset => write!(f, "reset"),
            Self::Patience(patience) => write!(f, "patience {patience}"),
            Self::Report => write!(f, "report"),
        }
    }
}
