// The words of the call.
use crate::failure::Failure;
use programs::SubchannelIndex;
use std::env;

pub const USAGE: &str = "usage: dabopen SIZE [FILE] [--units DIR]

Opens recorded super frames. Corrects the rows of each block, and prints what it corrected, the parameters, and whether the
checks of the units are right.
SIZE is the subchannel index, 1 to 24: a block has 120 times as many bytes.
FILE has block after block; without it they are read from standard input.
--units DIR writes each unit whose check is right to a file of its own in the folder DIR, which is made where it is not there:
block-N-unit-M.au has the bytes of unit M of block N, both counted from 0.
--help or -h prints this text.";

// Which recording is opened, and what is written besides.
#[derive(Drop)]
pub struct Order {
    pub size: SubchannelIndex,
    // Standard input where it is left out.
    pub file: Option<String>,
    // The folder for the units' files.
    pub units: Option<String>,
}

// What a call asks for.
#[derive(Drop)]
pub enum Request {
    Help,
    Open(Order),
}

// Reads the words of the call. Options may stand before, between and behind the other words; a file's name may begin with '-'.
pub fn read_request(rt: &HostRuntime) -> Result<Request, Failure> {
    let mut size_word = None;
    let mut file = None;
    let mut units = None;
    let mut folder_is_next = false;
    for word in env::args(rt)?.skip(1) {
        if folder_is_next {
            if word.as_str().is_empty() || word.as_str().starts_with('-') {
                return Err(Failure::NoFolderName(word));
            }
            folder_is_next = false;
            units = Some(word);
            continue;
        }
        match word.as_str() {
            "--help" | "-h" => return Ok(Request::Help),
            "--units" if units.is_none() => folder_is_next = true,
            "--units" => return Err(Failure::UnknownOption(word)),
            _ if size_word.is_none() => size_word = Some(word),
            _ if file.is_none() => file = Some(word),
            _ => return Err(too_many_words([size_word, file, Some(word)])),
        }
    }
    let Some(size_word) = size_word else {
        return Err(Failure::Usage);
    };
    if folder_is_next {
        return Err(Failure::Usage);
    }
    match size_word.as_str().parse() {
        Ok(size) => Ok(Request::Open(Order { size, file, units })),
        Err(_) => Err(Failure::Size(size_word)),
    }
}

// What is told where a word is left over behind SIZE and FILE: the first of the three that begins with '-', since it may be a mistyped
// option, or the usage alone.
fn too_many_words(words: [Option<String>; 3]) -> Failure {
    words
        .into_iter()
        .flatten()
        .find(|word| word.as_str().starts_with('-'))
        .map_or(Failure::Usage, Failure::UnknownOption)
}
