// The words of the call.
use crate::failure::Failure;
use crate::script::parse_number;
use programs::SubchannelIndex;
use std::env;

pub const USAGE: &str = "usage: dabreceive SIZE [FILE] [--patience P] [--script FILE] [--units DIR]

Finds the super frames in a recording of logical frames, and follows them. Hands in one frame after the other, and prints what came
of each: held, missed, or the end of a super frame that is delivered; and at the end the sum of it all. Without --script it shows of a
long recording on standard error how far it has come, where that is a terminal.
SIZE is the subchannel index, 1 to 24: a frame has 24 times as many bytes.
FILE has frame after frame; without it they are read from standard input, to its end. An unfinished last frame is left out.
--patience P: P misses in a row end a lock, 1 to 16; 3 where it is left out.
--units DIR writes each good unit of each super frame that is delivered to a file of its own in the folder DIR, which is made where
it is not there: super-frame-NNNN-unit-M.au has the bytes of unit M of super frame NNNN, both counted from 0.
--script FILE makes the calls that stand in FILE, one a line, and prints of each line what came of it:
  pull              takes the next frame, with a buffer for a block
  pull 100          the same with a buffer of so many bytes
  offer 12          hands in the next so many frames of the recording, or all that are left, to a queue of 32 places, where a frame that
                    finds no place is lost; the recording is read only if the script has such a line
  offer 00ff        hands in these bytes, pairs of hexadecimal digits; 0x may stand before them, and has to before fewer than 48
                    decimal digits
  reset             starts over
  patience 2        from now on so many misses in a row end a lock
  report            says where the receiver stands
Empty lines, and lines that begin with #, say nothing.
--help or -h prints this text.";

// Which recording is received, and how.
#[derive(Drop)]
pub struct Order {
    pub size: SubchannelIndex,
    // Standard input where it is left out.
    pub file: Option<String>,
    // As the receiver has it where it is left out.
    pub patience: Option<usize>,
    // Where it is left out, one frame after the other is handed in and taken.
    pub script: Option<String>,
    // The folder for the units' files.
    pub units: Option<String>,
}

// What a call asks for.
#[derive(Drop)]
pub enum Request {
    Help,
    Receive(Order),
}

// An option, behind which a word follows.
#[derive(Clone, Copy)]
enum Setting {
    Patience,
    Script,
    Units,
}

impl Setting {
    fn of_word(word: &str) -> Option<Setting> {
        match word {
            "--patience" => Some(Self::Patience),
            "--script" => Some(Self::Script),
            "--units" => Some(Self::Units),
            _ => None,
        }
    }

    fn name(self) -> &'static str {
        match self {
            Self::Patience => "--patience",
            Self::Script => "--script",
            Self::Units => "--units",
        }
    }

    // The name of a file or folder behind the option.
    fn parse_name(self, word: String) -> Result<String, Failure> {
        if word.as_str().is_empty() || word.as_str().starts_with('-') {
            let option = self.name();
            return Err(Failure::NoName { option, word });
        }
        Ok(word)
    }
}

// The number behind --patience.
fn parse_patience(word: String) -> Result<usize, Failure> {
    match parse_number(word.as_str()) {
        Some(patience) if (1..=16).contains(&patience) => Ok(patience),
        _ => Err(Failure::Patience(word)),
    }
}

// The words that were read so far.
#[derive(Drop)]
struct Words {
    size: Option<String>,
    file: Option<String>,
    patience: Option<usize>,
    script: Option<String>,
    units: Option<String>,
}

impl Words {
    // None yet.
    fn new() -> Words {
        Words {
            size: None,
            file: None,
            patience: None,
            script: None,
            units: None,
        }
    }

    fn is_given(&self, setting: Setting) -> bool {
        match setting {
            Setting::Patience => self.patience.is_some(),
            Setting::Script => self.script.is_some(),
            Setting::Units => self.units.is_some(),
        }
    }

    // Takes an option, which is awaiting its word then. No option stands there twice.
    fn take_option(&self, word: String) -> Result<Setting, Failure> {
        match Setting::of_word(word.as_str()) {
            None => Err(Failure::UnknownOption(word)),
            Some(setting) if self.is_given(setting) => Err(Failure::GivenTwice(setting.name())),
            Some(setting) => Ok(setting),
        }
    }

    // Takes the word behind an option.
    fn take_setting(&mut self, setting: Setting, word: String) -> Result<(), Failure> {
        match setting {
            Setting::Patience => self.patience = Some(parse_patience(word)?),
            Setting::Script => self.script = Some(setting.parse_name(word)?),
            Setting::Units => self.units = Some(setting.parse_name(word)?),
        }
        Ok(())
    }

    // Takes a word that belongs to no option.
    fn take_word(&mut self, word: String) -> Result<(), Failure> {
        if self.size.is_none() {
            self.size = Some(word);
        } else if self.file.is_none() {
            self.file = Some(word);
        } else {
            return Err(Failure::Usage);
        }
        Ok(())
    }

    // What the words order.
    fn order(self) -> Result<Order, Failure> {
        let Words {
            size,
            file,
            patience,
            script,
            units,
        } = self;
        let Some(word) = size else {
            return Err(Failure::Usage);
        };
        match word.as_str().parse() {
            Ok(size) => Ok(Order {
                size,
                file,
                patience,
                script,
                units,
            }),
            Err(_) => Err(Failure::Size(word)),
        }
    }
}

// Reads the words of the call. Options may stand before, between and behind the other words.
pub fn read_request(rt: &HostRuntime) -> Result<Request, Failure> {
    let mut words = Words::new();
    let mut awaited: Option<Setting> = None;
    for word in env::args(rt)?.skip(1) {
        if let Some(setting) = awaited {
            awaited = None;
            words.take_setting(setting, word)?;
            continue;
        }
        match word.as_str() {
            "--help" | "-h" => return Ok(Request::Help),
            option if option.starts_with('-') => awaited = Some(words.take_option(word)?),
            _ => words.take_word(word)?,
        }
    }
    match awaited {
        Some(setting) => Err(Failure::NoWord(setting.name())),
        None => Ok(Request::Receive(words.order()?)),
    }
}
