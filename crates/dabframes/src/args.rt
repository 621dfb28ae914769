// The words of the call.
use crate::failure::Failure;
use programs::SubchannelIndex;
use sources::PLACES;
use std::env;

pub const USAGE: &str = "usage: dabframes SIZE [FILE] [--burst N] [--take N]

Passes a recording of logical frames through a queue of 32 places, in bursts, and compares what comes out with what was recorded.
Prints how many frames came, how many of them were taken out of the queue, were left over in it at the end, or found it full and
were lost, and whether the bytes agree. The status is 1 where they do not; lost frames are no failure.
SIZE is the subchannel index, 1 to 24: a frame has 24 times as many bytes.
FILE has frame after frame; without it they are read from standard input, to its end.
--burst N hands in N frames at a time, 1 to 1000; 4 where it is left out, as many as a transmission frame of mode I carries.
--take N takes N frames out at a time after each burst, as long as so many wait, 1 to 32; 5 where it is left out, as many as a
super frame has.
--help or -h prints this text.";

// How many frames are handed in at a time, and how many are taken out.
#[derive(Clone, Copy)]
pub struct Pace {
    pub burst: usize,
    pub take: usize,
}

// Which recording is passed through, and how.
#[derive(Drop)]
pub struct Order {
    pub size: SubchannelIndex,
    // Standard input where it is left out.
    pub file: Option<String>,
    pub pace: Pace,
}

// What a call asks for.
#[derive(Drop)]
pub enum Request {
    Help,
    Pass(Order),
}

// An option that a number follows.
#[derive(Clone, Copy)]
enum NumberOption {
    Burst,
    Take,
}

impl NumberOption {
    fn name(self) -> &'static str {
        match self {
            Self::Burst => "--burst",
            Self::Take => "--take",
        }
    }

    fn most(self) -> usize {
        match self {
            Self::Burst => 1000,
            Self::Take => PLACES,
        }
    }

    // The number that the word behind the option writes.
    fn parse(self, word: String) -> Result<usize, Failure> {
        match word.as_str().parse::<usize>() {
            Ok(number) if (1..=self.most()).contains(&number) => Ok(number),
            _ => Err(Failure::Number {
                option: self.name(),
                most: self.most(),
                word,
            }),
        }
    }

    // The option, if it has not been given before.
    fn unless_given(self, given: Option<usize>) -> Result<NumberOption, Failure> {
        match given {
            None => Ok(self),
            Some(_) => Err(Failure::GivenTwice(self.name())),
        }
    }
}

// The subchannel index that the word for it names.
fn read_size(word: Option<String>) -> Result<SubchannelIndex, Failure> {
    let Some(word) = word else {
        return Err(Failure::Usage);
    };
    match word.as_str().parse() {
        Ok(size) => Ok(size),
        Err(_) => Err(Failure::Size(word)),
    }
}

// Reads the words of the call. Options may stand before, between and behind the other words.
pub fn read_request(rt: &HostRuntime) -> Result<Request, Failure> {
    let mut size_word = None;
    let mut file = None;
    let mut burst = None;
    let mut take = None;
    let mut awaited: Option<NumberOption> = None;
    for word in env::args(rt)?.skip(1) {
        if let Some(option) = awaited {
            awaited = None;
            let number = option.parse(word)?;
            match option {
                NumberOption::Burst => burst = Some(number),
                NumberOption::Take => take = Some(number),
            }
            continue;
        }
        match word.as_str() {
            "--help" | "-h" => return Ok(Request::Help),
            "--burst" => awaited = Some(NumberOption::Burst.unless_given(burst)?),
            "--take" => awaited = Some(NumberOption::Take.unless_given(take)?),
            option if option.starts_with('-') => return Err(Failure::UnknownOption(word)),
            _ if size_word.is_none() => size_word = Some(word),
            _ if file.is_none() => file = Some(word),
            _ => return Err(Failure::Usage),
        }
    }
    if let Some(option) = awaited {
        return Err(Failure::NoNumber(option.name()));
    }
    let pace = Pace {
        burst: burst.unwrap_or(4),
        take: take.unwrap_or(5),
    };
    read_size(size_word).map(|size| Request::Pass(Order { size, file, pace }))
}
