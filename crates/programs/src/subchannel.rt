// The subchannel index of a recording, which says how long its blocks and frames are.
ghost use Rattle.std.specs.Prelude.{◌≡◌, ℕ, ◌*◌, ◌≤◌};

use std::marker::Model;
use std::str::FromStr;

// The programs' own type keeps the range 1 to 24, since the library takes any number and refuses what is outside.
#[derive(Clone, Copy)]
pub struct SubchannelIndex(usize);

// Clauses see the number.
impl Model for SubchannelIndex {
    ghost Value = { ℕ };

    ghost view = { λ index. index.0 };

    ghost invariant = { λ index. (1 ≤ index.0) × (index.0 ≤ 24) };

    ghost inverse = { λ number. record { 0 = number } };
}

// A word that names no subchannel index.
#[derive(Clone, Copy)]
pub struct NoSubchannelIndex;

impl FromStr for SubchannelIndex {
    type Err = NoSubchannelIndex;

    ghost use Rattle.programs.specs.Subchannel.{ParsesIndex};

    ghost from_str_gives = { ParsesIndex };

    fn from_str(word: &str) -> Result<SubchannelIndex, NoSubchannelIndex> {
        match word.parse::<usize>() {
            Ok(number) if (1..=24).contains(&number) => Ok(SubchannelIndex(number)),
            _ => Err(NoSubchannelIndex),
        }
    }
}

impl SubchannelIndex {
    pub fn number(self) -> usize
        ensures { result ≡ self }
    {
        self.0
    }

    // How many bytes a block has.
    pub fn block_length(self) -> usize
        ensures { result ≡ 120 * self }
    {
        120 * self.0
    }

    // How many bytes a logical frame has.
    pub fn frame_length(self) -> usize
        ensures { result ≡ 24 * self }
    {
        24 * self.0
    }
}
