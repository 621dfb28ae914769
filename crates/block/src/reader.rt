// Reading a block: it is received, then repaired, then opened, in that order only.
ghost use Rattle.std.specs.Prelude.{◌≡◌, ◌≤◌};
ghost use Rattle.block.specs.Headers.{Tiles};

use super::checks::unit_check;
use super::header::{Header, UnitPlace, read_header};
use super::refused::Refused;
use super::rows::{repair_clean_rows, repair_rows};
use super::sized_block::check_buffer;
use gf::Refusal;
use interleaver::Repair;

// A block as it was received. Its bytes stay with the caller and are lent at each call, here and in the next two states.
#[derive(Drop, Debug)]
pub struct Received {
    // The subchannel index.
    size: usize,
    ghost in_range: { (1 ≤ size) × (size ≤ 24) },
}

// A block whose rows are corrected, or left as they were.
#[derive(Drop, Debug)]
pub struct Repaired {
    // The subchannel index.
    size: usize,
    ghost in_range: { (1 ≤ size) × (size ≤ 24) },
}

// A block whose header is right.
#[derive(Drop, Debug)]
pub struct Opened {
    header: Header,
    ghost in_range: { (1 ≤ header.size) × (header.size ≤ 24) },
    ghost tiles: { Tiles header },
}

// An access unit of an opened block, without its check.
#[derive(Clone, Copy, Debug)]
pub struct AccessUnit<'b> {
    // Where it stands in the block.
    pub place: usize,
    pub bytes: &'b [u8],
}

impl Received {
    ghost use Rattle.block.specs.States.{Receives, Repairs, RepairsClean};

    // A block of this size is about to be read: 1 to 24, else it is refused.
    pub fn new(size: usize) -> Result<Received, Refusal>
        ensures { Receives size result }
    {
        if !(1..=24).contains(&size) {
            return Err(Refusal::Size);
        }
        Ok(Received { size })
    }

    // Corrects the rows of the block.
    pub fn repair(self, block: &mut [u8]) -> Result<(Repaired, Repair), Refused<Received>>
        ensures { Repairs self block.old block.new result }
    {
        match repair_rows(self.size, block) {
            Ok(repair) => Ok((Repaired { size: self.size }, repair)),
            Err(refusal) => Err(Refused {
                state: self,
                refusal,
            }),
        }
    }

    // Corrects the rows of the block, and stops at the first that no codeword is near enough to: then it answers `None`, and the block is not
    // clean.
    pub fn repair_clean(
        self,
        block: &mut [u8],
    ) -> Result<Option<(Repaired, Repair)>, Refused<Received>>
        ensures { RepairsClean self block.old block.new result }
    {
        match repair_clean_rows(self.size, block) {
            Ok(Some(changed)) => {
                let repair = Repair {
                    changed,
                    rows_left: 0,
                    lowest_left: None,
                };
                Ok(Some((Repaired { size: self.size }, repair)))
            }
            Ok(None) => Ok(None),
            Err(refusal) => Err(Refused {
                state: self,
                refusal,
            }),
        }
    }
}

impl Repaired {
    ghost use Rattle.block.specs.Laws.{OpeningWhatWasSealed};
    ghost use Rattle.block.specs.States.{Opens};

    // Reads the header of the block.
    pub fn open(self, block: &[u8]) -> Result<Opened, Refused<Repaired>>
        ensures opens { Opens self block.now result }
        ensures sealed { OpeningWhatWasSealed }
    {
        match read_header(self.size, block) {
            Ok(header) => Ok(Opened { header }),
            Err(refusal) => Err(Refused {
                state: self,
                refusal,
            }),
        }
    }
}

impl Opened {
    ghost use Rattle.block.specs.States.{header_of, FindsUnit};

    // The parameters of the block and the starts of its units.
    pub fn header(&self) -> Header
        ensures { result ≡ header_of self.now }
    {
        self.header
    }

    // Unit `n`, if its check is right.
    pub fn unit<'b>(&self, block: &'b [u8], n: usize) -> Result<AccessUnit<'b>, Refusal>
        ensures { FindsUnit self.now block.now n result }
    {
        let Opened { header } = self;
        check_buffer(header.size, block)?;
        let UnitPlace { place, length } = header.unit(n)?;
        let (unit, check) = block[place..place + length + 2].split_at(length);
        if unit_check(unit) != u16::from_be_bytes([check[0], check[1]]) {
            return Err(Refusal::UnitCheck { unit: n as u8 });
        }
        Ok(AccessUnit { place, bytes: unit })
    }
}
