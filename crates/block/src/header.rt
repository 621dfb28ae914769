// The header of a super frame: its parameters, and where its units stand.
ghost use Rattle.std.specs.Prelude.{◌≡◌, IfOk};
ghost use Rattle.block.specs.Headers.{header, unit_at, Tiles};

use super::parameters::Parameters;
use super::sized_block::SizedBlock;
use gf::Refusal;

// What the header of an opened block says.
#[derive(Clone, Copy, PartialEq, Eq, Debug)]
pub struct Header {
    // The subchannel index.
    pub size: usize,
    pub parameters: Parameters,
    // The first byte of each unit, then the end of the super frame, then zeros: an array, since a header is `Copy`, and `ArrayVec` is not.
    pub starts: [u16; 7],
}

// Where a unit stands in its block, without its check.
#[derive(Clone, Copy, PartialEq, Eq, Debug)]
pub struct UnitPlace {
    pub place: usize,
    pub length: usize,
}

// Reads the header of a block; the size is the subchannel index, and the block has 120 times as many bytes.
pub(crate) fn read_header(size: usize, block: &[u8]) -> Result<Header, Refusal>
    ensures value { result ≡ header size block.now }
    ensures tiles { IfOk result Tiles }
{
    let block = SizedBlock::new(size, block)?;
    Ok(block.header()?)
}

impl Header {
    // Where unit `n` stands.
    pub fn unit(&self, n: usize) -> Result<UnitPlace, Refusal>
        ensures { result ≡ unit_at self.now n }
    {
        if n >= self.parameters.layout().units {
            return Err(Refusal::Index);
        }
        let place = usize::from(self.starts[n]);
        let end = usize::from(self.starts[n + 1]);
        if end < place + 3 {
            return Err(Refusal::Index);
        }
        Ok(UnitPlace {
            place,
            length: end - place - 2,
        })
    }
}
