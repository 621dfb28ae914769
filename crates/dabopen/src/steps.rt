// Opening a block and its units, one step of the library after the other.
use block::{Opened, Received, Repair, UnitPlace};
use gf::Refusal;
use std::fmt;

// A block after the correction of its rows: what the correction did, and the block opened, or why it cannot be.
#[derive(Drop)]
pub struct Outcome {
    pub correction: Correction,
    pub opened: Result<Opened, Refusal>,
}

// What the correction of the rows did.
#[derive(Clone, Copy)]
pub struct Correction(Repair);

impl fmt::Display for Correction {
    fn fmt<W: fmt::Write>(&self, f: &mut fmt::Formatter<W>) -> fmt::Result {
        let Repair {
            changed,
            rows_left,
            lowest_left,
        } = self.0;
        write!(f, "{changed} bytes changed, {rows_left} rows left")?;
        match lowest_left {
            Some(row) => write!(f, ", lowest row left {row}"),
            None => Ok(()),
        }
    }
}

// Corrects the rows of a block, in place, and then reads its header.
pub fn open_block(size: usize, block: &mut [u8]) -> Result<Outcome, Refusal> {
    let received = Received::new(size)?;
    let (repaired, repair) = received.repair(block).map_err(|refused| refused.refusal)?;
    Ok(Outcome {
        correction: Correction(repair),
        opened: repaired.open(block).map_err(|refused| refused.refusal),
    })
}

// A unit, and where it stands.
#[derive(Clone, Copy)]
pub struct FoundUnit<'b> {
    pub stands: UnitPlace,
    // Its bytes, where its check is right.
    pub good: Option<&'b [u8]>,
}

// Finds unit `n` of an opened block. A wrong check is no refusal here.
pub fn find_unit<'b>(opened: &Opened, block: &'b [u8], n: usize) -> Result<FoundUnit<'b>, Refusal> {
    let stands = opened.header().unit(n)?;
    match opened.unit(block, n) {
        Ok(unit) => Ok(FoundUnit {
            stands,
            good: Some(unit.bytes),
        }),
        Err(Refusal::UnitCheck { .. }) => Ok(FoundUnit { stands, good: None }),
        Err(refusal) => Err(refusal),
    }
}
