// Reading a block: received, repaired and opened, and what came out in the words of the texts.
use block::{Header, Opened, Received, Repaired};
use gf::Refusal;
use interleaver::Repair;
use std::alloc::{AllocError, Global};

// A block that is open, and what was repaired in it.
#[derive(Drop)]
pub struct Reading {
    pub repair: Repair,
    pub opened: Opened,
}

// Receives and repairs a block.
pub fn repair_block(size: usize, block: &mut [u8]) -> Result<(Repaired, Repair), Refusal> {
    Ok(Received::new(size)?.repair(block)?)
}

// Receives, repairs and opens a block.
pub fn read_block(size: usize, block: &mut [u8]) -> Result<Reading, Refusal> {
    let (repaired, repair) = repair_block(size, block)?;
    let opened = repaired.open(block)?;
    Ok(Reading { repair, opened })
}

// What the texts say of an open block.
#[derive(Drop)]
pub struct Words {
    pub parameters: u8,
    pub starts: String,
    // A letter for each unit.
    pub units: String,
}

impl Reading {
    pub fn words(&self, heap: Global, block: &[u8]) -> Result<Words, AllocError> {
        Ok(Words {
            parameters: parameter_byte(block),
            starts: starts_text(heap, &self.opened.header())?,
            units: unit_letters(heap, &self.opened, block)?,
        })
    }
}

// The starts in brackets.
pub fn starts_text(heap: Global, header: &Header) -> Result<String, AllocError> {
    let units = header.parameters.layout().units;
    let starts = header.starts.get(..=units).unwrap_or_default();
    format!(in heap; "{starts:?}")
}

// A letter for each unit: good, bad, or refused otherwise.
pub fn unit_letters(heap: Global, opened: &Opened, block: &[u8]) -> Result<String, AllocError> {
    (0..opened.header().parameters.layout().units)
        .map(|n| match opened.unit(block, n) {
            Ok(_) => 'g',
            Err(Refusal::UnitCheck { .. }) => 'b',
            Err(_) => 'r',
        })
        .collect(heap)
}

// The parameter byte of a block.
pub fn parameter_byte(block: &[u8]) -> u8 {
    block.get(2).copied().unwrap_or(0)
}
