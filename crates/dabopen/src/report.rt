// What is printed of each block, and of all of them.
use crate::failure::Failure;
use crate::files::write_unit;
use crate::steps::{Correction, FoundUnit, find_unit, open_block};
use crate::tally::Tally;
use block::{Opened, UnitPlace};
use programs::SubchannelIndex;
use std::io;

// Prints what the blocks of a recording hold, one after the other, and writes their good units to files where a folder is given.
#[derive(Drop)]
pub struct Report<'a> {
    rt: &'a HostRuntime,
    size: SubchannelIndex,
    folder: Option<String>,
    tally: Tally,
}

impl<'a> Report<'a> {
    pub fn new(rt: &'a HostRuntime, size: SubchannelIndex, folder: Option<String>) -> Report<'a> {
        Report {
            rt,
            size,
            folder,
            tally: Tally::default(),
        }
    }

    fn print_unit(&mut self, number: u64, n: usize, unit: &FoundUnit<'_>) -> Result<(), Failure> {
        let good = unit.good.is_some();
        self.tally.count_unit(good);
        let UnitPlace { place, length } = unit.stands;
        let state = if good { "good" } else { "bad" };
        println!(self.rt; "  unit {n}: place {place}, {length} bytes, {state}")?;
        if let (Some(folder), Some(bytes)) = (&self.folder, unit.good) {
            write_unit(self.rt, folder, number, n, bytes)?;
        }
        Ok(())
    }

    // Prints what the header says, and then each unit.
    fn print_opened(
        &mut self,
        number: u64,
        correction: Correction,
        opened: &Opened,
        block: &[u8],
    ) -> Result<(), Failure> {
        self.tally.count_opened();
        let parameters = opened.header().parameters;
        let units = parameters.layout().units;
        println!(self.rt; "block {number}: {correction}; {parameters}, {units} units")?;
        for n in 0..units {
            match find_unit(opened, block, n) {
                Ok(unit) => self.print_unit(number, n, &unit)?,
                Err(refusal) => println!(self.rt; "  unit {n}: {refusal}")?,
            }
        }
        Ok(())
    }

    // Opens a block, whose rows are corrected in place.
    pub fn print_block(&mut self, block: &mut [u8]) -> Result<(), Failure> {
        let number = self.tally.count_block();
        let outcome = open_block(self.size.number(), block)?;
        let correction = outcome.correction;
        match outcome.opened {
            Ok(opened) => self.print_opened(number, correction, &opened, block),
            Err(refusal) => {
                println!(self.rt; "block {number}: {correction}; {refusal}")?;
                Ok(())
            }
        }
    }

    // Prints the sum of it all, with so many bytes behind the last whole block.
    pub fn print_end(&self, unfinished: usize) -> io::Result<()> {
        let tally = self.tally;
        if unfinished > 0 {
            println!(self.rt; "{tally}, {unfinished} bytes unfinished")
        } else {
            println!(self.rt; "{tally}")
        }
    }
}
