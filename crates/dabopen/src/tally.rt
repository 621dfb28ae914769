// What was found in a recording so far.
use std::fmt;

#[derive(Clone, Copy, Default)]
pub struct Tally {
    blocks: u64,
    opened: u64,
    units: u64,
    good: u64,
}

impl Tally {
    // Counts a block, and answers its number.
    pub fn count_block(&mut self) -> u64 {
        let number = self.blocks;
        self.blocks = number.saturating_add(1);
        number
    }

    pub fn count_opened(&mut self) {
        self.opened = self.opened.saturating_add(1);
    }

    pub fn count_unit(&mut self, good: bool) {
        self.units = self.units.saturating_add(1);
        if good {
            self.good = self.good.saturating_add(1);
        }
    }
}

impl fmt::Display for Tally {
    fn fmt<W: fmt::Write>(&self, f: &mut fmt::Formatter<W>) -> fmt::Result {
        let Tally {
            blocks,
            opened,
            units,
            good,
        } = self;
        write!(
            f,
            "{blocks} blocks, {opened} opened, {units} units, {good} good"
        )
    }
}
