// Filling the checks of a block's rows, and correcting its rows.
ghost use Rattle.std.specs.Prelude.{◌≡◌, ◌*◌, ◌<◌, map, length};
ghost use Rattle.gf.specs.Fields.{gf256};
ghost use Rattle.gf.specs.Bits.{bits};
ghost use Rattle.codes.specs.Polynomials.{zeros};
ghost use Rattle.codes.specs.Codewords.{Filled};
ghost use Rattle.interleaver.specs.Rows.{row_of, OneRowAndColumn, RowsDecide, RowRepaired, RepairedOnce, RepairedSomehow, FewWrongCorrected};
ghost use Rattle.interleaver.specs.steps.OneRow.{OnlyRow};

use crate::layout::RowLayout;
use codes::{MAX_SYMBOLS, WORK_SYMBOLS, correct, encode};
use gf::{Gf256, Refusal};

// What a repair did.
#[derive(Clone, Copy, PartialEq, Eq, Debug, Default)]
pub struct Repair {
    // How many bytes have changed.
    pub changed: usize,
    // How many rows no codeword is near enough to: they stay as they were.
    pub rows_left: usize,
    // The first of these rows, where there is one.
    pub lowest_left: Option<usize>,
}

impl RowLayout {
    ghost use Rattle.interleaver.specs.Layouts.{rows_of, symbols_of, checks_of, Repairs, RepairsClean, Fills};

    // Corrects a row of the block, and answers how many of its bytes have changed. Where no codeword is near enough, it stays as it was.
    fn repair_row(&self, row: usize, block: &mut [u8], work: &mut [Gf256]) -> Option<usize>
        requires row { (row < self.now.rows) × (length block.old ≡ self.now.rows * self.now.symbols) }
        requires work { map (λ s. bits 8 s.0) work.old ≡ zeros gf256 512 }
        ensures only { OnlyRow self.now.rows self.now.symbols row (row_of self.now.rows self.now.symbols block.new row) block.old block.new }
        ensures repaired { RowRepaired self.now.checks (row_of self.now.rows self.now.symbols block.old row) (row_of self.now.rows self.now.symbols block.new row) result }
        ensures work { map (λ s. bits 8 s.0) work.new ≡ zeros gf256 512 }
    {
        let mut symbols = [Gf256(0); MAX_SYMBOLS];
        let word = &mut symbols[..self.symbols];
        self.gather(row, block, word);
        // It can be refused only since no codeword is near enough.
        let changed = correct(word, self.checks, work).ok()?;
        if changed > 0 {
            self.scatter(row, word, block);
        }
        Some(changed)
    }

    // Corrects each row of the block that a codeword is near enough to, and leaves the others as they are.
    pub fn repair(&self, block: &mut [u8]) -> Result<Repair, Refusal>
        ensures answer { Repairs self.now block.old block.new result }
        ensures places { OneRowAndColumn (rows_of self.now) (symbols_of self.now) }
        ensures rows { RowsDecide (rows_of self.now) (symbols_of self.now) }
        ensures once { RepairedOnce (rows_of self.now) (symbols_of self.now) (checks_of self.now) }
        ensures some { RepairedSomehow (rows_of self.now) (symbols_of self.now) (checks_of self.now) }
        ensures few_wrong { FewWrongCorrected (rows_of self.now) (symbols_of self.now) (checks_of self.now) }
    {
        if block.len() != self.block_length() {
            return Err(Refusal::Buffer);
        }
        let mut work = [Gf256(0); WORK_SYMBOLS];
        let mut repair = Repair::default();
        for row in 0..self.rows {
            match self.repair_row(row, block, &mut work) {
                Some(changed) => repair.changed += changed,
                None => {
                    repair.rows_left += 1;
                    repair.lowest_left = repair.lowest_left.or(Some(row));
                }
            }
        }
        Ok(repair)
    }

    // Corrects the rows of the block one by one, and stops at the first that no codeword is near enough to. It answers how many bytes have
    // changed; or nothing where it stopped: then the rows before that one are corrected, and the others are as they were.
    pub fn repair_clean(&self, block: &mut [u8]) -> Result<Option<usize>, Refusal>
        ensures { RepairsClean self.now block.old block.new result }
    {
        if block.len() != self.block_length() {
            return Err(Refusal::Buffer);
        }
        let mut work = [Gf256(0); WORK_SYMBOLS];
        let mut changed = 0;
        for row in 0..self.rows {
            let Some(count) = self.repair_row(row, block, &mut work) else {
                return Ok(None);
            };
            changed += count;
        }
        Ok(Some(changed))
    }

    // Writes the checks of a row of the block.
    fn fill_row(&self, row: usize, block: &mut [u8], work: &mut [Gf256])
        requires row { (row < self.now.rows) × (length block.old ≡ self.now.rows * self.now.symbols) }
        requires work { map (λ s. bits 8 s.0) work.old ≡ zeros gf256 512 }
        ensures only { OnlyRow self.now.rows self.now.symbols row (row_of self.now.rows self.now.symbols block.new row) block.old block.new }
        ensures filled { Filled gf256 (bits 8) self.now.checks (row_of self.now.rows self.now.symbols block.old row) (row_of self.now.rows self.now.symbols block.new row) }
        ensures work { map (λ s. bits 8 s.0) work.new ≡ zeros gf256 512 }
    {
        let mut symbols = [Gf256(0); MAX_SYMBOLS];
        let word = &mut symbols[..self.symbols];
        self.gather(row, block, word);
        // The word has the code's shape, and the work buffer is zeros.
        let _ = encode(word, self.checks, work);
        self.scatter(row, word, block);
    }

    // Writes the checks of every row of the block, so that each is a codeword, and no other byte.
    pub fn fill_checks(&self, block: &mut [u8]) -> Result<(), Refusal>
        ensures { Fills self.now block.old block.new result }
    {
        if block.len() != self.block_length() {
            return Err(Refusal::Buffer);
        }
        let mut work = [Gf256(0); WORK_SYMBOLS];
        for row in 0..self.rows {
            self.fill_row(row, block, &mut work);
        }
        Ok(())
    }
}
