// The rows of a block: 120 bytes each, of which ten are checks, and as many rows as the subchannel index says.
ghost use Rattle.std.specs.Prelude.{◌≡◌, ◌*◌, ◌≤◌, length};
ghost use Rattle.block.specs.steps.Writing.{RowsFilled};
ghost use Rattle.block.specs.steps.Reading.{RepairsRows, RepairsCleanRows};

use gf::Refusal;
use interleaver::{Repair, RowLayout};

const ROW_SYMBOLS: usize = 120;

const ROW_CHECKS: usize = 10;

// Corrects the rows of a block of this size, or leaves them as they are.
pub(crate) fn repair_rows(size: usize, block: &mut [u8]) -> Result<Repair, Refusal>
    ensures { RepairsRows size block.old block.new result }
{
    RowLayout::new(size, ROW_SYMBOLS, ROW_CHECKS)?.repair(block)
}

// Corrects the rows of a block of this size, and answers how many bytes have changed; or stops at the first row beyond correction.
pub(crate) fn repair_clean_rows(size: usize, block: &mut [u8]) -> Result<Option<usize>, Refusal>
    ensures { RepairsCleanRows size block.old block.new result }
{
    RowLayout::new(size, ROW_SYMBOLS, ROW_CHECKS)?.repair_clean(block)
}

// Writes the checks of the rows of a block of this size.
pub(crate) fn fill_rows(size: usize, block: &mut [u8])
    requires { (1 ≤ size) × ((size ≤ 24) × (length block.old ≡ 120 * size)) }
    ensures { RowsFilled size block.old block.new }
{
    let Ok(rows) = RowLayout::new(size, ROW_SYMBOLS, ROW_CHECKS) else {
        unreachable!()
    };
    // The buffer has the length that it asks for.
    let _ = rows.fill_checks(block);
}
