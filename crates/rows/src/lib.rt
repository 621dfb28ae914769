// Rows of a block for callers in C: 120 bytes, of which the last ten are checks.
#![tactic(auto)]

ghost use Rattle.rows.specs.Rows.{Answered, RowCorrection};

use codes::correct;
use gf::{Gf256, Refusal};

const ROW_SYMBOLS: usize = 120;

const ROW_CHECKS: usize = 10;

// Corrects a row in place: answers how many bytes have changed, or refuses and changes nothing.
fn correct_symbols(row: &mut [Gf256], work: &mut [Gf256]) -> Result<usize, Refusal>
    ensures { RowCorrection row.old row.new work.old work.new result }
{
    if row.len() != ROW_SYMBOLS {
        return Err(Refusal::Shape);
    }
    correct(row, ROW_CHECKS, work)
}

// Corrects a row in place: answers 0 and writes how many bytes have changed, or answers the refusal's number and changes nothing.
// C has no `Result`: so the answer is a number, and the count goes through a pointer. `work` is 512 zeros, before and after.
#[unsafe(no_mangle)]
pub extern "C" fn correct_row(row: &mut [Gf256], work: &mut [Gf256], count: &mut usize) -> u8
    ensures { Answered row.old row.new work.old work.new count.old count.new result }
{
    match correct_symbols(row, work) {
        Ok(changed) => {
            *count = changed;
            0
        }
        Err(refusal) => refusal.number(),
    }
}
