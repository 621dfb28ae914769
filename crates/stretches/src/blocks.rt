// Whether the block that five frames make carries a super frame, or cannot be read at all.
ghost use Rattle.std.specs.Prelude.{◌≡◌, ◌*◌, ◌≤◌, ◌↔◌, length, IsTrue, MatchResult};
ghost use Rattle.interleaver.specs.Rows.{AreBytes};
ghost use Rattle.block.specs.States.{header_of};
ghost use Rattle.reception.specs.Blocks.{Misread, IsLegible};
ghost use Rattle.stretches.specs.Instances.{Carried};
ghost use Rattle.stretches.specs.steps.Reading.{Reads, AllGood};

use block::{Opened, Received, Repair};
use gf::Refusal;

// Whether the check of every unit is right.
fn all_units_good(opened: &Opened, block: &[u8]) -> bool
    requires { length block.now ≡ 120 * (header_of opened.now).size }
    ensures { IsTrue result ↔ AllGood (header_of opened.now) block.now }
{
    for n in 0..opened.header().parameters.layout().units {
        if opened.unit(block, n).is_err() {
            return false;
        }
    }
    true
}

// Repairs the block, and reads its header; or answers the refusal of it.
fn open_block(size: usize, block: &mut [u8]) -> Result<(Opened, Repair), Refusal>
    requires size { (1 ≤ size) × (size ≤ 24) }
    requires long { length block.old ≡ 120 * size }
    ensures { AreBytes block.new → MatchResult result (λ read. Reads size block.old block.new read.0 read.1) (Misread size block.old) }
{
    let (repaired, repair) = Received::new(size)?.repair(block)?;
    let opened = repaired.open(block)?;
    Ok((opened, repair))
}

// The same of bytes that stay as they are; `work` holds the repaired ones then.
fn read_block(size: usize, block: &[u8], work: &mut [u8]) -> Result<(Opened, Repair), Refusal>
    requires size { (1 ≤ size) × (size ≤ 24) }
    requires long { (length block.now ≡ 120 * size) × (length work.old ≡ 120 * size) }
    ensures { MatchResult result (λ read. Reads size block.now work.new read.0 read.1) (Misread size block.now) }
{
    work.copy_from_slice(block);
    open_block(size, work)
}

// Whether the repair changed so many bytes, and left no row.
pub(crate) fn changes(repair: &Repair, wrong_bytes: usize) -> bool
    ensures { IsTrue result ↔ ((repair.now.changed ≡ wrong_bytes) × (repair.now.rows_left ≡ 0)) }
{
    repair.changed == wrong_bytes && repair.rows_left == 0
}

// Whether the block carries a super frame with so many bytes wrong: repairing it changes as many and leaves no row, its header is right, and
// every unit is good.
pub(crate) fn is_carried(size: usize, wrong_bytes: usize, block: &[u8], work: &mut [u8]) -> bool
    requires size { (1 ≤ size) × (size ≤ 24) }
    requires long { (length block.now ≡ 120 * size) × (length work.old ≡ 120 * size) }
    ensures { IsTrue result ↔ Carried size wrong_bytes block.now }
{
    let Ok((opened, repair)) = read_block(size, block, work) else {
        return false;
    };
    changes(&repair, wrong_bytes) && all_units_good(&opened, work)
}

// Whether the header of the block is refused, once its rows are repaired.
pub(crate) fn is_refused(size: usize, block: &[u8], work: &mut [u8]) -> bool
    requires size { (1 ≤ size) × (size ≤ 24) }
    requires long { (length block.now ≡ 120 * size) × (length work.old ≡ 120 * size) }
    ensures { IsTrue result ↔ (IsLegible size block.now → ⊥) }
{
    read_block(size, block, work).is_err()
}
