// Repairing and reading the block that five frames make.
ghost use Rattle.std.specs.Prelude.{◌≡◌, ◌*◌, ◌≤◌, length, MatchOption, MatchResult};
ghost use Rattle.interleaver.specs.Rows.{AreBytes};
ghost use Rattle.block.specs.States.{header_of};
ghost use Rattle.reception.specs.Blocks.{state_of_unit, states_of_units, Delivers, Misread, IsCleanAndLegible};
ghost use Rattle.reception.specs.steps.Calls.{Reads};

use crate::answers::{Delivery, UnitState};
use crate::sizes::MAX_BLOCK_BYTES;
use block::{Opened, Received, Repaired};
use gf::Refusal;
use interleaver::Repair;

// What the check of unit `n` says, if there is such a unit.
fn unit_state(opened: &Opened, block: &[u8], n: usize) -> Option<UnitState>
    requires { length block.now ≡ 120 * (header_of opened.now).size }
    ensures { result ≡ state_of_unit (header_of opened.now) block.now n }
{
    match opened.unit(block, n) {
        Ok(_) => Some(UnitState::Good),
        Err(Refusal::UnitCheck { .. }) => Some(UnitState::Bad),
        Err(_) => None,
    }
}

// The state of each unit, then none.
fn unit_states(opened: &Opened, block: &[u8]) -> [Option<UnitState>; 6]
    requires { length block.now ≡ 120 * (header_of opened.now).size }
    ensures { result ≡ states_of_units (header_of opened.now) block.now }
{
    let mut states = [None; 6];
    for n in 0..states.len() {
        states[n] = unit_state(opened, block, n);
    }
    states
}

// Reads what a repaired block says; or answers the refusal of its header.
fn read_repaired(repaired: Repaired, repair: Repair, block: &[u8]) -> Result<Delivery, Refusal>
    ensures { Reads repaired.size repair block.now result }
{
    let opened = repaired.open(block)?;
    Ok(Delivery {
        header: opened.header(),
        repair,
        units: unit_states(&opened, block),
    })
}

// Repairs a block that was received, and reads what it says; or answers the refusal of its header.
fn open_block(size: usize, block: &mut [u8]) -> Result<Delivery, Refusal>
    requires size { (1 ≤ size) × (size ≤ 24) }
    requires long { length block.old ≡ 120 * size }
    ensures { AreBytes block.new → MatchResult result (λ d. Delivers size block.old d block.new) (Misread size block.old) }
{
    let (repaired, repair) = Received::new(size)?.repair(block)?;
    read_repaired(repaired, repair, block)
}

// As `open_block`, but it works on a copy in `block`.
fn read_block(size: usize, received: &[u8], block: &mut [u8]) -> Result<Delivery, Refusal>
    requires size { (1 ≤ size) × (size ≤ 24) }
    requires long { (length received.now ≡ 120 * size) × (length block.old ≡ 120 * size) }
    ensures { MatchResult result (λ d. Delivers size received.now d block.new) (Misread size received.now) }
{
    block.copy_from_slice(received);
    open_block(size, block)
}

// Repairs a block that was received, reads what it says, and writes it over the buffer; or answers the refusal of its header.
pub(crate) fn deliver_block(
    size: usize,
    received: &[u8],
    buffer: &mut [u8],
) -> Result<Delivery, Refusal>
    requires size { (1 ≤ size) × (size ≤ 24) }
    requires long { (length received.now ≡ 120 * size) × (length buffer.old ≡ 120 * size) }
    ensures { MatchResult result (λ d. Delivers size received.now d buffer.new)
        (λ refusal. Misread size received.now refusal × (buffer.new ≡ buffer.old)) }
{
    let mut work = [0; MAX_BLOCK_BYTES];
    let block = &mut work[..received.len()];
    let delivery = read_block(size, received, block)?;
    buffer.copy_from_slice(block);
    Ok(delivery)
}

// Repairs a block that was received, and reads what it says; or stops at the first row that is left, and answers nothing.
fn open_clean_block(size: usize, block: &mut [u8]) -> Option<Delivery>
    requires size { (1 ≤ size) × (size ≤ 24) }
    requires long { length block.old ≡ 120 * size }
    ensures { AreBytes block.new → MatchOption result (IsCleanAndLegible size block.old → ⊥)
        (λ d. Delivers size block.old d block.new × (d.repair.rows_left ≡ 0)) }
{
    // Size and block are as both calls ask for.
    let Ok(received) = Received::new(size) else {
        unreachable!()
    };
    let Ok(outcome) = received.repair_clean(block) else {
        unreachable!()
    };
    let (repaired, repair) = outcome?;
    read_repaired(repaired, repair, block).ok()
}

// Repairs a block that was received, reads what it says, and writes it over the buffer; or answers nothing where a row is left, or where
// the header is refused.
pub(crate) fn deliver_clean_block(
    size: usize,
    received: &[u8],
    buffer: &mut [u8],
) -> Option<Delivery>
    requires size { (1 ≤ size) × (size ≤ 24) }
    requires long { (length received.now ≡ 120 * size) × (length buffer.old ≡ 120 * size) }
    ensures { MatchOption result ((IsCleanAndLegible size received.now → ⊥) × (buffer.new ≡ buffer.old))
        (λ d. Delivers size received.now d buffer.new × (d.repair.rows_left ≡ 0)) }
{
    let mut work = [0; MAX_BLOCK_BYTES];
    let block = &mut work[..received.len()];
    block.copy_from_slice(received);
    let delivery = open_clean_block(size, block)?;
    buffer.copy_from_slice(block);
    Some(delivery)
}
