// Correcting a word and running a receiver over a recording, in one call, and counting what it delivers.
ghost use Rattle.std.specs.Prelude.{IfOk};
ghost use Rattle.codes.specs.Correcting.{Corrects};
ghost use Rattle.stretches.specs.Instances.{WholeRun};

use crate::blocks::changes;
use crate::failure::Failure;
use gf::{Field, Refusal};
use reception::{Call, Delivery, Listener, Outcome, Pulled, UnitState, correct_and_drive};
use sources::Recording;
use std::alloc::Global;

// How many super frames came out as they were written, and how many otherwise.
#[derive(Clone, Copy)]
pub struct Tally {
    pub as_written: usize,
    pub otherwise: usize,
}

// What is delivered of super frames that stand one behind another in a recording.
#[derive(Drop)]
struct Deliveries<'b> {
    // The recorded bytes behind the super frames that were delivered.
    rest: &'b [u8],
    tally: Tally,
}

// Whether nothing had to be repaired, and every unit is good.
fn is_untouched(delivery: &Delivery) -> bool {
    let units = delivery.header.parameters.layout().units;
    let good = delivery
        .units
        .iter()
        .filter(|unit| **unit == Some(UnitState::Good))
        .count();
    changes(&delivery.repair, 0) && good == units
}

impl Listener for Deliveries<'_> {
    ghost hears = { λ _ _ _ _ _. Unit {0} };

    fn hear(&mut self, _call: &Call<'_>, outcome: &Outcome, block: &[u8]) {
        let Outcome::Pulled(Ok(Pulled::Delivered(delivery))) = outcome else {
            return;
        };
        let (recorded, rest) = self.rest.split_at(block.len().min(self.rest.len()));
        self.rest = rest;
        let tally = &mut self.tally;
        if recorded == block && is_untouched(delivery) {
            tally.as_written = tally.as_written.saturating_add(1);
        } else {
            tally.otherwise = tally.otherwise.saturating_add(1);
        }
    }
}

// Corrects the word, and gives a new receiver every frame of the recording. Answers what correcting answered, and counts what is delivered.
pub fn receive<F: Field>(
    alloc: Global,
    size: usize,
    recording: &[u8],
    word: &mut [F],
    checks: usize,
    work: &mut [F],
) -> Result<(Result<usize, Refusal>, Tally), Failure>
    ensures { IfOk result (λ done. Corrects F.field F.mean checks word.old word.new work.old work.new done.0 × WholeRun size recording.now) }
{
    let source = Recording::new(size, recording)?;
    let length = 120 * size;
    let mut buffer = vec![in alloc; 0u8; length]?;
    let calls = vec![in alloc; Call::Pull { length }; recording.len() / (24 * size)]?;
    let tally = Tally {
        as_written: 0,
        otherwise: 0,
    };
    let mut deliveries = Deliveries {
        rest: recording,
        tally,
    };
    let (corrected, _source) = correct_and_drive(
        word,
        checks,
        work,
        size,
        source,
        &calls,
        &mut buffer,
        &mut deliveries,
    );
    Ok((corrected, deliveries.tally))
}
