// The calls of a receiver as values, and who is told what came of them.
use crate::answers::{Pulled, Report};
use gf::Refusal;

// A call of a receiver.
#[derive(Clone, Copy, Debug)]
pub enum Call<'a> {
    // With so many of the first bytes of the buffer that the list of calls is lent, or all of them where they are fewer. So a buffer that is a
    // byte longer than a block lets every wrong length be refused.
    Pull { length: usize },
    Offer(&'a [u8]),
    Reset,
    Patience(usize),
    Report,
}

// What a call answered.
#[derive(Clone, Copy, PartialEq, Eq, Debug)]
pub enum Outcome {
    Pulled(Result<Pulled, Refusal>),
    Offered(Result<(), Refusal>),
    Restarted,
    PatienceSet(Result<(), Refusal>),
    Reported(Report),
}

// Who is told of each call what came of it.
pub trait Listener {
    ghost use Rattle.std.specs.Prelude.{List, ℕ};
    ghost use Rattle.reception.specs.declared.calls.Call.{Call};
    ghost use Rattle.reception.specs.declared.calls.Outcome.{Outcome};

    // What it may be after it was told of a call, its outcome, and what a pull's buffer holds then.
    ghost hears: { Self → Call → Outcome → List ℕ → Self → Type 0 };

    // For any other call there are no bytes.
    fn hear(&mut self, call: &Call<'_>, outcome: &Outcome, block: &[u8])
        ensures { hears self.old call.now outcome.now block.now self.new };
}
