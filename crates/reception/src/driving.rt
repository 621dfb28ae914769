// Running lists of calls on a receiver.
ghost use Rattle.std.specs.Prelude.{◌≡◌};
ghost use Rattle.codes.specs.Correcting.{Corrects};
ghost use Rattle.reception.specs.Receptions.{Reception, reception, new_receiver};
ghost use Rattle.reception.specs.Runs.{CutAnywhere, RunsAreOneRun};
ghost use Rattle.reception.specs.Recovery.{BackAfterBadReception};
ghost use Rattle.reception.specs.Service.{LineServed, NothingLostWhileHunting, OneAnswer};
ghost use Rattle.reception.specs.Driving.{Driven, PiecesAreOneRun};
ghost use Rattle.reception.specs.steps.Calls.{Ran};

use crate::calls::{Call, Listener, Outcome};
use crate::receiver::Receiver;
use codes::correct;
use gf::{Field, Refusal};
use sources::FrameSource;

impl<S: FrameSource> Receiver<S> {
    // Makes one call, and tells the listener what came of it. A pull is lent the first bytes of the buffer.
    fn make<L: Listener>(&mut self, call: &Call<'_>, buffer: &mut [u8], listener: &mut L)
        ensures { Ran L.hears (reception S.meaning self.old) call.now buffer.old buffer.new listener.old listener.new (reception S.meaning self.new) }
    {
        match *call {
            Call::Pull { length } => {
                let lent = length.min(buffer.len());
                let block = &mut buffer[..lent];
                let outcome = Outcome::Pulled(self.pull(block));
                listener.hear(call, &outcome, block);
            }
            Call::Offer(frame) => {
                let outcome = Outcome::Offered(self.offer(frame));
                listener.hear(call, &outcome, &[]);
            }
            Call::Reset => {
                self.reset();
                listener.hear(call, &Outcome::Restarted, &[]);
            }
            Call::Patience(patience) => {
                let outcome = Outcome::PatienceSet(self.patience(patience));
                listener.hear(call, &outcome, &[]);
            }
            Call::Report => {
                let outcome = Outcome::Reported(self.report());
                listener.hear(call, &outcome, &[]);
            }
        }
    }

    // Makes the calls one after another, and tells the listener of each what came of it. Each pull is lent the first bytes of the buffer,
    // as many as the call says, or all of them.
    pub fn run<L: Listener>(&mut self, calls: &[Call<'_>], buffer: &mut [u8], listener: &mut L)
        ensures driven { Driven L.hears (reception S.meaning self.old) calls.now buffer.old buffer.new listener.old listener.new (reception S.meaning self.new) }
        ensures pieces { PiecesAreOneRun L.hears }
        ensures together { RunsAreOneRun }
        ensures cut { CutAnywhere }
    {
        for call in calls {
            self.make(call, buffer, listener);
        }
    }
}

// Makes a receiver of this size over the source, runs the calls on it, and gives the source back.
pub fn drive<S: FrameSource, L: Listener>(
    size: usize,
    source: S,
    calls: &[Call<'_>],
    buffer: &mut [u8],
    listener: &mut L,
) -> S
    ensures driven { (end : Reception) × Driven L.hears (new_receiver size (S.meaning source)) calls.now buffer.old buffer.new listener.old listener.new end
        × (S.meaning result ≡ end.source) }
    ensures cut { CutAnywhere }
    ensures back { BackAfterBadReception }
    ensures nothing_lost { NothingLostWhileHunting }
    ensures served { LineServed }
    ensures one_answer { OneAnswer }
{
    let mut receiver = Receiver::new(size, source);
    receiver.run(calls, buffer, listener);
    receiver.end()
}

// All that this library promises, in one call: corrects a word over any field, as `codes::correct` does, and runs the calls on a receiver,
// as `drive` does. Answers what correcting answered, and the source.
pub fn correct_and_drive<F: Field, S: FrameSource, L: Listener>(
    word: &mut [F],
    checks: usize,
    work: &mut [F],
    size: usize,
    source: S,
    calls: &[Call<'_>],
    buffer: &mut [u8],
    listener: &mut L,
) -> (Result<usize, Refusal>, S)
    ensures corrects { Corrects F.field F.mean checks word.old word.new work.old work.new result.0 }
    ensures driven { (end : Reception) × Driven L.hears (new_receiver size (S.meaning source)) calls.now buffer.old buffer.new listener.old listener.new end
        × (S.meaning result.1 ≡ end.source) }
    ensures cut { CutAnywhere }
    ensures back { BackAfterBadReception }
    ensures nothing_lost { NothingLostWhileHunting }
    ensures served { LineServed }
    ensures one_answer { OneAnswer }
{
    let corrected = correct(word, checks, work);
    (corrected, drive(size, source, calls, buffer, listener))
}
