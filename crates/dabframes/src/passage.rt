// Passing the frames of a recording through a queue.
ghost use Rattle.std.specs.Prelude.{◌≡◌, ◌*◌, ◌/◌, ◌^◌, ◌<◌, ◌⊎◌, cond, [], ◌∷◌, length, IfOk, MatchBool};
ghost use Rattle.dabframes.specs.Tallies.{AllAgree};

use crate::args::Pace;
use crate::failure::Failure;
use crate::tally::Tally;
use gf::Refusal;
use programs::SubchannelIndex;
use sources::{FrameQueue, FrameSource, Next, PLACES, Recording};
use std::alloc::{AllocError, Global};
use std::collections::VecDeque;

// A recording that is on its way through a queue.
#[derive(Drop)]
struct Passage<'b, 'q> {
    recording: Recording<'b>,
    // The bytes of the same frames, cut up without the recording.
    rest: &'b [u8],
    queue: FrameQueue<'q>,
    // The frames that wait in the queue, as they were recorded.
    waiting: VecDeque<&'b [u8]>,
    tally: Tally,
}

impl<'b, 'q> Passage<'b, 'q> {
    ghost use Rattle.dabframes.specs.steps.Passages.{to_come, held, accounted, Steady, Enqueues, HandsIn, TakesOut};

    // Hands the queue a frame that was recorded as `original`. Where the queue is full, the frame is lost.
    fn enqueue(&mut self, original: &'b [u8], frame: &[u8]) -> Result<(), Failure>
        ensures { IfOk result (λ _. Enqueues self.old original.now frame.now self.new) }
    {
        match self.queue.offer(frame) {
            Ok(()) => {
                self.waiting.push_back(original).map_err(AllocError::from)?;
                Ok(())
            }
            Err(Refusal::Full) => {
                self.tally.count_lost();
                Ok(())
            }
            Err(refusal) => Err(Failure::Refused(refusal)),
        }
    }

    // Hands the next frame of the recording to the queue; false where there is none.
    fn hand_in(&mut self, frame: &mut [u8]) -> Result<bool, Failure>
        requires steady { Steady (length frame.old) self.old }
        requires few { accounted self.old < 2 ^ 64 }
        ensures { IfOk result (HandsIn (length frame.old) 1 self.old self.new) }
    {
        let Next::Frame = self.recording.next(frame)? else {
            return Ok(false);
        };
        let (original, rest) = self.rest.split_at(frame.len().min(self.rest.len()));
        self.rest = rest;
        self.enqueue(original, frame)?;
        Ok(true)
    }

    // Hands in a burst of so many frames; false where the recording ended before.
    fn hand_in_burst(&mut self, count: usize, frame: &mut [u8]) -> Result<bool, Failure>
        requires steady { Steady (length frame.old) self.old }
        requires few { accounted self.old < 2 ^ 64 }
        ensures { IfOk result (HandsIn (length frame.old) count self.old self.new) }
    {
        for _ in 0..count {
            if !self.hand_in(frame)? {
                return Ok(false);
            }
        }
        Ok(true)
    }

    // Takes the next frame out of the queue, and compares it; false where none waits.
    fn take_out(&mut self, frame: &mut [u8]) -> Result<bool, Failure>
        requires steady { Steady (length frame.old) self.old }
        requires few { accounted self.old < 2 ^ 64 }
        ensures taken { IfOk result (λ more. TakesOut (length frame.old) self.old self.new (cond more 1 0)) }
        ensures frame { IfOk result (λ more. MatchBool more (held self.old ≡ frame.new ∷ held self.new) (held self.new ≡ [])) }
    {
        let Next::Frame = self.queue.next(frame)? else {
            return Ok(false);
        };
        let original = self.waiting.pop_front().unwrap_or(&[]);
        self.tally.compare(original, frame);
        Ok(true)
    }

    // Takes at most so many frames out, and answers how many there were.
    fn take_out_up_to(&mut self, count: usize, frame: &mut [u8]) -> Result<usize, Failure>
        requires steady { Steady (length frame.old) self.old }
        requires few { accounted self.old < 2 ^ 64 }
        ensures taken { IfOk result (TakesOut (length frame.old) self.old self.new) }
        ensures all { IfOk result (λ taken. (taken ≡ count) ⊎ (held self.new ≡ [])) }
    {
        for taken in 0..count {
            if !self.take_out(frame)? {
                return Ok(taken);
            }
        }
        Ok(count)
    }

    // Takes so many frames out at a time, as long as so many wait.
    fn take_out_ready(&mut self, count: usize, frame: &mut [u8]) -> Result<(), Failure>
        requires steady { Steady (length frame.old) self.old }
        requires few { accounted self.old < 2 ^ 64 }
        ensures { IfOk result (λ _. Steady (length frame.old) self.new × (to_come self.new ≡ to_come self.old) × (accounted self.new ≡ accounted self.old)) }
    {
        // At most as many frames wait as there are places, so there are no more turns.
        for _ in 0..PLACES {
            if self.waiting.len() < count {
                return Ok(());
            }
            self.take_out_up_to(count, frame)?;
        }
        Ok(())
    }

    // Hands in burst after burst, and takes out what is ready after each, until the recording is at its end.
    fn hand_in_all(&mut self, pace: Pace, frames: usize, frame: &mut [u8]) -> Result<(), Failure>
        requires steady { Steady (length frame.old) self.old }
        requires accounted { accounted self.old ≡ frames }
        ensures { IfOk result (λ _. Steady (length frame.old) self.new × (to_come self.new ≡ []) × (accounted self.new ≡ frames)) }
    {
        // There are at most as many bursts as frames.
        for _ in 0..frames {
            // One at least, or the recording would never end.
            let more = self.hand_in_burst(pace.burst.max(1), frame)?;
            self.take_out_ready(pace.take, frame)?;
            if !more {
                return Ok(());
            }
        }
        Ok(())
    }

    // Takes out what is left over in the queue.
    fn finish(&mut self, frame: &mut [u8]) -> Result<(), Failure>
        requires steady { Steady (length frame.old) self.old }
        requires few { accounted self.old < 2 ^ 64 }
        requires ended { to_come self.old ≡ [] }
        ensures { IfOk result (λ _. AllAgree (accounted self.old) self.new.tally) }
    {
        let left_over = self.take_out_up_to(PLACES, frame)?;
        let complete = self.rest.len() < frame.len() && self.waiting.is_empty();
        self.tally.finish(left_over, complete);
        Ok(())
    }
}

// Passes all frames through a queue of this size.
pub fn pass(
    alloc: Global,
    size: SubchannelIndex,
    pace: Pace,
    bytes: &[u8],
) -> Result<Tally, Failure>
    ensures { IfOk result (AllAgree (length bytes.now / (24 * size))) }
{
    let frame_length = size.frame_length();
    let frames = bytes.len() / frame_length;
    let mut frame = vec![in alloc; 0u8; frame_length]?;
    let mut buffer = vec![in alloc; 0u8; PLACES * frame_length]?;
    FrameQueue::check(size.number(), &buffer)?;
    let mut passage = Passage {
        recording: Recording::new(size.number(), bytes)?,
        rest: bytes,
        queue: FrameQueue::new(size.number(), &mut buffer),
        waiting: VecDeque::new(alloc),
        tally: Tally::new(frame_length, bytes.len() % frame_length),
    };
    passage.hand_in_all(pace, frames, &mut frame)?;
    passage.finish(&mut frame)?;
    Ok(passage.tally)
}
