// The receiver: it finds the boundary of super frames among the frames of a source, and follows it.
ghost use Rattle.std.specs.Prelude.{◌≡◌, ◌≤◌, OnOk};
ghost use Rattle.gf.specs.Refusals.{unless, Answers};
ghost use Rattle.sources.specs.Sources.{SameUnlessTakenIn, WritesOnlyFrame};
ghost use Rattle.reception.specs.Receptions.{reception, new_receiver, SameUnlessTaken, receiver_complaints, pull_complaints, patience_complaints, pulled, offered, restarted, patience_set, reported};
ghost use Rattle.reception.specs.Rules.{Rule};
ghost use Rattle.reception.specs.steps.Calls.{PullFits};

use crate::answers::{Pulled, Report};
use crate::blocks::{deliver_block, deliver_clean_block};
use crate::held::HeldFrames;
use crate::mode::Mode;
use crate::sizes::{BLOCK_BYTES, FRAME_BYTES, FRAMES, MAX_SIZE};
use gf::Refusal;
use sources::{FrameSource, Next};
use std::marker::Model;

// How many misses in a row end the lock of a new receiver.
const PATIENCE: usize = 3;

// The greatest patience.
const MAX_PATIENCE: usize = 16;

// Whether so many misses may end a lock.
fn check_patience(patience: usize) -> Result<(), Refusal>
    ensures { Answers (patience_complaints patience) (λ _. (1 ≤ patience) × (patience ≤ 16)) result }
{
    if !(1..=MAX_PATIENCE).contains(&patience) {
        return Err(Refusal::Patience);
    }
    Ok(())
}

// A receiver of super frames of one size.
#[derive(Drop)]
pub struct Receiver<S: FrameSource> {
    source: S,
    // The subchannel index.
    size: usize,
    mode: Mode,
    held: HeldFrames,
    misses: usize,
    patience: usize,
}

impl<S: FrameSource> Model for Receiver<S> {
    ghost use Rattle.std.specs.Prelude.{◌≡◌, ◌*◌, ◌<◌, ◌≤◌, length};
    ghost use Rattle.reception.specs.Receptions.{ReceiverOver};

    ghost Value = { ReceiverOver S };

    ghost view = { λ r. record {
      source = r.source;
      size = r.size;
      mode = r.mode;
      held = r.held.frames;
      misses = r.misses;
      patience = r.patience;
    } };

    ghost invariant = { λ r. (length r.held.frames ≤ 4) × (1 ≤ r.size → r.size ≤ 24 → r.held.frame_length ≡ 24 * r.size)
        × (r.misses < 16) × (1 ≤ r.patience) × (r.patience ≤ 16) };
}

impl<S: FrameSource> Receiver<S> {
    // Refuses a size that is not 1 to 24, and then a source whose frames have not 24 bytes times the size.
    pub fn check(size: usize, source: &S) -> Result<(), Refusal>
        ensures { result ≡ unless (receiver_complaints size (S.meaning source.now)) tt }
    {
        if !(1..=MAX_SIZE).contains(&size) {
            return Err(Refusal::Size);
        }
        if source.frame_length() != FRAME_BYTES * size {
            return Err(Refusal::FrameLength);
        }
        Ok(())
    }

    // A receiver that hunts. It is made in any case: where the check refuses, so does each pull.
    pub fn new(size: usize, source: S) -> Receiver<S>
        ensures made { reception S.meaning result ≡ new_receiver size (S.meaning source) }
        ensures source { result.source ≡ source }
    {
        // With a size above 24 no pull is answered, and no frame is held.
        let frame_length = if size <= MAX_SIZE {
            FRAME_BYTES * size
        } else {
            0
        };
        Receiver {
            source,
            size,
            mode: Mode::Hunting,
            held: HeldFrames::new(frame_length),
            misses: 0,
            patience: PATIENCE,
        }
    }

    // Whether a pull with this buffer is refused.
    fn check_pull(&self, buffer: &[u8]) -> Result<(), Refusal>
        ensures { Answers (pull_complaints (reception S.meaning self.now) buffer.now) (λ _. PullFits (reception S.meaning self.now) buffer.now) result }
    {
        if !(1..=MAX_SIZE).contains(&self.size) {
            return Err(Refusal::Size);
        }
        if buffer.len() != BLOCK_BYTES * self.size {
            return Err(Refusal::Buffer);
        }
        Receiver::check(self.size, &self.source)
    }

    // Takes the next frame. Where it ends a super frame that is delivered, the repaired block is written over the buffer, which has 120
    // bytes times the size; else the buffer stays as it is. Where no frame is taken, the source stays as it is, its lent bytes included.
    pub fn pull(&mut self, buffer: &mut [u8]) -> Result<Pulled, Refusal>
        ensures rule { Rule (reception S.meaning self.old) (pulled buffer.old result buffer.new) (reception S.meaning self.new) }
        ensures same { SameUnlessTaken self.old.source self.new.source result }
        ensures reads { S.memory self.new.source ≡ S.memory self.old.source }
    {
        self.check_pull(buffer)?;
        let Next::Frame = self.held.take_next(&mut self.source)? else {
            return Ok(Pulled::NothingWaiting);
        };
        match (self.mode, self.held.count()) {
            (_, held) if held < FRAMES => Ok(Pulled::Held),
            (Mode::Hunting, _) => match deliver_clean_block(self.size, self.held.bytes(), buffer) {
                Some(delivery) => {
                    self.mode = Mode::Locked;
                    self.misses = 0;
                    self.held.clear();
                    Ok(Pulled::Delivered(delivery))
                }
                None => {
                    self.held.drop_oldest();
                    Ok(Pulled::Held)
                }
            },
            (Mode::Locked, _) => match deliver_block(self.size, self.held.bytes(), buffer) {
                Ok(delivery) => {
                    self.misses = 0;
                    self.held.clear();
                    Ok(Pulled::Delivered(delivery))
                }
                Err(refusal) => {
                    self.misses += 1;
                    if self.misses < self.patience {
                        self.held.clear();
                    } else {
                        self.mode = Mode::Hunting;
                        self.misses = 0;
                        self.held.drop_oldest();
                    }
                    Ok(Pulled::Missed(refusal))
                }
            },
        }
    }

    // Puts a frame into the source, or leaves it as it is, its lent bytes included.
    pub fn offer(&mut self, frame: &[u8]) -> Result<(), Refusal>
        ensures rule { Rule (reception S.meaning self.old) (offered frame.now result) (reception S.meaning self.new) }
        ensures same { SameUnlessTakenIn self.old.source self.new.source result }
        ensures writes { OnOk result (WritesOnlyFrame frame.now (S.memory self.old.source) (S.memory self.new.source)) }
    {
        self.source.offer(frame)
    }

    // Lets the frames held go, forgets the misses, and hunts.
    pub fn reset(&mut self)
        ensures rule { Rule (reception S.meaning self.old) restarted (reception S.meaning self.new) }
        ensures source { self.new.source ≡ self.old.source }
    {
        self.held.clear();
        self.misses = 0;
        self.mode = Mode::Hunting;
    }

    // From now on so many misses in a row end a lock: 1 to 16.
    pub fn patience(&mut self, patience: usize) -> Result<(), Refusal>
        ensures rule { Rule (reception S.meaning self.old) (patience_set patience result) (reception S.meaning self.new) }
        ensures source { self.new.source ≡ self.old.source }
    {
        check_patience(patience)?;
        self.patience = patience;
        Ok(())
    }

    // Where the receiver stands.
    pub fn report(&self) -> Report
        ensures { Rule (reception S.meaning self.now) (reported result) (reception S.meaning self.now) }
    {
        Report {
            mode: self.mode,
            held: self.held.count(),
            misses: self.misses,
            patience: self.patience,
        }
    }

    // Gives the source back.
    pub fn end(self) -> S
        ensures { result ≡ self.source }
    {
        let Receiver { source, .. } = self;
        source
    }
}
