// The frames that a receiver holds.
ghost use Rattle.std.specs.Prelude.{◌≡◌, ◌*◌, ◌<◌, ◌≤◌, [], length, drop};
ghost use Rattle.std.specs.List.{concat};
ghost use Rattle.sources.specs.Sources.{SameUnlessFound};
ghost use Rattle.reception.specs.steps.Holding.{TakesIn};

use crate::sizes::{FRAMES, MAX_BLOCK_BYTES};
use gf::Refusal;
use sources::{FrameSource, Next};
use std::marker::Model;

// At most five frames of one length, the oldest first. They stand one behind another.
#[derive(Drop, Debug)]
pub(crate) struct HeldFrames {
    frame_length: usize,
    count: usize,
    bytes: [u8; MAX_BLOCK_BYTES],
}

// Clauses see the frame length and the list of frames.
impl Model for HeldFrames {
    ghost use Rattle.std.specs.Prelude.{◌≤◌};
    ghost use Rattle.reception.specs.steps.Holding.{Holding, holding};

    ghost Value = { Holding };

    ghost view = { λ held. holding held.frame_length held.count held.bytes };

    ghost invariant = { λ held. (held.frame_length ≤ 576) × (held.count ≤ 5) };
}

impl HeldFrames {
    // None yet.
    pub(crate) fn new(frame_length: usize) -> HeldFrames
        requires { frame_length ≤ 576 }
        ensures { result ≡ record { frame_length = frame_length; frames = [] } }
    {
        HeldFrames {
            frame_length,
            count: 0,
            bytes: [0; MAX_BLOCK_BYTES],
        }
    }

    pub(crate) fn count(&self) -> usize
        ensures { result ≡ length self.now.frames }
    {
        self.count
    }

    // The frames put together.
    pub(crate) fn bytes(&self) -> &[u8]
        ensures bytes { result.now ≡ concat self.now.frames }
        ensures length { length result.now ≡ length self.now.frames * self.now.frame_length }
    {
        &self.bytes[..self.count * self.frame_length]
    }

    // Takes the next frame of the source, and holds it behind the others.
    pub(crate) fn take_next<S: FrameSource>(&mut self, source: &mut S) -> Result<Next, Refusal>
        requires few { length self.old.frames < 5 }
        requires fits { (S.meaning source.old).frame_length ≡ self.old.frame_length }
        ensures taken { TakesIn (S.meaning source.old) self.old (S.meaning source.new) self.new result }
        ensures same { SameUnlessFound source.old source.new result }
        ensures reads { S.memory source.new ≡ S.memory source.old }
    {
        let start = self.count * self.frame_length;
        let place = &mut self.bytes[start..start + self.frame_length];
        let Next::Frame = source.next(place)? else {
            return Ok(Next::NothingWaiting);
        };
        self.count += 1;
        Ok(Next::Frame)
    }

    // Lets the oldest of five frames go.
    pub(crate) fn drop_oldest(&mut self)
        requires { length self.old.frames ≡ 5 }
        ensures { self.new ≡ record { frame_length = self.old.frame_length; frames = drop 1 self.old.frames } }
    {
        let end = FRAMES * self.frame_length;
        self.bytes.copy_within(self.frame_length..end, 0);
        self.count -= 1;
    }

    // Lets all of them go.
    pub(crate) fn clear(&mut self)
        ensures { self.new ≡ record { frame_length = self.old.frame_length; frames = [] } }
    {
        self.count = 0;
    }
}
