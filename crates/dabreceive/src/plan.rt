// Which calls are made, one after the other.
ghost use Rattle.std.specs.Prelude.{◌≡◌, ◌+◌, ◌*◌, ◌++◌, min, map, length, IfOk};
ghost use Rattle.sources.specs.Frames.{whole_frames};
ghost use Rattle.dabreceive.specs.Lines.{calls_to_come};
ghost use Rattle.dabreceive.specs.Plans.{question, pull, first_questions, replay_questions, script_questions};

use crate::lines::ScriptLines;
use crate::script::Command;
use programs::SubchannelIndex;
use reception::Call;
use std::alloc::{AllocError, Global};

// Bytes of the buffer for pulls: one more than a block has. A longer buffer is refused whatever its length, so it stands for them all.
pub fn buffer_length(size: SubchannelIndex) -> usize
    ensures { result ≡ 120 * size + 1 }
{
    size.block_length() + 1
}

// A pull with a buffer for a block.
fn pull_block(size: SubchannelIndex) -> Call<'static>
    ensures { question result ≡ pull (120 * size) }
{
    Call::Pull {
        length: size.block_length(),
    }
}

// A pull with a buffer of so many bytes.
fn pull_into(size: SubchannelIndex, length: usize) -> Call<'static>
    ensures { question result ≡ pull (min length (120 * size + 1)) }
{
    Call::Pull {
        length: length.min(buffer_length(size)),
    }
}

// The call that sets the patience, where it is given.
fn patience_first<'b>(alloc: Global, patience: Option<usize>) -> Result<Vec<Call<'b>>, AllocError>
    ensures { IfOk result (λ calls. map question calls.items ≡ first_questions patience) }
{
    let mut calls = Vec::new(alloc);
    if let Some(patience) = patience {
        calls.push(Call::Patience(patience))?;
    }
    Ok(calls)
}

// Sets the patience where it is given, and then hands in each frame of the recording and takes it.
pub fn replay_calls<'b>(
    alloc: Global,
    size: SubchannelIndex,
    patience: Option<usize>,
    recording: &'b [u8],
) -> Result<Vec<Call<'b>>, AllocError>
    ensures { IfOk result (λ calls. map question calls.items ≡ first_questions patience ++ replay_questions size recording.now) }
{
    let mut calls = patience_first(alloc, patience)?;
    for frame in recording.chunks_exact(size.frame_length()) {
        calls.push(Call::Offer(frame))?;
        calls.push(pull_block(size))?;
    }
    Ok(calls)
}

// The calls of a script.
#[derive(Drop)]
struct ScriptCalls<'s> {
    size: SubchannelIndex,
    calls: Vec<Call<'s>>,
    // The bytes behind the frames of the recording that are offered.
    rest: &'s [u8],
}

impl<'s> ScriptCalls<'s> {
    ghost use Rattle.std.specs.Prelude.{◌<◌, ◌⊎◌, [], take, drop, true};
    ghost use Rattle.dabreceive.specs.Plans.{offer, line_questions, left_behind, frames_left, Adds};

    // Offers the next frame of the recording; false where none is left.
    fn offer_next(&mut self) -> Result<bool, AllocError>
        requires { 0 < self.old.size }
        ensures adds { IfOk result (λ _. Adds self.old (map offer (take 1 (frames_left self.old))) (drop 1 (frames_left self.old)) self.new) }
        ensures ends { IfOk result (λ more. (more ≡ true) ⊎ (frames_left self.old ≡ [])) }
    {
        match self.rest.split_at_checked(self.size.frame_length()) {
            Some((frame, rest)) => {
                self.calls.push(Call::Offer(frame))?;
                self.rest = rest;
                Ok(true)
            }
            None => Ok(false),
        }
    }

    // Offers the next so many frames of the recording, or all that are left.
    fn offer_frames(&mut self, count: usize) -> Result<(), AllocError>
        requires { 0 < self.old.size }
        ensures { IfOk result (λ _. Adds self.old (map offer (take count (frames_left self.old))) (drop count (frames_left self.old)) self.new) }
    {
        for _ in 0..count {
            if !self.offer_next()? {
                return Ok(());
            }
        }
        Ok(())
    }

    // Adds the calls that a line asks for.
    fn add(&mut self, command: &'s Command) -> Result<(), AllocError>
        requires { 0 < self.old.size }
        ensures { IfOk result (λ _. Adds self.old (line_questions self.old.size command.now (frames_left self.old))
            (left_behind command.now (frames_left self.old)) self.new) }
    {
        let call = match command {
            Command::OfferFrames(count) => return self.offer_frames(*count),
            Command::Pull => pull_block(self.size),
            Command::PullInto(length) => pull_into(self.size, *length),
            Command::OfferBytes(bytes) => Call::Offer(bytes),
            Command::Reset => Call::Reset,
            Command::Patience(patience) => Call::Patience(*patience),
            Command::Report => Call::Report,
        };
        self.calls.push(call)?;
        Ok(())
    }
}

// The calls of a script, and which of them answer each of its lines.
#[derive(Drop)]
pub struct Plan<'s> {
    pub calls: Vec<Call<'s>>,
    pub lines: ScriptLines<'s>,
}

// Sets the patience where it is given, and then makes the calls of a script. Its lines offer frames of the recording.
pub fn script_plan<'s>(
    alloc: Global,
    size: SubchannelIndex,
    patience: Option<usize>,
    commands: &'s [Command],
    recording: &'s [u8],
) -> Result<Plan<'s>, AllocError>
    ensures asks { IfOk result (λ plan. map question plan.calls.items
        ≡ first_questions patience ++ script_questions size commands.now (whole_frames (24 * size) recording.now)) }
    ensures answered { IfOk result (λ plan. calls_to_come plan.lines ≡ length plan.calls.items) }
{
    let mut script = ScriptCalls {
        size,
        calls: patience_first(alloc, patience)?,
        rest: recording,
    };
    let mut lines = ScriptLines::new(alloc, script.calls.len());
    for command in commands {
        let before = script.calls.len();
        script.add(command)?;
        lines.add(command, script.calls.len().saturating_sub(before))?;
    }
    Ok(Plan {
        calls: script.calls,
        lines,
    })
}
