// Runs in which super frames are lost: the receiver is locked to a boundary that is none when good reception begins.
ghost use Rattle.std.specs.Prelude.{◌≡◌, ◌-◌, ◌*◌, ◌/◌, ◌≤◌, ◌↔◌, length, IsTrue, IfOk, IfSome};
ghost use Rattle.stretches.specs.Losses.{LosesAndIsBack};
ghost use Rattle.stretches.specs.steps.Feeding.{Passed, IsBack};

use crate::failure::Failure;
use crate::feeding::feed;
use crate::stretch::find_stretch;
use crate::witness::Witness;
use reception::{Mode, Receiver, Report};
use sources::FrameQueue;
use std::alloc::Global;
use std::fmt;

// What came of handing a recording to a receiver: before the cut, at it, and behind it.
#[derive(Clone, Copy)]
struct Passage {
    before: Witness,
    cut: Report,
    behind: Witness,
}

// Hands a recording to a new receiver with this patience. It has an empty queue, and the run is cut before frame `start`.
fn pass(
    alloc: Global,
    size: usize,
    patience: usize,
    start: usize,
    recording: &[u8],
) -> Result<Passage, Failure>
    requires size { (1 ≤ size) × (size ≤ 24) }
    requires there { start ≤ length recording.now / (24 * size) }
    ensures { IfOk result (λ passage. Passed size patience start recording.now passage) }
{
    let mut places = vec![in alloc; 0u8; 768 * size]?;
    let mut buffer = vec![in alloc; 0u8; 120 * size]?;
    let queue = FrameQueue::new(size, &mut places);
    let mut receiver = Receiver::new(size, queue);
    receiver.patience(patience)?;
    let mut before = Witness::new();
    feed(
        &mut receiver,
        size,
        recording,
        0,
        start,
        &mut buffer,
        &mut before,
    );
    let cut = receiver.report();
    let mut behind = Witness::new();
    let frames = recording.len() / (24 * size);
    feed(
        &mut receiver,
        size,
        recording,
        start,
        frames,
        &mut buffer,
        &mut behind,
    );
    Ok(Passage {
        before,
        cut,
        behind,
    })
}

// Whether the receiver was locked amid five frames at the cut, and so many super frames were delivered then.
fn is_back(passage: &Passage, deliveries: usize) -> bool
    ensures { IsTrue result ↔ IsBack passage.now deliveries }
{
    let Passage {
        before,
        cut,
        behind,
    } = passage;
    before.smooth
        && cut.mode == Mode::Locked
        && cut.held > 0
        && behind.smooth
        && behind.deliveries == deliveries
        && behind.deliveries < usize::MAX
}

// How many super frames were sent, and how many of them were lost.
#[derive(Clone, Copy)]
pub struct Losses {
    super_frames: usize,
    lost: usize,
}

// Tries a recording that is a stretch from frame `start` on, each super frame with so many bytes wrong. None comes of it where it is no
// stretch, or where the receiver is not locked elsewhere, or does not lose as many super frames as the law allows.
pub fn try_losses(
    alloc: Global,
    size: usize,
    patience: usize,
    start: usize,
    wrong_bytes: usize,
    recording: &[u8],
) -> Result<Option<Losses>, Failure>
    ensures { IfOk result (λ tried. IfSome tried (λ losses. (losses.lost ≡ patience - 1) × LosesAndIsBack size patience start wrong_bytes losses.super_frames recording.now)) }
{
    let Some(super_frames) = find_stretch(size, start, wrong_bytes, recording)? else {
        return Ok(None);
    };
    let lost = patience.saturating_sub(1);
    if start > recording.len() / (24 * size) || lost > super_frames {
        return Ok(None);
    }
    let passage = pass(alloc, size, patience, start, recording)?;
    if !is_back(&passage, super_frames - lost) {
        return Ok(None);
    }
    Ok(Some(Losses { super_frames, lost }))
}

impl fmt::Display for Losses {
    fn fmt<W: fmt::Write>(&self, f: &mut fmt::Formatter<W>) -> fmt::Result {
        let Losses { super_frames, lost } = *self;
        write!(
            f,
            "{super_frames} super frames, {lost} lost, all others delivered as written"
        )
    }
}
