// Handing frames to a receiver one by one, and taking one behind each.
ghost use Rattle.std.specs.Prelude.{◌≡◌, ◌+◌, ◌-◌, ◌*◌, ◌/◌, ◌≤◌, length, map};
ghost use Rattle.std.specs.List.{range_with_len};
ghost use Rattle.sources.specs.Frames.{frame_at};
ghost use Rattle.reception.specs.Receptions.{reception};
ghost use Rattle.stretches.specs.steps.Feeding.{Fed};

use crate::stretch::FRAME_BYTES;
use crate::witness::Witness;
use reception::{Call, Receiver};
use sources::FrameSource;

// The frame `place` of a recording.
fn frame_of(size: usize, recording: &[u8], place: usize) -> &[u8]
    requires size { (1 ≤ size) × (size ≤ 24) }
    requires there { place + 1 ≤ length recording.now / (24 * size) }
    ensures { result.now ≡ frame_at (24 * size) recording.now place }
{
    let start = place * (FRAME_BYTES * size);
    &recording[start..start + FRAME_BYTES * size]
}

// Hands the frames from `first` on and before `end` to a receiver. Each is offered, and then one is taken.
pub(crate) fn feed<S: FrameSource>(
    receiver: &mut Receiver<S>,
    size: usize,
    recording: &[u8],
    first: usize,
    end: usize,
    buffer: &mut [u8],
    witness: &mut Witness,
)
    requires size { (1 ≤ size) × (size ≤ 24) }
    requires there { (first ≤ end) × (end ≤ length recording.now / (24 * size)) }
    ensures { Fed (reception S.meaning receiver.old) (map (frame_at (24 * size) recording.now) (range_with_len first (end - first))) witness.old
        (reception S.meaning receiver.new) witness.new }
{
    let length = buffer.len();
    for place in first..end {
        let frame = frame_of(size, recording, place);
        receiver.run(
            &[Call::Offer(frame), Call::Pull { length }],
            buffer,
            witness,
        );
    }
}
