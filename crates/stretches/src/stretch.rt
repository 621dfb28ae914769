// Whether a recording is a stretch of good reception from one of its frames on.
ghost use Rattle.std.specs.Prelude.{◌≡◌, ◌+◌, ◌*◌, ◌/◌, ◌≤◌, ◌↔◌, length, IsTrue, IfOk, MatchOption};
ghost use Rattle.stretches.specs.Instances.{five_frames, BeginsAt, AsSent, IsStretch, count_from};

use crate::blocks::{is_carried, is_refused};
use gf::Refusal;

// Frames in a super frame.
pub(crate) const FRAMES: usize = 5;

// Bytes of a frame for each step of the subchannel index.
pub(crate) const FRAME_BYTES: usize = 24;

// Bytes of a block of the largest size.
const BLOCK_BYTES: usize = 2880;

// Five frames of a recording, from the frame `place` on.
fn five_from(size: usize, recording: &[u8], place: usize) -> &[u8]
    requires size { (1 ≤ size) × (size ≤ 24) }
    requires there { place + 5 ≤ length recording.now / (24 * size) }
    ensures five { result.now ≡ five_frames size recording.now place }
    ensures long { length result.now ≡ 120 * size }
{
    let start = place * (FRAME_BYTES * size);
    &recording[start..start + FRAMES * FRAME_BYTES * size]
}

// Whether one of the super frames begins at `place` that stand one behind another from frame `start` on.
fn begins_at(start: usize, place: usize) -> bool
    ensures { IsTrue result ↔ BeginsAt start place }
{
    start <= place && (place - start) % FRAMES == 0
}

// Whether the five frames from `place` on carry a super frame with so many bytes wrong, where one begins there, and cannot be read elsewhere.
fn is_as_sent(
    size: usize,
    start: usize,
    wrong_bytes: usize,
    recording: &[u8],
    place: usize,
    work: &mut [u8],
) -> bool
    requires size { (1 ≤ size) × (size ≤ 24) }
    requires there { place + 5 ≤ length recording.now / (24 * size) }
    requires long { length work.old ≡ 120 * size }
    ensures { IsTrue result ↔ AsSent size start wrong_bytes recording.now place }
{
    let five = five_from(size, recording, place);
    if begins_at(start, place) {
        return is_carried(size, wrong_bytes, five, work);
    }
    place + FRAMES <= start || is_refused(size, five, work)
}

// Whether this is so at every place.
fn are_as_sent(
    size: usize,
    start: usize,
    wrong_bytes: usize,
    recording: &[u8],
    work: &mut [u8],
) -> bool
    requires size { (1 ≤ size) × (size ≤ 24) }
    requires long { length work.old ≡ 120 * size }
    ensures { IsTrue result ↔ IsStretch size start wrong_bytes recording.now }
{
    let frames = recording.len() / (FRAME_BYTES * size);
    for place in 0..frames.saturating_sub(FRAMES - 1) {
        if !is_as_sent(size, start, wrong_bytes, recording, place, work) {
            return false;
        }
    }
    true
}

// How many super frames stand in the recording from frame `start` on, if it has nothing else from there, each of them with so many bytes
// wrong, and if no other five frames can be read that reach behind `start`. The size is a subchannel index of 1 to 24, or is refused.
pub fn find_stretch(
    size: usize,
    start: usize,
    wrong_bytes: usize,
    recording: &[u8],
) -> Result<Option<usize>, Refusal>
    ensures { IfOk result (λ found. MatchOption found (IsStretch size start wrong_bytes recording.now → ⊥)
        (λ count. (count ≡ count_from size start recording.now) × ((1 ≤ size) × (size ≤ 24)) × IsStretch size start wrong_bytes recording.now)) }
{
    if !(1..=24).contains(&size) {
        return Err(Refusal::Size);
    }
    let mut work = [0; BLOCK_BYTES];
    let work = &mut work[..FRAMES * FRAME_BYTES * size];
    if !are_as_sent(size, start, wrong_bytes, recording, work) {
        return Ok(None);
    }
    let frames = recording.len() / (FRAME_BYTES * size);
    Ok(Some(frames.saturating_sub(start) / FRAMES))
}
