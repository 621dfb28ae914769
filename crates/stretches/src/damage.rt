// A recording in which the beginning of a super frame is lost, and those behind it come with wrong bytes.
ghost use Rattle.std.specs.Prelude.{◌≤◌};

use std::alloc::{AllocError, Global};

// What befalls a recording.
#[derive(Clone, Copy)]
pub struct Damage {
    // How many frames are left of the second super frame, whose beginning is lost.
    pub strays: usize,
    // How many bytes are wrong in each row of the super frames behind it: at most five.
    pub wrong: usize,
}

// Spoils so many bytes of each row.
fn spoil(block: &mut [u8], size: usize, wrong: usize)
    requires { 1 ≤ size }
{
    for (place, byte) in block.iter_mut().enumerate() {
        let row = place % size;
        let column = place / size;
        // Every 24th byte of a row, a byte later in each row.
        if column % 24 == row && column / 24 < wrong {
            *byte ^= 0x55;
        }
    }
}

// The frames of a recording that a receiver gets: the first super frame, the last frames of the second, and the spoiled ones behind.
pub(crate) fn damaged(
    alloc: Global,
    size: usize,
    damage: Damage,
    recording: &[u8],
) -> Result<Vec<u8>, AllocError>
    requires { (1 ≤ size) × (size ≤ 24) }
{
    let block = 120 * size;
    let mut frames = Vec::new(alloc);
    let mut super_frames = recording.chunks(block);
    if let Some(whole) = super_frames.next() {
        frames.extend_from_slice(whole)?;
    }
    if let Some(broken) = super_frames.next() {
        for frame in broken
            .chunks(24 * size)
            .skip(5_usize.saturating_sub(damage.strays))
        {
            frames.extend_from_slice(frame)?;
        }
    }
    for super_frame in super_frames {
        let start = frames.len();
        frames.extend_from_slice(super_frame)?;
        spoil(&mut frames[start..], size, damage.wrong);
    }
    Ok(frames)
}
