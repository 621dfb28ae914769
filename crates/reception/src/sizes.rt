// How long frames and blocks are.

// The largest subchannel index.
pub(crate) const MAX_SIZE: usize = 24;

// Bytes of a logical frame and of a block for each step of the subchannel index.
pub(crate) const FRAME_BYTES: usize = 24;

pub(crate) const BLOCK_BYTES: usize = 120;

// Bytes of the longest block.
pub(crate) const MAX_BLOCK_BYTES: usize = BLOCK_BYTES * MAX_SIZE;

// Frames in a block.
pub(crate) const FRAMES: usize = 5;
