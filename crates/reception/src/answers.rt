// What the calls of a receiver answer.
use crate::mode::Mode;
use block::{Header, Repair};
use gf::Refusal;

// What the check of a unit says.
#[derive(Clone, Copy, PartialEq, Eq, Debug)]
pub enum UnitState {
    Good,
    Bad,
}

// What comes with a super frame.
#[derive(Clone, Copy, PartialEq, Eq, Debug)]
pub struct Delivery {
    // Its parameters, and where its units start.
    pub header: Header,
    // What correcting its rows did.
    pub repair: Repair,
    // What the check of each unit says, and `None` behind the last.
    pub units: [Option<UnitState>; 6],
}

// What a pull that is not refused answers.
#[derive(Clone, Copy, PartialEq, Eq, Debug)]
pub enum Pulled {
    // No frame waits.
    NothingWaiting,
    // A frame was taken, and nothing is known of it yet.
    Held,
    // A frame was taken and ends a block whose header is refused.
    Missed(Refusal),
    // A frame was taken and ends a super frame, which is in the buffer now.
    Delivered(Delivery),
}

// Where a receiver stands.
#[derive(Clone, Copy, PartialEq, Eq, Debug)]
pub struct Report {
    pub mode: Mode,
    // Frames held.
    pub held: usize,
    // Blocks missed in a row.
    pub misses: usize,
    // How many of them end a lock.
    pub patience: usize,
}
