// Whether a receiver knows where super frames begin.

#[derive(Clone, Copy, PartialEq, Eq, Debug)]
pub enum Mode {
    // It looks for the boundary, frame by frame.
    Hunting,
    // It has found it, and reads every fifth frame on.
    Locked,
}
