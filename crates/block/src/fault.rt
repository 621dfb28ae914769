// What can be wrong with a header.
ghost use Rattle.std.specs.Prelude.{◌≡◌};
ghost use Rattle.block.specs.Layouts.{refused};

use gf::Refusal;

#[derive(Clone, Copy, PartialEq, Eq, Debug)]
pub enum HeaderFault {
    // The Fire word differs.
    Fire,
    // The reserved bit is 1, or ps goes without sbr or with stereo.
    Parameters,
    // The four bits at the header's end are not zero.
    Alignment { last_byte: u8 },
    // A start is less than three bytes after the one before.
    Starts { number: u8 },
}

impl From<HeaderFault> for Refusal {
    ghost from_gives = { λ fault refusal. refusal ≡ refused fault };

    fn from(fault: HeaderFault) -> Refusal {
        match fault {
            HeaderFault::Fire => Refusal::Fire,
            HeaderFault::Parameters => Refusal::Parameters,
            HeaderFault::Alignment { last_byte } => Refusal::Alignment { last_byte },
            HeaderFault::Starts { number } => Refusal::Starts { number },
        }
    }
}
