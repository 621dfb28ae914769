// Fields so small that every word of a short code over them can be tried.
ghost use Rattle.std.specs.Prelude.{◌<◌};

use crate::modulo13::Modulo13;
use gf::{Field, Gf16};

pub trait SmallField: Field {
    // How many elements there are.
    fn order() -> usize
        ensures { 0 < result };

    // The element of that number. It is not stored as the number itself, and where a correction changes nothing it must stay so.
    fn numbered(number: usize) -> Self;

    // The byte that the symbol is stored as. What it leaves when divided by the order is the number of the element.
    fn byte(self) -> u8;
}

impl SmallField for Gf16 {
    fn order() -> usize {
        16
    }

    fn numbered(number: usize) -> Gf16 {
        Gf16((number % 16) as u8 + 80)
    }

    fn byte(self) -> u8 {
        self.0
    }
}

impl SmallField for Modulo13 {
    fn order() -> usize {
        13
    }

    fn numbered(number: usize) -> Modulo13 {
        Modulo13((number % 13) as u8 + 234)
    }

    fn byte(self) -> u8 {
        self.0
    }
}
