// The field of 2 elements.
ghost use Rattle.gf.specs.Bits.{bits};
ghost use Rattle.gf.specs.Fields.{low2};
ghost use Rattle.gf.specs.laws.FieldLaws.{laws2};

use super::binary::{BinaryField, BinaryProduct};

// A symbol whose lowest bit is the element.
#[derive(Clone, Copy)]
pub struct Gf2(pub u8);

impl BinaryField for Gf2 {
    ghost modulus = { record { degree = 1; low = low2; last = 0 } };

    ghost mean = { λ s. bits 1 s.0 };

    ghost laws = { laws2 };

    fn from_byte(byte: u8) -> Gf2 {
        Gf2(byte)
    }

    fn byte(self) -> u8 {
        self.0
    }

    fn order() -> usize {
        2
    }

    fn root() -> Gf2 {
        Gf2(1)
    }

    fn root_product(self, _exponent: usize) -> Gf2 {
        self
    }
}

impl BinaryProduct for Gf2 {
    fn product(self, other: Gf2) -> Gf2 {
        Gf2(self.0 & other.0)
    }

    fn inverse(self) -> Gf2 {
        self
    }
}
