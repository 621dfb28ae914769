// The field of 16 elements, by tables.
ghost use Rattle.gf.specs.Bits.{bits};
ghost use Rattle.gf.specs.Fields.{low16};
ghost use Rattle.gf.specs.laws.FieldLaws.{laws16, tables16, sound16};

use super::binary::BinaryField;
use super::tabled::{StoredTables, TabledField};
use super::tables::{EXPONENTS_16, INVERSES_16, POWERS_16};

// A symbol whose lowest four bits are the element.
#[derive(Clone, Copy)]
pub struct Gf16(pub u8);

impl BinaryField for Gf16 {
    ghost modulus = { record { degree = 4; low = low16; last = 14 } };

    ghost mean = { λ s. bits 4 s.0 };

    ghost laws = { laws16 };

    fn from_byte(byte: u8) -> Gf16 {
        Gf16(byte)
    }

    fn byte(self) -> u8 {
        self.0
    }

    fn order() -> usize {
        16
    }

    fn root() -> Gf16 {
        Gf16(2)
    }

    fn root_product(self, exponent: usize) -> Gf16 {
        let a = EXPONENTS_16[self.element()] as usize;
        Gf16(POWERS_16[a + exponent % 16])
    }
}

#[tactic(auto, unfolding(crate::specs::laws::FieldLaws::tables16))]
impl TabledField for Gf16 {
    ghost tables = { tables16 };

    ghost sound = { sound16 };

    fn tables() -> StoredTables {
        StoredTables {
            powers: &POWERS_16,
            exponents: &EXPONENTS_16,
            inverses: &INVERSES_16,
        }
    }
}
