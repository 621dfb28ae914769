// The field of 256 elements, by tables.
ghost use Rattle.gf.specs.Bits.{bits};
ghost use Rattle.gf.specs.Fields.{low256};
ghost use Rattle.gf.specs.laws.FieldLaws.{laws256, tables256, sound256};

use super::binary::BinaryField;
use super::products::ROOT_PRODUCTS_256;
use super::tabled::{StoredTables, TabledField};
use super::tables::{EXPONENTS_256, INVERSES_256, POWERS_256};

// A symbol whose eight bits are the element. It lies in memory as its byte, so that C can lend rows of bytes.
#[derive(Clone, Copy)]
#[repr(C)]
pub struct Gf256(pub u8);

impl BinaryField for Gf256 {
    ghost modulus = { record { degree = 8; low = low256; last = 254 } };

    ghost mean = { λ s. bits 8 s.0 };

    ghost laws = { laws256 };

    fn from_byte(byte: u8) -> Gf256 {
        Gf256(byte)
    }

    fn byte(self) -> u8 {
        self.0
    }

    fn order() -> usize {
        256
    }

    fn root() -> Gf256 {
        Gf256(2)
    }

    fn root_product(self, exponent: usize) -> Gf256 {
        Gf256(ROOT_PRODUCTS_256[exponent % 16][self.element()])
    }
}

#[tactic(auto, unfolding(crate::specs::laws::FieldLaws::tables256))]
impl TabledField for Gf256 {
    ghost tables = { tables256 };

    ghost sound = { sound256 };

    fn tables() -> StoredTables {
        StoredTables {
            powers: &POWERS_256,
            exponents: &EXPONENTS_256,
            inverses: &INVERSES_256,
        }
    }
}
