// Binary fields that multiply by tables.
ghost use Rattle.std.specs.Prelude.{◌≡◌, ◌+◌, ◌*◌, ◌^◌, length};
ghost use Rattle.gf.specs.laws.Computed.{Tables, Sound};

use super::binary::{BinaryField, BinaryProduct};

// The tables as they are stored.
#[derive(Clone, Copy)]
pub struct StoredTables {
    // The powers of the root, twice around, and then zeros.
    pub powers: &'static [u8],
    // The exponent of each element, and at 0 the place of the first zero in the powers.
    pub exponents: &'static [u16],
    // The inverses, and 0 at 0.
    pub inverses: &'static [u8],
}

pub trait TabledField: BinaryField {
    ghost tables: { Tables };

    fn tables() -> StoredTables
        ensures powers { result.powers.now ≡ tables.exps }
        ensures exponents { result.exponents.now ≡ tables.logs }
        ensures inverses { result.inverses.now ≡ tables.invs }
        ensures twice_and_zeros { length result.powers.now ≡ 4 * Self.modulus.last + 5 }
        ensures one_exponent_each { length result.exponents.now ≡ 2 ^ Self.modulus.degree }
        ensures one_inverse_each { length result.inverses.now ≡ 2 ^ Self.modulus.degree };

    ghost sound: { Sound Self.modulus.degree Self.modulus.low Self.modulus.last tables };
}

impl<T: TabledField> BinaryProduct for T {
    fn product(self, other: T) -> T {
        let tables = T::tables();
        let a = tables.exponents[self.element()] as usize;
        let b = tables.exponents[other.element()] as usize;
        T::from_byte(tables.powers[a + b])
    }

    fn inverse(self) -> T {
        T::from_byte(T::tables().inverses[self.element()])
    }
}
