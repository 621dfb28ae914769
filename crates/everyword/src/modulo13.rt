// The integers modulo 13: a field that is none of the library's, where a negative is another element.
ghost use Rattle.everyword.specs.Modulo13.{Residue, residue, modulo13};
ghost use Rattle.everyword.specs.laws.Modulo13Laws.{laws13};

use gf::Field;

const MODULUS: u8 = 13;

// Every byte is a symbol, and means its remainder. So no result need be reduced: the largest product, 12 times 12, is a byte.
#[derive(Clone, Copy)]
pub struct Modulo13(pub u8);

// The products with powers of the root are the trait's own.
impl Field for Modulo13 {
    ghost Element = { Residue };

    ghost field = { modulo13 };

    ghost mean = { λ s. residue s.0 };

    ghost laws = { laws13 };

    fn zero() -> Modulo13 {
        Modulo13(0)
    }

    fn one() -> Modulo13 {
        Modulo13(1)
    }

    fn root() -> Modulo13 {
        Modulo13(2)
    }

    fn reach() -> usize {
        12
    }

    fn add(self, other: Modulo13) -> Modulo13 {
        Modulo13(self.0 % MODULUS + other.0 % MODULUS)
    }

    fn neg(self) -> Modulo13 {
        Modulo13(MODULUS - self.0 % MODULUS)
    }

    fn mul(self, other: Modulo13) -> Modulo13 {
        Modulo13((self.0 % MODULUS) * (other.0 % MODULUS))
    }

    fn inv(self) -> Modulo13 {
        let mut power = Modulo13(1);
        for _ in 0..11u8 {
            power = self.mul(power);
        }
        power
    }

    fn same(self, other: Modulo13) -> bool {
        self.0 % MODULUS == other.0 % MODULUS
    }
}
