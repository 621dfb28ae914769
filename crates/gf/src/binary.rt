// What the fields of rows of bits share: a symbol is a byte, and its lowest bits are the element.
ghost use Rattle.std.specs.Prelude.{◌≡◌, ℕ, ◌+◌, ◌^◌, ◌%◌, ◌<◌};
ghost use Rattle.gf.specs.Theory.{Laws, pow};
ghost use Rattle.gf.specs.Bits.{Bits, bits};
ghost use Rattle.gf.specs.Fields.{Modulus, residues};

use super::field::Field;

// A field of residues modulo a polynomial over the field of 2 elements.
// Each field repeats the frame of from_byte, byte, order, root and tables: an impl that a macro of the repository writes is refused.
pub trait BinaryField: Copy {
    ghost modulus: { Modulus };

    // The element that a stored symbol means.
    ghost mean: { Self → Bits modulus.degree };

    // Methods, and not From and Into: what these answer is a relation, and each field would have to prove laws of it.
    fn from_byte(byte: u8) -> Self
        ensures { mean result ≡ bits modulus.degree byte };

    fn byte(self) -> u8
        ensures { bits modulus.degree result ≡ mean self };

    // How many elements there are: zero, and the powers of the root.
    fn order() -> usize
        ensures rows { result ≡ 2 ^ modulus.degree }
        ensures powers { result ≡ modulus.last + 2 };

    fn root() -> Self
        ensures { mean result ≡ (residues modulus).root };

    // The product with a power of the root below the sixteenth: the exponent counts modulo 16.
    fn root_product(self, exponent: usize) -> Self
        ensures { mean result ≡ (residues modulus).mul (mean self) (pow (residues modulus) (residues modulus).root (exponent % 16)) };

    // The element as a number: the lowest bits of the symbol.
    fn element(self) -> usize
        ensures value { bits modulus.degree result ≡ mean self }
        ensures below { result < 2 ^ modulus.degree }
    {
        self.byte() as usize % Self::order()
    }

    ghost laws: { Laws (residues modulus) };
}

// How a binary field multiplies.
pub trait BinaryProduct: BinaryField {
    fn product(self, other: Self) -> Self
        ensures { Self.mean result ≡ (residues Self.modulus).mul (Self.mean self) (Self.mean other) };

    // The inverse, and zero for zero.
    fn inverse(self) -> Self
        ensures { Self.mean result ≡ (residues Self.modulus).inv (Self.mean self) };
}

// root, mul, inv and times_root_power pass on to the field's own: one impl for all fields cannot be written in part.
impl<B: BinaryProduct> Field for B {
    ghost Element = { Bits B.modulus.degree };

    ghost field = { residues B.modulus };

    ghost mean = { B.mean };

    ghost laws = { B.laws };

    fn zero() -> B {
        B::from_byte(0)
    }

    fn one() -> B {
        B::from_byte(1)
    }

    fn root() -> B {
        BinaryField::root()
    }

    fn reach() -> usize {
        B::order() - 1
    }

    fn add(self, other: B) -> B {
        B::from_byte(self.byte() ^ other.byte())
    }

    fn neg(self) -> B {
        self
    }

    fn mul(self, other: B) -> B {
        self.product(other)
    }

    fn inv(self) -> B {
        self.inverse()
    }

    fn same(self, other: B) -> bool {
        self.element() == other.element()
    }

    fn times_root_power(self, exponent: usize) -> B {
        self.root_product(exponent)
    }
}
