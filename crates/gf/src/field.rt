// A field: elements with their operations and laws, and stored symbols that mean them.
ghost use Rattle.std.specs.Prelude.{◌≡◌, ◌%◌};
ghost use Rattle.gf.specs.Theory.{Operations, Laws, pow};

pub trait Field: Copy {
    // What symbols mean. Several symbols may mean one element.
    ghost Element: { Type 0 };

    // The operations on elements.
    ghost field: { Operations Element };

    // The element that a stored symbol means.
    ghost mean: { Self → Element };

    fn zero() -> Self
        ensures { mean result ≡ field.zero };

    fn one() -> Self
        ensures { mean result ≡ field.one };

    fn root() -> Self
        ensures { mean result ≡ field.root };

    // How many powers of the root, from the zeroth on, are known to be different.
    fn reach() -> usize
        ensures { result ≡ field.reach };

    fn add(self, other: Self) -> Self
        ensures { mean result ≡ field.add (mean self) (mean other) };

    fn neg(self) -> Self
        ensures { mean result ≡ field.neg (mean self) };

    fn mul(self, other: Self) -> Self
        ensures { mean result ≡ field.mul (mean self) (mean other) };

    // The inverse, and zero for zero.
    fn inv(self) -> Self
        ensures { mean result ≡ field.inv (mean self) };

    // Whether both symbols mean the same element. No PartialEq: two symbols stored otherwise may mean one element, and `==` would hide
    // that the test goes by elements.
    fn same(self, other: Self) -> bool
        ensures { result ≡ field.equal (mean self) (mean other) };

    // The product with a power of the root below the sixteenth: the exponent counts modulo 16. A field with tables has a body of its own.
    fn times_root_power(self, exponent: usize) -> Self
        ensures { mean result ≡ field.mul (mean self) (pow field field.root (exponent % 16)) }
    {
        let root = Self::root();
        let mut product = self;
        for _ in 0..exponent % 16 {
            product = product.mul(root);
        }
        product
    }

    // They keep all laws of a field.
    ghost laws: { Laws field };
}
