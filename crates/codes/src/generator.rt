// The generator of the check code: the product of all x - root^i for i below the number of checks.
ghost use Rattle.std.specs.Prelude.{◌≡◌, ◌+◌, ◌-◌, ◌<◌, ◌≤◌, map, length};
ghost use Rattle.codes.specs.Codewords.{generator};
ghost use Rattle.codes.specs.steps.Elimination.{entries};
ghost use Rattle.codes.specs.steps.Filling.{Holds};

use crate::division::clear;
use gf::Field;

// Multiplies the polynomial of that degree, in the first places, by x less that power of the root: each coefficient loses the product
// of the one before with the power. Behind the next generator's places there are zeros, which stay.
fn take_factor<F: Field>(polynomial: &mut [F], degree: usize)
    requires sizes { (degree + 1 < length polynomial.old) × (degree < 16) }
    requires before { Holds F.field (generator F.field degree) (entries F.field F.mean polynomial.old) }
    ensures { Holds F.field (generator F.field (degree + 1)) (entries F.field F.mean polynomial.new) }
{
    let mut before = F::zero();
    for coefficient in polynomial[..degree + 2].iter_mut() {
        let product = before.times_root_power(degree);
        before = *coefficient;
        *coefficient = coefficient.add(product.neg());
    }
}

// Writes the generator, of one degree less than there are places.
pub(crate) fn write_generator<F: Field>(polynomial: &mut [F])
    requires { (0 < length polynomial.old) × (length polynomial.old ≤ 17) }
    ensures { map F.mean polynomial.new ≡ generator F.field (length polynomial.old - 1) }
{
    clear(polynomial);
    polynomial[0] = F::one();
    for degree in 0..polynomial.len() - 1 {
        take_factor(polynomial, degree);
    }
}
