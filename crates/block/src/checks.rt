// The Fire word and the unit check: one division over bits, byte by byte.
ghost use Rattle.std.specs.Prelude.{◌≡◌, true, ◌++◌, replicate};
ghost use Rattle.gf.specs.Bits.{bits};
ghost use Rattle.gf.specs.Fields.{gf2};
ghost use Rattle.codes.specs.Polynomials.{zeros, over};
ghost use Rattle.codes.specs.Division.{admitted, remainder_of};
ghost use Rattle.block.specs.Checks.{byte_bits, binary, covered, fire_word, unit_check, meanings};

use codes::continue_remainder;
use gf::{Field, Gf2};

const ZERO: Gf2 = Gf2(0);

const ONE: Gf2 = Gf2(1);

// A check over bytes: the polynomial that divides them, and what is added sixteen times in front.
struct CyclicCheck {
    generator: [Gf2; 17],
    start: Gf2,
    ghost admits: { admitted gf2 (meanings generator) 16 ≡ true },
}

// x^16 + x^14 + x^13 + x^12 + x^11 + x^5 + x^3 + x^2 + x + 1
const FIRE: CyclicCheck = CyclicCheck {
    generator: [
        ONE, ZERO, ONE, ONE, ONE, ONE, ZERO, ZERO, ZERO, ZERO, ZERO, ONE, ZERO, ONE, ONE, ONE, ONE,
    ],
    start: ZERO,
};

// x^16 + x^12 + x^5 + 1
const UNIT: CyclicCheck = CyclicCheck {
    generator: [
        ONE, ZERO, ZERO, ZERO, ONE, ZERO, ZERO, ZERO, ZERO, ZERO, ZERO, ONE, ZERO, ZERO, ZERO,
        ZERO, ONE,
    ],
    start: ONE,
};

// The bits of a byte, the top bit first. A symbol means its lowest bit alone. All eight are written out, since a proof of neither
// `array::from_fn` nor `map` is found.
#[tactic(auto, unfolding(crate::specs::Checks::byte_bits))]
fn bits_of(byte: u8) -> [Gf2; 8]
    ensures { meanings result ≡ byte_bits byte }
{
    [
        Gf2(byte >> 7),
        Gf2(byte >> 6),
        Gf2(byte >> 5),
        Gf2(byte >> 4),
        Gf2(byte >> 3),
        Gf2(byte >> 2),
        Gf2(byte >> 1),
        Gf2(byte),
    ]
}

// Adds the byte to the eight highest places of the register.
fn add_byte(byte: u8, register: &mut [Gf2; 16])
    ensures { meanings register.new ≡ over gf2 (meanings register.old) (byte_bits byte) }
{
    // By its index, since a proof knows nothing of what is written through `iter_mut().zip(..)`.
    for (place, bit) in bits_of(byte).iter().enumerate() {
        register[place] = register[place].add(*bit);
    }
}

impl CyclicCheck {
    // Takes a byte into the division: it is added to the highest places, and eight places of zeros follow.
    fn take_in(&self, byte: u8, register: &mut [Gf2; 16])
        ensures { meanings register.new ≡ remainder_of gf2 (over gf2 (meanings register.old) (byte_bits byte) ++ zeros gf2 8) (meanings self.now.generator) }
    {
        add_byte(byte, register);
        let _ = continue_remainder(&[ZERO; 8], &self.generator, register);
    }

    // The remainder of the bytes times x^16, with `start` added sixteen times in front.
    fn remainder(&self, bytes: &[u8]) -> [Gf2; 16]
        ensures { meanings result ≡ remainder_of gf2 (covered (replicate 16 (bits 1 self.now.start.0)) bytes.now) (meanings self.now.generator) }
    {
        let mut register = [self.start; 16];
        for byte in bytes {
            self.take_in(*byte, &mut register);
        }
        register
    }
}

// The number that the bits write, the top bit first.
#[tactic(auto, using(crate::proofs::Packing::word_fits, crate::proofs::Packing::symbol_more))]
fn word_of(symbols: &[Gf2; 16]) -> u16
    ensures { result ≡ binary 0 (meanings symbols.now) }
{
    let mut word = 0;
    for symbol in symbols {
        word = word * 2 + u16::from(symbol.0 % 2);
    }
    word
}

// The Fire word of bytes: the remainder of the bytes times x^16. In a header these are bytes 2 to 10.
pub fn fire_word(bytes: &[u8]) -> u16
    ensures { result ≡ fire_word bytes.now }
{
    word_of(&FIRE.remainder(bytes))
}

// The check that belongs to a unit: the complement of the remainder, which starts with sixteen ones.
pub fn unit_check(unit: &[u8]) -> u16
    ensures { result ≡ unit_check unit.now }
{
    !word_of(&UNIT.remainder(unit))
}
