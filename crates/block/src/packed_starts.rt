// The starts of the units: numbers of twelve bits, packed behind the parameters of a header.
ghost use Rattle.std.specs.Prelude.{◌≡◌, ℕ, ◌+◌, ◌-◌, ◌*◌, ◌/◌, ◌<◌, ◌≤◌, length, slice_index};
ghost use Rattle.block.specs.Bytes.{unsigned};
ghost use Rattle.block.specs.Headers.{starts as expected, crowded, fills};
ghost use Rattle.block.specs.steps.Reading.{Fits};
ghost use Rattle.block.specs.SuperFrames.{digits, packed};

use super::parameters::Layout;
use super::sized_block::SUPER_FRAME_BYTES;
use std::array;

// The packed number `n`, counted from 0: two of them share three bytes.
fn packed_start(packed: &[u8], n: usize) -> u16
    requires { (n < 5) × (8 ≤ length packed.now) }
    ensures { result ≡ unsigned packed.now (12 * n) 12 }
{
    let at = n * 3 / 2;
    let word = u16::from_be_bytes([packed[at], packed[at + 1]]);
    if n % 2 == 0 { word / 16 } else { word % 4096 }
}

// The starts of the units and the end of the last, then zeros.
#[tactic(auto, unfolding(crate::specs::Headers::starts))]
pub(crate) fn starts(layout: &Layout, size: usize, packed: &[u8]) -> [u16; 7]
    requires layout { Fits layout.now }
    requires size { size ≤ 24 }
    requires packed { 8 ≤ length packed.now }
    ensures { result ≡ expected layout.now size packed.now }
{
    array::from_fn(|n| match n {
        0 => layout.header_length as u16,
        n if n < layout.units => packed_start(packed, n - 1),
        n if n == layout.units => (SUPER_FRAME_BYTES * size) as u16,
        _ => 0,
    })
}

// Whether the four bits behind the packed starts are zero, where there are such.
#[tactic(auto, using(crate::proofs::Starts::fills_where))]
pub(crate) fn is_filled(layout: &Layout, packed: &[u8]) -> bool
    requires layout { Fits layout.now }
    requires packed { 8 ≤ length packed.now }
    ensures { result ≡ fills layout.now packed.now }
{
    !layout.aligned || packed[layout.header_length - 4] % 16 == 0
}

// The first of the starts behind the first unit's that is less than three bytes after the one before.
pub(crate) fn first_crowded(starts: &[u16]) -> Option<u8>
    requires { (1 ≤ length starts.now) × (length starts.now ≤ 7) }
    ensures { result ≡ crowded starts.now 1 (length starts.now - 1) }
{
    let mut numbers = 1..starts.len();
    loop {
        let number = numbers.next()?;
        if usize::from(starts[number]) < usize::from(starts[number - 1]) + 3 {
            break Some(number as u8);
        }
    }
}

// The number at a place, 0 behind the last.
fn number_at(numbers: &[u16], place: usize) -> u16
    ensures { result ≡ slice_index numbers.now place }
{
    match numbers.get(place) {
        Some(number) => *number,
        None => 0,
    }
}

// Digit `k` of the numbers, each of which has three of four bits, the highest first; 0 behind the last.
fn digit(numbers: &[u16], k: usize) -> u8
    requires { (i : ℕ) → slice_index numbers.now i < 4096 }
    ensures value { result ≡ slice_index (digits numbers.now) k }
    ensures small { result < 16 }
{
    let number = number_at(numbers, k / 3);
    let upward = number >> (8 - 4 * (k % 3));
    (upward % 16) as u8
}

// Packs the numbers into as many bytes as they need: two digits in each, and four zero bits behind an odd one.
pub(crate) fn pack(numbers: &[u16], bytes: &mut [u8])
    requires numbers { (i : ℕ) → slice_index numbers.now i < 4096 }
    requires bytes { length bytes.old ≡ (3 * length numbers.now + 1) / 2 }
    ensures { bytes.new ≡ packed (digits numbers.now) }
{
    for (k, byte) in bytes.iter_mut().enumerate() {
        *byte = digit(numbers, 2 * k) * 16 + digit(numbers, 2 * k + 1);
    }
}
