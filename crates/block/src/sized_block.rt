// A block whose size and length are right, and its header.
ghost use Rattle.std.specs.Prelude.{◌≡◌, ◌*◌, ◌≤◌, ◌==◌, ◌≢◌, [], length, take, drop, MatchResult};
ghost use Rattle.gf.specs.Refusals.{Answers};
ghost use Rattle.block.specs.Checks.{fire_word};
ghost use Rattle.block.specs.Headers.{of_block};
ghost use Rattle.block.specs.Layouts.{layout};
ghost use Rattle.block.specs.steps.Reading.{laid, opened};

use super::checks::fire_word;
use super::fault::HeaderFault;
use super::header::Header;
use super::packed_starts::{first_crowded, is_filled, starts};
use super::parameters::Parameters;
use gf::Refusal;

// Bytes of a block, of a super frame and of a logical frame, for each step of the subchannel index.
pub(crate) const BLOCK_BYTES: usize = 120;

pub(crate) const SUPER_FRAME_BYTES: usize = 110;

pub(crate) const FRAME_BYTES: usize = 24;

// Logical frames in a block.
pub(crate) const FRAMES: usize = 5;

// Whether the buffer has the length of a block of this size.
pub(crate) fn check_buffer(size: usize, block: &[u8]) -> Result<(), Refusal>
    requires { size ≤ 24 }
    ensures { MatchResult result (λ _. length block.now ≡ 120 * size) (λ refusal. (refusal ≡ Refusal.Buffer) × (length block.now ≢ 120 * size)) }
{
    if block.len() != BLOCK_BYTES * size {
        return Err(Refusal::Buffer);
    }
    Ok(())
}

// A block and its size, both as they have to be.
#[derive(Clone, Copy)]
pub(crate) struct SizedBlock<'a> {
    // The subchannel index.
    pub(crate) size: usize,
    pub(crate) bytes: &'a [u8],
    ghost sizes: { (1 ≤ size) × ((size ≤ 24) × (length bytes.now ≡ 120 * size)) },
}

impl<'a> SizedBlock<'a> {
    // The block, if its size is 1 to 24, and it has 120 times as many bytes.
    pub(crate) fn new(size: usize, bytes: &'a [u8]) -> Result<SizedBlock<'a>, Refusal>
        ensures { Answers (of_block size bytes.now []) (λ block. (block.size ≡ size) × (block.bytes.now ≡ bytes.now)) result }
    {
        if !(1..=24).contains(&size) {
            return Err(Refusal::Size);
        }
        check_buffer(size, bytes)?;
        Ok(SizedBlock { size, bytes })
    }

    // Whether this is the Fire word of the nine bytes behind it.
    fn fire_fits(&self, fire: u16) -> bool
        ensures { result ≡ (fire_word (take 9 (drop 2 self.now.bytes.now)) == fire) }
    {
        fire_word(&self.bytes[2..11]) == fire
    }

    // The header, or its first fault.
    pub(crate) fn header(&self) -> Result<Header, HeaderFault>
        ensures { result ≡ opened self.now.size self.now.bytes.now }
    {
        let [fire_high, fire_low, parameter_byte, packed @ ..] = self.bytes else {
            unreachable!()
        };
        if !self.fire_fits(u16::from_be_bytes([*fire_high, *fire_low])) {
            return Err(HeaderFault::Fire);
        }
        let parameters = Parameters::try_from(*parameter_byte)?;
        lay_out(self.size, parameters, packed)
    }
}

// The header with these parameters, by what is packed behind them; or its first fault.
#[tactic(auto, using(crate::proofs::Starts::crowded_front))]
fn lay_out(size: usize, parameters: Parameters, packed: &[u8]) -> Result<Header, HeaderFault>
    requires size { size ≤ 24 }
    requires packed { 8 ≤ length packed.now }
    ensures { result ≡ laid size packed.now (layout parameters.dac parameters.sbr) parameters }
{
    let layout = parameters.layout();
    if !is_filled(&layout, packed) {
        return Err(HeaderFault::Alignment {
            last_byte: (layout.header_length - 1) as u8,
        });
    }
    let starts = starts(&layout, size, packed);
    match first_crowded(&starts[..=layout.units]) {
        Some(number) => Err(HeaderFault::Starts { number }),
        None => Ok(Header {
            size,
            parameters,
            starts,
        }),
    }
}
