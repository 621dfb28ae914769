// The check code over every field: filling the checks of a word, and correcting a word.
ghost use Rattle.std.specs.Prelude.{◌≡◌, true, ◌&&◌, map, length};
ghost use Rattle.codes.specs.Polynomials.{zeros, negs};
ghost use Rattle.codes.specs.Codewords.{code_shape, work_shape, Filled, Encoded, Outcome, Correction, Vandermonde, SyndromesDecide, MinimumDistance};
ghost use Rattle.codes.specs.Correcting.{Corrects};

use crate::division::{clear, divide};
use crate::errors::correct_errors;
use crate::generator::write_generator;
use crate::syndromes::{are_zero, write_syndromes};
use gf::{Field, Refusal};

// How many symbols a word has at most.
pub const MAX_SYMBOLS: usize = 255;

// How many checks a word has at most.
pub const MAX_CHECKS: usize = 16;

// How many symbols a work buffer has.
pub const WORK_SYMBOLS: usize = 512;

// Whether the code has words of so many symbols with so many checks.
pub fn has_shape<F: Field>(symbols: usize, checks: usize) -> bool
    ensures { result ≡ code_shape F.field symbols checks }
{
    (1..=MAX_CHECKS).contains(&checks)
        && checks < symbols
        && symbols <= F::reach()
        && symbols <= MAX_SYMBOLS
}

// Whether the code admits the word with so many checks, and the work buffer. It answers a `bool`: with a struct of the three in its
// place, a proof does not know what word and buffer hold where there is none.
fn is_admitted<F: Field>(word: &[F], checks: usize, work: &[F]) -> bool
    ensures { result ≡ (code_shape F.field (length word.now) checks && work_shape F.field (map F.mean work.now)) }
{
    has_shape::<F>(word.len(), checks) && work.len() == WORK_SYMBOLS && are_zero(work)
}

// Writes the negatives of the symbols over as many places.
fn write_negatives<F: Field>(symbols: &[F], places: &mut [F])
    requires { length places.old ≡ length symbols.now }
    ensures { map F.mean places.new ≡ negs F.field (map F.mean symbols.now) }
{
    places.copy_from_slice(symbols);
    for place in places.iter_mut() {
        *place = place.neg();
    }
}

// Fills the checks of a word of an admitted shape.
fn fill_checks<F: Field>(word: &mut [F], checks: usize, work: &mut [F])
    requires shape { code_shape F.field (length word.old) checks ≡ true }
    requires work { length work.old ≡ 512 }
    ensures { Filled F.field F.mean checks word.old word.new }
{
    let (generator, rest) = work.split_at_mut(MAX_CHECKS + 1);
    let generator = &mut generator[..checks + 1];
    let rest = &mut rest[..checks];
    write_generator(generator);
    let first = word.len() - checks;
    clear(&mut word[first..]);
    divide(word, generator, rest);
    write_negatives(rest, &mut word[first..]);
}

// Corrects a word of an admitted shape. A codeword is known by its syndromes alone, which leave the work buffer all zeros.
fn correct_word<F: Field>(word: &mut [F], checks: usize, work: &mut [F]) -> Result<usize, Refusal>
    requires shape { code_shape F.field (length word.old) checks ≡ true }
    requires work { map F.mean work.old ≡ zeros F.field 512 }
    ensures outcome { Outcome F.field F.mean checks word.old word.new result }
    ensures work { map F.mean work.new ≡ zeros F.field 512 }
{
    let (syndromes, rest) = work.split_at_mut(MAX_CHECKS);
    // That there are no more than `MAX_CHECKS` is proved. The compiler learns it here, and needs no remainder for each product then.
    let syndromes = &mut syndromes[..checks.min(MAX_CHECKS)];
    write_syndromes(word, syndromes);
    if are_zero(syndromes) {
        return Ok(0);
    }
    let answer = correct_errors(word, syndromes, rest);
    clear(work);
    answer
}

// Writes the checks of the other symbols over the last ones, so that the word is a codeword. The others stay as they are. `work` is
// `WORK_SYMBOLS` symbols that mean zero, before and after. A word, a number of checks or a buffer that is not as admitted is refused, and
// nothing is changed.
pub fn encode<F: Field>(word: &mut [F], checks: usize, work: &mut [F]) -> Result<(), Refusal>
    ensures { Encoded F.field F.mean checks word.old word.new work.old work.new result }
{
    if !is_admitted(word, checks, work) {
        return Err(Refusal::Shape);
    }
    fill_checks(word, checks, work);
    clear(work);
    Ok(())
}

// Makes the word the codeword that differs from it in at most half as many places as there are checks, and returns how many differ.
// A word with no such codeword is refused and stays as it is. `work` is as for `encode`, and so is what else is refused.
pub fn correct<F: Field>(word: &mut [F], checks: usize, work: &mut [F]) -> Result<usize, Refusal>
    ensures answer { Correction F.field F.mean checks word.old word.new work.old work.new result }
    ensures corrects { Corrects F.field F.mean checks word.old word.new work.old work.new result }
    ensures vandermonde { Vandermonde F.field }
    ensures syndromes { SyndromesDecide F.field }
    ensures distance { MinimumDistance F.field }
{
    if !is_admitted(word, checks, work) {
        return Err(Refusal::Shape);
    }
    correct_word(word, checks, work)
}
