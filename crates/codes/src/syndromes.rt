// Syndromes over every field: the values of a word at the powers of the root.
ghost use Rattle.std.specs.Prelude.{◌≡◌, ◌≤◌, map, length};
ghost use Rattle.codes.specs.Codewords.{all_zero};
ghost use Rattle.codes.specs.steps.Elimination.{entries};
ghost use Rattle.codes.specs.steps.Syndromes.{Taken, Syndromes};

use crate::division::clear;
use gf::Field;

// Takes the next symbol of a word into each value, and each value on by the power of the root that its place says. The product comes
// last: with the sum last a clean row takes twice the time, more than half of that since the compiler packs eight values into one
// register to add and unpacks them to multiply.
fn take_in<F: Field>(syndromes: &mut [F], symbol: F)
    requires { length syndromes.old ≤ 16 }
    ensures { Taken F.field (length syndromes.old) (F.mean symbol) (entries F.field F.mean syndromes.old) (entries F.field F.mean syndromes.new) }
{
    for (i, syndrome) in syndromes.iter_mut().enumerate() {
        *syndrome = syndrome.add(symbol).times_root_power(i);
    }
}

// Adds the last symbol of a word to each value.
fn add_last<F: Field>(syndromes: &mut [F], symbol: F)
    ensures { map F.mean syndromes.new ≡ map (λ value. F.field.add value (F.mean symbol)) (map F.mean syndromes.old) }
{
    for syndrome in syndromes.iter_mut() {
        *syndrome = syndrome.add(symbol);
    }
}

// Writes at each place the value of the word at that power of the root, by Horner's rule. Syndromes go about as a slice of at most
// sixteen symbols; each function would reach through a struct with that bound to the same slice, and have to say that it keeps its length.
pub(crate) fn write_syndromes<F: Field>(word: &[F], syndromes: &mut [F])
    requires { length syndromes.old ≤ 16 }
    ensures { Syndromes F.field (length syndromes.old) (map F.mean word.now) (entries F.field F.mean syndromes.new) }
{
    clear(syndromes);
    if let Some((last, others)) = word.split_last() {
        for symbol in others {
            take_in(syndromes, *symbol);
        }
        add_last(syndromes, *last);
    }
}

// Whether all symbols mean zero. It does not stop early as `all` does, so that many symbols are tested at once.
pub(crate) fn are_zero<F: Field>(symbols: &[F]) -> bool
    ensures { result ≡ all_zero F.field (map F.mean symbols.now) }
{
    let zero = F::zero();
    symbols
        .iter()
        .fold(true, |all, symbol| all & symbol.same(zero))
}
