// Long division over every field, of messages of any length, whole or in parts.
ghost use Rattle.std.specs.Prelude.{◌≡◌, ◌<◌, true, ◌++◌, map, length};
ghost use Rattle.codes.specs.Polynomials.{zeros};
ghost use Rattle.codes.specs.Division.{admitted, divided, Remainder, Answered};
ghost use Rattle.codes.specs.steps.Dividing.{stepped};

use gf::{Field, Refusal};

const MAX_DEGREE: usize = 16;

// Takes the highest symbol off `rest`, and that multiple of the divisor with it; `symbol` comes in behind.
// `tail` is the divisor without its leading one.
// Each place takes what stands behind it, all in one pass: to turn the places first, by `rotate_left` or `copy_within`, makes the check of a
// unit seven times as slow, and of what a loop over a `zip` has written no proof knows.
fn step<F: Field>(tail: &[F], symbol: F, rest: &mut [F])
    requires { (length rest.old ≡ length tail.now) × (0 < length tail.now) }
    ensures { map F.mean rest.new ≡ stepped F.field (map F.mean tail.now) (map F.mean rest.old) (F.mean symbol) }
{
    let highest = rest[0];
    let last = rest.len() - 1;
    for j in 0..last {
        rest[j] = rest[j + 1].add(highest.mul(tail[j]).neg());
    }
    rest[last] = symbol.add(highest.mul(tail[last]).neg());
}

// Takes the message in, symbol by symbol.
fn take_in<F: Field>(message: &[F], tail: &[F], rest: &mut [F])
    requires { (length rest.old ≡ length tail.now) × (0 < length tail.now) }
    ensures { map F.mean rest.new ≡ divided F.field (map F.mean tail.now) (length message.now) (map F.mean rest.old ++ map F.mean message.now) }
{
    for symbol in message {
        step(tail, *symbol, rest);
    }
}

// Writes zero everywhere. `fill` takes a type whose `clone` cannot fail, and a field's symbols are not said to be of one.
pub(crate) fn clear<F: Field>(symbols: &mut [F])
    ensures { map F.mean symbols.new ≡ zeros F.field (length symbols.old) }
{
    let zero = F::zero();
    for symbol in symbols.iter_mut() {
        *symbol = zero;
    }
}

// Whether a division admits the divisor, and so many places for the rest.
fn is_admitted<F: Field>(divisor: &[F], places: usize) -> bool
    ensures { result ≡ admitted F.field (map F.mean divisor.now) places }
{
    (1..=MAX_DEGREE).contains(&places) && divisor.len() == places + 1 && divisor[0].same(F::one())
}

// Divides what `rest` holds, with the message behind it. Divisor and rest are no struct: as with word and work in `code`, a proof would not
// know what the rest holds where there is none.
fn divide_behind<F: Field>(message: &[F], divisor: &[F], rest: &mut [F])
    requires { admitted F.field (map F.mean divisor.now) (length rest.old) ≡ true }
    ensures { Remainder F.field (map F.mean rest.old ++ map F.mean message.now) (map F.mean divisor.now) (map F.mean rest.new) }
{
    take_in(message, &divisor[1..], rest);
}

// Divides the message alone.
pub(crate) fn divide<F: Field>(message: &[F], divisor: &[F], rest: &mut [F])
    requires { admitted F.field (map F.mean divisor.now) (length rest.old) ≡ true }
    ensures { Remainder F.field (map F.mean message.now) (map F.mean divisor.now) (map F.mean rest.new) }
{
    clear(rest);
    divide_behind(message, divisor, rest);
}

// Writes the remainder of the message by the divisor to `rest`, all from the highest power down.
// The divisor has degree 1 to 16 and begins with one, and `rest` has as many symbols as the degree.
pub fn remainder<F: Field>(message: &[F], divisor: &[F], rest: &mut [F]) -> Result<(), Refusal>
    ensures { Answered F.field F.mean (map F.mean message.now) divisor.now result rest.old rest.new }
{
    if !is_admitted(divisor, rest.len()) {
        return Err(Refusal::Shape);
    }
    divide(message, divisor, rest);
    Ok(())
}

// Goes on with a division: `rest` holds the remainder of what came before, and then of that with `more` behind it. It
// differs from `remainder` in one call, and a parameter for that would be a flag.
pub fn continue_remainder<F: Field>(
    more: &[F],
    divisor: &[F],
    rest: &mut [F],
) -> Result<(), Refusal>
    ensures { Answered F.field F.mean (map F.mean rest.old ++ map F.mean more.now) divisor.now result rest.old rest.new }
{
    if !is_admitted(divisor, rest.len()) {
        return Err(Refusal::Shape);
    }
    divide_behind(more, divisor, rest);
    Ok(())
}
