// Words over a small field, and the polynomials that they are, the highest power first.
use crate::small_field::SmallField;
use gf::Field;
use std::mem;

// Writes the word whose elements are the digits of the number, to the base of as many elements as there are.
pub fn write_numbered<F: SmallField>(word: &mut [F], number: usize) {
    let mut rest = number;
    for symbol in word.iter_mut().rev() {
        *symbol = F::numbered(rest % F::order());
        rest /= F::order();
    }
}

// Multiplies by x - root a polynomial whose highest coefficient is zero.
fn multiply_by_factor<F: Field>(word: &mut [F], root: F) {
    let mut lower = F::zero();
    for coefficient in word.iter_mut().rev() {
        let product = lower.add(root.mul(*coefficient).neg());
        lower = mem::replace(coefficient, product);
    }
}

// Multiplies by the generator, which is the product of x - 1, x - root, x - root^2, … with a factor for each check.
pub fn multiply_by_generator<F: Field>(word: &mut [F], checks: usize) {
    let mut root = F::one();
    for _ in 0..checks {
        multiply_by_factor(word, root);
        root = root.mul(F::root());
    }
}

// At how many places the words have different elements.
pub fn distance<F: Field>(word: &[F], other: &[F]) -> usize {
    word.iter()
        .zip(other)
        .filter(|(symbol, other)| !symbol.same(**other))
        .count()
}

// Whether they have different elements at no more than so many places. It stops at the first place too many, and is written out, since
// most of the time goes here: by `filter` and `nth` it takes half as many instructions again.
pub fn is_near<F: Field>(word: &[F], other: &[F], most: usize) -> bool {
    let mut left = most;
    for (symbol, other) in word.iter().zip(other) {
        if !symbol.same(*other) {
            if left == 0 {
                return false;
            }
            left -= 1;
        }
    }
    true
}

// Whether the word has the elements of `meant`, and the very symbols of `before` wherever these mean the same.
pub fn is_written<F: SmallField>(word: &[F], before: &[F], meant: &[F]) -> bool {
    word.iter().zip(before).zip(meant).all(|((symbol, before), meant)| {
        symbol.same(*meant) && (symbol.byte() == before.byte() || !before.same(*meant))
    })
}
