// A code over a small field, with words so short that all of them can be tried.
use crate::small_field::SmallField;
use crate::tally::Tally;
use crate::word::{distance, is_near, is_written, multiply_by_generator, write_numbered};
use codes::{WORK_SYMBOLS, correct};
use gf::Refusal;
use std::alloc::{AllocError, Global};
use std::fmt;

// The code with words of so many symbols, of which so many are checks, and all its codewords.
#[derive(Drop)]
pub struct SmallCode<F: SmallField> {
    symbols: usize,
    checks: usize,
    codewords: Vec<Vec<F>>,
}

// How many words of so many symbols there are.
fn word_count<F: SmallField>(symbols: usize) -> usize {
    (0..symbols).fold(1, |count: usize, _| count.saturating_mul(F::order()))
}

impl<F: SmallField> SmallCode<F> {
    pub fn new(alloc: Global, symbols: usize, checks: usize) -> Result<Self, AllocError> {
        let mut codewords = Vec::new(alloc);
        for number in 0..word_count::<F>(symbols.saturating_sub(checks)) {
            let mut codeword = vec![in alloc; F::zero(); symbols]?;
            write_numbered(&mut codeword, number);
            multiply_by_generator(&mut codeword, checks);
            codewords.push(codeword)?;
        }
        Ok(SmallCode {
            symbols,
            checks,
            codewords,
        })
    }

    // Whether a correction may answer so and leave `after` of a word, by the codewords that are near enough.
    fn is_right(&self, word: &[F], answer: &Result<usize, Refusal>, after: &[F]) -> bool {
        let most = self.checks / 2;
        let mut near = self
            .codewords
            .iter()
            .filter(|codeword| is_near(word, codeword, most));
        match (answer, near.next(), near.next()) {
            (Ok(changed), Some(codeword), None) => {
                *changed == distance(word, codeword) && is_written(after, word, codeword)
            }
            (Err(Refusal::BeyondRepair), None, _) => is_written(after, word, word),
            _ => false,
        }
    }

    // Corrects every word, and holds each answer against the codewords.
    pub fn try_words(&self, alloc: Global) -> Result<Tally, AllocError> {
        let mut work = vec![in alloc; F::zero(); WORK_SYMBOLS]?;
        let mut word = vec![in alloc; F::zero(); self.symbols]?;
        let mut after = vec![in alloc; F::zero(); self.symbols]?;
        let mut tally = Tally::default();
        for number in 0..word_count::<F>(self.symbols) {
            write_numbered(&mut word, number);
            // `copy_from_slice` asks for a proof that both are as long, and nothing of the two lists is known here.
            for (copy, symbol) in after.iter_mut().zip(&word) {
                *copy = *symbol;
            }
            let answer = correct(&mut after, self.checks, &mut work);
            tally.count(&answer, self.is_right(&word, &answer, &after));
        }
        Ok(tally)
    }
}

impl<F: SmallField> fmt::Display for SmallCode<F> {
    fn fmt<W: fmt::Write>(&self, f: &mut fmt::Formatter<W>) -> fmt::Result {
        let SmallCode {
            symbols,
            checks,
            codewords,
        } = self;
        let count = codewords.len();
        write!(f, "{symbols} symbols, {checks} checks: {count} codewords")
    }
}
