// Words over any field that are near a codeword, far from each, or of no shape that the code has.
use codes::WORK_SYMBOLS;
use gf::Field;
use std::alloc::{AllocError, Global};

// A word, how many checks it has, and a work buffer.
#[derive(Drop)]
pub struct Word<F: Field> {
    pub symbols: Vec<F>,
    pub checks: usize,
    pub work: Vec<F>,
}

// What becomes of a word when it is corrected.
#[derive(Clone, Copy)]
pub enum Fate {
    // One of its symbols is wrong.
    Corrected,
    // Each codeword differs from it in two places or more.
    TooFar,
    // It has no checks.
    NoShape,
}

impl<F: Field> Word<F> {
    // A word of three symbols, over a field in which the first two powers of the root differ. With two checks the codeword of the data symbol
    // 1 is the generator itself: 1, -(1 + a), a, where a is the root.
    pub fn with_fate(alloc: Global, fate: Fate) -> Result<Word<F>, AllocError> {
        let middle = F::one().add(F::root()).neg();
        let (first, second, third, checks) = match fate {
            Fate::Corrected => (F::one(), middle, F::zero(), 2),
            Fate::TooFar => (F::zero(), F::one(), F::one(), 2),
            Fate::NoShape => (F::one(), middle, F::root(), 0),
        };
        let mut symbols = Vec::new(alloc);
        symbols.push(first)?;
        symbols.push(second)?;
        symbols.push(third)?;
        let work = vec![in alloc; F::zero(); WORK_SYMBOLS]?;
        Ok(Word {
            symbols,
            checks,
            work,
        })
    }
}
