// What came out of the words of a code.
use gf::Refusal;
use std::fmt;

#[derive(Clone, Copy, Default)]
pub struct Tally {
    words: usize,
    corrected: usize,
    refused: usize,
    wrong: usize,
}

impl Tally {
    // Counts a word with its answer, and whether that is right.
    pub fn count(&mut self, answer: &Result<usize, Refusal>, right: bool) {
        self.words = self.words.saturating_add(1);
        match answer {
            Ok(_) => self.corrected = self.corrected.saturating_add(1),
            Err(Refusal::BeyondRepair) => self.refused = self.refused.saturating_add(1),
            Err(_) => {}
        }
        if !right {
            self.wrong = self.wrong.saturating_add(1);
        }
    }
}

impl fmt::Display for Tally {
    fn fmt<W: fmt::Write>(&self, f: &mut fmt::Formatter<W>) -> fmt::Result {
        let Tally {
            words,
            corrected,
            refused,
            wrong,
        } = self;
        write!(
            f,
            "{words} words, {corrected} corrected, {refused} refused, {wrong} wrong"
        )
    }
}
