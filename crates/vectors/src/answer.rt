// What a call answered, in words.
use anyhow::anyhow;
use block::Refused;
use gf::Refusal;
use interleaver::Repair;
use std::alloc::{AllocError, Global};
use std::fmt;

// A refusal where none is meant to be, which ends the program.
pub fn as_error(refusal: Refusal) -> anyhow::Error {
    anyhow!("{refusal}")
}

// Done, or refused.
#[derive(Clone, Copy)]
pub struct Answer(Option<Refusal>);

impl Answer {
    pub fn of<T: Drop, E: Into<Refusal> + Drop>(outcome: Result<T, E>) -> Answer {
        match outcome {
            Ok(_) => Answer(None),
            Err(error) => Answer(Some(error.into())),
        }
    }
}

impl fmt::Display for Answer {
    fn fmt<W: fmt::Write>(&self, f: &mut fmt::Formatter<W>) -> fmt::Result {
        match self.0 {
            None => write!(f, "done"),
            Some(refusal) => write!(f, "{refusal}"),
        }
    }
}

// An answer, and whether all that the call was lent or given is as it was before.
#[derive(Clone, Copy)]
pub struct Trial {
    answer: Answer,
    unchanged: bool,
}

impl Trial {
    pub fn new(answer: Answer, unchanged: bool) -> Trial {
        Trial { answer, unchanged }
    }

    // A trial of a call that hands its state back where it is refused; `before` is the state written out.
    pub fn of_state<T: Drop, State: fmt::Debug + Drop>(
        heap: Global,
        before: &str,
        outcome: Result<T, Refused<State>>,
    ) -> Result<Trial, AllocError> {
        match outcome {
            Ok(_) => Ok(Trial::new(Answer(None), true)),
            Err(Refused { state, refusal }) => {
                let after = format!(in heap; "{state:?}")?;
                Ok(Trial::new(Answer(Some(refusal)), after.as_str() == before))
            }
        }
    }

    // The same, with one thing more looked at.
    pub fn and(self, unchanged: bool) -> Trial {
        Trial::new(self.answer, self.unchanged && unchanged)
    }
}

impl fmt::Display for Trial {
    fn fmt<W: fmt::Write>(&self, f: &mut fmt::Formatter<W>) -> fmt::Result {
        let answer = self.answer;
        match (answer.0, self.unchanged) {
            (None, _) => write!(f, "{answer}"),
            (Some(_), true) => write!(f, "{answer}, nothing changed"),
            (Some(_), false) => write!(f, "{answer}, something changed"),
        }
    }
}

// What a repair did.
#[derive(Clone, Copy)]
pub struct RepairText(pub Repair);

impl fmt::Display for RepairText {
    fn fmt<W: fmt::Write>(&self, f: &mut fmt::Formatter<W>) -> fmt::Result {
        let Repair {
            changed,
            rows_left,
            lowest_left,
        } = self.0;
        write!(f, "{changed} changed, {rows_left} rows left")?;
        match lowest_left {
            Some(row) => write!(f, ", the lowest {row}"),
            None => Ok(()),
        }
    }
}
