// Trying a recording: whether it is what the laws over runs suppose, and what a receiver then makes of it.
ghost use Rattle.std.specs.Prelude.{IfOk, MatchOption};
ghost use Rattle.codes.specs.Correcting.{Corrects};
ghost use Rattle.stretches.specs.Instances.{IsStretch, Demonstrated};

use crate::failure::Failure;
use crate::receiving::{Tally, receive};
use crate::stretch::find_stretch;
use gf::{Field, Refusal};
use std::alloc::Global;
use std::fmt;

// What came of a recording that is what the laws suppose.
#[derive(Clone, Copy)]
pub struct Trial {
    super_frames: usize,
    tally: Tally,
    // What correcting the word answered.
    corrected: Result<usize, Refusal>,
}

// Tries a recording, and corrects a word in the same call; none comes of it where it is not what the laws suppose.
pub fn try_recording<F: Field>(
    alloc: Global,
    size: usize,
    recording: &[u8],
    word: &mut [F],
    checks: usize,
    work: &mut [F],
) -> Result<Option<Trial>, Failure>
    ensures { IfOk result (λ tried. MatchOption tried (IsStretch size 0 0 recording.now → ⊥) (λ trial. Demonstrated size trial.super_frames recording.now
        × Corrects F.field F.mean checks word.old word.new work.old work.new trial.corrected)) }
{
    let Some(super_frames) = find_stretch(size, 0, 0, recording)? else {
        return Ok(None);
    };
    let (corrected, tally) = receive(alloc, size, recording, word, checks, work)?;
    Ok(Some(Trial {
        super_frames,
        tally,
        corrected,
    }))
}

impl fmt::Display for Trial {
    fn fmt<W: fmt::Write>(&self, f: &mut fmt::Formatter<W>) -> fmt::Result {
        let Trial {
            super_frames,
            tally,
            corrected,
        } = *self;
        let Tally {
            as_written,
            otherwise,
        } = tally;
        write!(f, "{super_frames} super frames, the premises hold, ")?;
        if as_written == super_frames && otherwise == 0 {
            write!(f, "all delivered as written; ")?;
        } else {
            write!(
                f,
                "{as_written} delivered as written, {otherwise} otherwise; "
            )?;
        }
        match corrected {
            Ok(symbols) => write!(f, "symbols corrected {symbols}"),
            Err(refusal) => write!(f, "{refusal}"),
        }
    }
}
