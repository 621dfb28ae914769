// The listener, which prints what came of the calls.
ghost use Rattle.std.specs.Prelude.{◌≡◌, None, Ok, Err, IfSome};

use crate::answer::Answer;
use crate::failure::Failure;
use crate::files::write_good_units;
use crate::lines::ScriptLines;
use crate::progress::Progress;
use crate::summary::Summary;
use reception::{Call, Listener, Outcome, Pulled};

// Which lines are printed.
#[derive(Drop)]
pub enum Lines<'s> {
    // One for each frame that is taken.
    Frames(Progress),
    Script(ScriptLines<'s>),
}

// Sums what came of the calls, prints it, and writes the good units to files where a folder is given.
#[derive(Drop)]
pub struct Reporting<'a> {
    rt: &'a HostRuntime,
    folder: Option<String>,
    lines: Lines<'a>,
    summary: Summary,
    // Why something could not be printed or written. Nothing more is, then.
    failure: Option<Failure>,
}

// What came of taking a frame, if one was taken.
fn of_frame(outcome: &Outcome) -> Option<Answer> {
    match outcome {
        Outcome::Pulled(Ok(Pulled::NothingWaiting)) => None,
        Outcome::Pulled(Ok(_)) => Some(Answer(*outcome)),
        _ => None,
    }
}

impl<'a> Reporting<'a> {
    pub fn new(rt: &'a HostRuntime, folder: Option<String>, lines: Lines<'a>) -> Reporting<'a>
        ensures nothing { result.summary ≡ record { frames = 0; delivered = 0; missed = 0; units = 0; good = 0; changed = 0; rows_left = 0 } }
        ensures well { result.failure ≡ None }
    {
        Reporting {
            rt,
            folder,
            lines,
            summary: Summary::new(),
            failure: None,
        }
    }

    // Prints what came of a call; `number` counts the frames taken before.
    fn print(&mut self, number: usize, outcome: &Outcome) -> Result<(), Failure>
        ensures { (self.new.summary ≡ self.old.summary) × (self.new.failure ≡ self.old.failure) }
    {
        match &mut self.lines {
            Lines::Frames(progress) => {
                if let Some(answer) = of_frame(outcome) {
                    println!(self.rt; "{number}: {answer}")?;
                    progress.show(self.rt, number.saturating_add(1))?;
                }
                Ok(())
            }
            Lines::Script(lines) => lines.hear(self.rt, outcome),
        }
    }

    // Writes the good units of a super frame that was delivered; `number` counts those before.
    fn write_units(&self, number: usize, outcome: &Outcome, block: &[u8]) -> Result<(), Failure> {
        let Outcome::Pulled(Ok(Pulled::Delivered(delivery))) = outcome else {
            return Ok(());
        };
        match &self.folder {
            None => Ok(()),
            Some(folder) => write_good_units(self.rt, folder, number, delivery, block),
        }
    }

    // Prints and writes what came of a call; `before` is the sum without it.
    fn tell(&mut self, before: Summary, outcome: &Outcome, block: &[u8]) -> Result<(), Failure>
        ensures { (self.new.summary ≡ self.old.summary) × (self.new.failure ≡ self.old.failure) }
    {
        self.print(before.frames(), outcome)?;
        self.write_units(before.delivered(), outcome, block)
    }

    // Prints the sum, if all else could be printed and written.
    pub fn finish(self) -> Result<(), Failure>
        ensures { IfSome self.entry.failure (λ failure. result ≡ Err failure) }
    {
        let Reporting {
            rt,
            lines,
            summary,
            failure,
            ..
        } = self;
        if let Some(failure) = failure {
            return Err(failure);
        }
        match lines {
            Lines::Script(mut lines) => {
                lines.print_answered(rt)?;
                println!(rt; "{summary}")?;
            }
            Lines::Frames(progress) => println!(rt; "{summary}{}", progress.end())?,
        }
        Ok(())
    }
}

impl Listener for Reporting<'_> {
    ghost use Rattle.dabreceive.specs.Reports.{Hears};

    ghost hears = { λ report call outcome block after. Hears report outcome after };

    fn hear(&mut self, _call: &Call<'_>, outcome: &Outcome, block: &[u8]) {
        let before = self.summary;
        self.summary.count(outcome);
        if self.failure.is_some() {
            return;
        }
        if let Err(failure) = self.tell(before, outcome, block) {
            self.failure = Some(failure);
        }
    }
}
