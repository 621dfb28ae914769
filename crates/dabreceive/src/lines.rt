// The lines of a script while they are answered.
use crate::answer::Answer;
use crate::failure::Failure;
use crate::script::Command;
use reception::Outcome;
use std::alloc::{AllocError, Global};
use std::collections::VecDeque;
use std::fmt;

// A line, and what its calls have answered so far.
#[derive(Clone, Copy)]
struct Line<'s> {
    command: &'s Command,
    // Its calls that are not answered yet.
    to_come: usize,
    // Its offers that were accepted.
    accepted: usize,
    // Where an offer is refused, so are those behind it, since the queue is full. So this tells the last refusal.
    last: Option<Outcome>,
}

impl Line<'_> {
    fn hear(&mut self, outcome: &Outcome) {
        self.to_come = self.to_come.saturating_sub(1);
        if let Outcome::Offered(Ok(())) = *outcome {
            self.accepted = self.accepted.saturating_add(1);
        }
        self.last = Some(*outcome);
    }
}

impl fmt::Display for Line<'_> {
    fn fmt<W: fmt::Write>(&self, f: &mut fmt::Formatter<W>) -> fmt::Result {
        let Line {
            command,
            accepted,
            last,
            ..
        } = *self;
        write!(f, "{command}: ")?;
        match (command, last) {
            (Command::OfferFrames(_), Some(Outcome::Offered(Err(refusal)))) => {
                write!(f, "{accepted} accepted, {refusal}")
            }
            (Command::OfferFrames(_), _) => write!(f, "{accepted} accepted"),
            (_, Some(outcome)) => {
                let answer = Answer(outcome);
                write!(f, "{answer}")
            }
            // A line is printed once its calls are answered, and any other line has one.
            (_, None) => Ok(()),
        }
    }
}

// The lines that are not printed yet. A line is printed when its last call is answered.
#[derive(Drop)]
pub struct ScriptLines<'s> {
    // Calls that are made before those of the script, and that no line is printed of.
    before: usize,
    lines: VecDeque<Line<'s>>,
}

impl<'s> ScriptLines<'s> {
    ghost use Rattle.std.specs.Prelude.{◌≡◌, ◌+◌, IfOk};
    ghost use Rattle.dabreceive.specs.Lines.{calls_to_come};

    // No lines yet.
    pub fn new(alloc: Global, before: usize) -> ScriptLines<'s>
        ensures { calls_to_come result ≡ before }
    {
        ScriptLines {
            before,
            lines: VecDeque::new(alloc),
        }
    }

    // Adds the line of a command that makes so many calls.
    pub fn add(&mut self, command: &'s Command, calls: usize) -> Result<(), AllocError>
        ensures { IfOk result (λ _. calls_to_come self.new ≡ calls_to_come self.old + calls) }
    {
        self.lines.push_back(Line {
            command,
            to_come: calls,
            accepted: 0,
            last: None,
        })?;
        Ok(())
    }

    // Hears what came of the next call.
    pub fn hear(&mut self, rt: &HostRuntime, outcome: &Outcome) -> Result<(), Failure> {
        if self.before > 0 {
            self.before -= 1;
            return Ok(());
        }
        self.print_answered(rt)?;
        if let Some(line) = self.lines.front_mut() {
            line.hear(outcome);
        }
        self.print_answered(rt)
    }

    // Prints the lines in front whose calls are all answered. A line may have none, as where no frame is left to be offered.
    pub fn print_answered(&mut self, rt: &HostRuntime) -> Result<(), Failure> {
        for _ in 0..self.lines.len() {
            match self.lines.front() {
                Some(line) if line.to_come == 0 => println!(rt; "{line}")?,
                _ => return Ok(()),
            }
            self.lines.pop_front();
        }
        Ok(())
    }
}
