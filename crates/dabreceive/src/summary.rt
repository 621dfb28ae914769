// The sum of what came of all calls.
ghost use Rattle.std.specs.Prelude.{◌≡◌};
ghost use Rattle.dabreceive.specs.Summaries.{with_frame, with_delivery, with_pulled, counted};

use crate::units::UnitCounts;
use reception::{Delivery, Outcome, Pulled};
use std::fmt;

#[derive(Clone, Copy)]
pub struct Summary {
    // Frames that were taken.
    frames: usize,
    delivered: usize,
    missed: usize,
    // Units of the super frames that were delivered, and how many of them are good.
    units: usize,
    good: usize,
    // Bytes that were changed in them, and rows that were left.
    changed: usize,
    rows_left: usize,
}

impl Summary {
    // Nothing has come of any call yet.
    pub fn new() -> Summary
        ensures { result ≡ record { frames = 0; delivered = 0; missed = 0; units = 0; good = 0; changed = 0; rows_left = 0 } }
    {
        Summary {
            frames: 0,
            delivered: 0,
            missed: 0,
            units: 0,
            good: 0,
            changed: 0,
            rows_left: 0,
        }
    }

    pub fn frames(&self) -> usize
        ensures { result ≡ self.now.frames }
    {
        self.frames
    }

    pub fn delivered(&self) -> usize
        ensures { result ≡ self.now.delivered }
    {
        self.delivered
    }

    // Adds what came of a call.
    pub fn count(&mut self, outcome: &Outcome)
        ensures { self.new ≡ counted self.old outcome.now }
    {
        if let Outcome::Pulled(Ok(pulled)) = *outcome {
            self.count_pulled(&pulled);
        }
    }

    fn count_pulled(&mut self, pulled: &Pulled)
        ensures { self.new ≡ with_pulled self.old pulled.now }
    {
        match pulled {
            Pulled::NothingWaiting => {}
            Pulled::Held => self.count_frame(),
            Pulled::Missed(_) => {
                self.count_frame();
                self.missed = self.missed.saturating_add(1);
            }
            Pulled::Delivered(delivery) => {
                self.count_frame();
                self.count_delivery(delivery);
            }
        }
    }

    fn count_frame(&mut self)
        ensures { self.new ≡ with_frame self.old }
    {
        self.frames = self.frames.saturating_add(1);
    }

    fn count_delivery(&mut self, delivery: &Delivery)
        ensures { self.new ≡ with_delivery self.old delivery.now }
    {
        let UnitCounts { units, good } = UnitCounts::of(delivery);
        self.delivered = self.delivered.saturating_add(1);
        self.units = self.units.saturating_add(units);
        self.good = self.good.saturating_add(good);
        self.changed = self.changed.saturating_add(delivery.repair.changed);
        self.rows_left = self.rows_left.saturating_add(delivery.repair.rows_left);
    }
}

impl fmt::Display for Summary {
    fn fmt<W: fmt::Write>(&self, f: &mut fmt::Formatter<W>) -> fmt::Result {
        let Summary {
            frames,
            delivered,
            missed,
            units,
            good,
            changed,
            rows_left,
        } = *self;
        write!(
            f,
            "{frames} frames, {delivered} delivered, {missed} missed, {units} units, {good} good"
        )?;
        write!(f, ", {changed} bytes changed, {rows_left} rows left")
    }
}
