// What a call answers, as text.
use crate::units::UnitCounts;
use reception::{Delivery, Mode, Outcome, Pulled, Report};
use std::fmt;

// What came of a call, as it is printed.
#[derive(Clone, Copy)]
pub struct Answer(pub Outcome);

fn write_delivery<W: fmt::Write>(delivery: &Delivery, f: &mut fmt::Formatter<W>) -> fmt::Result {
    let changed = delivery.repair.changed;
    let rows_left = delivery.repair.rows_left;
    let parameters = delivery.header.parameters;
    let UnitCounts { units, good } = UnitCounts::of(delivery);
    write!(
        f,
        "delivered, {changed} bytes changed, {rows_left} rows left, {parameters}, units {good} of {units} good"
    )
}

fn write_pulled<W: fmt::Write>(pulled: &Pulled, f: &mut fmt::Formatter<W>) -> fmt::Result {
    match pulled {
        Pulled::NothingWaiting => write!(f, "nothing waiting"),
        Pulled::Held => write!(f, "held"),
        Pulled::Missed(refusal) => write!(f, "missed, {refusal}"),
        Pulled::Delivered(delivery) => write_delivery(delivery, f),
    }
}

fn write_report<W: fmt::Write>(report: &Report, f: &mut fmt::Formatter<W>) -> fmt::Result {
    let Report {
        mode,
        held,
        misses,
        patience,
    } = *report;
    let mode = match mode {
        Mode::Hunting => "hunting",
        Mode::Locked => "locked",
    };
    write!(
        f,
        "{mode}, {held} held, {misses} misses, patience {patience}"
    )
}

impl fmt::Display for Answer {
    fn fmt<W: fmt::Write>(&self, f: &mut fmt::Formatter<W>) -> fmt::Result {
        match self.0 {
            Outcome::Pulled(Ok(pulled)) => write_pulled(&pulled, f),
            Outcome::Offered(Ok(())) => write!(f, "accepted"),
            Outcome::Restarted | Outcome::PatienceSet(Ok(())) => write!(f, "done"),
            Outcome::Reported(report) => write_report(&report, f),
            Outcome::Pulled(Err(refusal))
            | Outcome::Offered(Err(refusal))
            | Outcome::PatienceSet(Err(refusal)) => write!(f, "{refusal}"),
        }
    }
}
