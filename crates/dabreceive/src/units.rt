// The units of a super frame that was delivered.
ghost use Rattle.std.specs.Prelude.{◌≡◌, is_some};
ghost use Rattle.std.specs.List.{count_by};
ghost use Rattle.dabreceive.specs.Summaries.{is_good_unit};

use reception::{Delivery, UnitState};

// How many units there are, and how many of them are good.
#[derive(Clone, Copy)]
pub struct UnitCounts {
    pub units: usize,
    pub good: usize,
}

impl UnitCounts {
    pub fn of(delivery: &Delivery) -> UnitCounts
        ensures units { result.units ≡ count_by is_some delivery.now.units }
        ensures good { result.good ≡ count_by is_good_unit delivery.now.units }
    {
        let states = &delivery.units;
        UnitCounts {
            units: states.iter().filter(|state| state.is_some()).count(),
            good: states.iter().filter(|state| is_good(state)).count(),
        }
    }
}

// Whether there is such a unit, and its check is right.
pub fn is_good(state: &Option<UnitState>) -> bool
    ensures { result ≡ is_good_unit state.now }
{
    matches!(state, Some(UnitState::Good))
}
