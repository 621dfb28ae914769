// A refusal of a call that moves a state: it hands the state back.
ghost use Rattle.std.specs.Prelude.{◌≡◌};

use gf::Refusal;

#[derive(Drop, Debug)]
pub struct Refused<State> {
    // The state as it was.
    pub state: State,
    pub refusal: Refusal,
}

// Where the state is not wanted any more.
impl<State: Drop> From<Refused<State>> for Refusal {
    ghost from_gives = { λ refused refusal. refusal ≡ refused.refusal };

    fn from(refused: Refused<State>) -> Refusal {
        refused.refusal
    }
}
