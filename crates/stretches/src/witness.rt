// A listener that knows whether all went well, and how much was delivered.
use reception::{Call, Listener, Outcome, Pulled};

// What was heard of calls.
#[derive(Clone, Copy)]
pub(crate) struct Witness {
    // Whether each frame that was offered was accepted, and each pull took one.
    pub(crate) smooth: bool,
    // How many super frames were delivered.
    pub(crate) deliveries: usize,
}

impl Witness {
    ghost use Rattle.std.specs.Prelude.{◌≡◌};
    ghost use Rattle.stretches.specs.steps.Feeding.{nothing_heard};

    // Nothing was heard yet.
    pub(crate) fn new() -> Witness
        ensures { result ≡ nothing_heard }
    {
        Witness {
            smooth: true,
            deliveries: 0,
        }
    }
}

impl Listener for Witness {
    ghost use Rattle.std.specs.Prelude.{◌≡◌};
    ghost use Rattle.stretches.specs.steps.Feeding.{heard};

    ghost hears = { λ before call outcome block after. after ≡ heard before outcome };

    fn hear(&mut self, _call: &Call<'_>, outcome: &Outcome, _block: &[u8]) {
        match outcome {
            Outcome::Pulled(Ok(Pulled::Delivered(_))) => {
                self.deliveries = self.deliveries.saturating_add(1);
            }
            Outcome::Pulled(Err(_) | Ok(Pulled::NothingWaiting)) | Outcome::Offered(Err(_)) => {
                self.smooth = false;
            }
            _ => (),
        }
    }
}
