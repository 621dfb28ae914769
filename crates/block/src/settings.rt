// What a super frame is made with: the subchannel index and the parameters.
ghost use Rattle.std.specs.Prelude.{◌≡◌, ◌≤◌, true};
ghost use Rattle.gf.specs.Refusals.{Answers};
ghost use Rattle.block.specs.Layouts.{sendable};

use super::parameters::Parameters;
use gf::Refusal;

// Settings keep the rules of a header: ps goes only with sbr and mono, and surround has three bits.
#[derive(Clone, Copy, PartialEq, Eq, Debug)]
pub struct Settings {
    // The subchannel index.
    size: usize,
    parameters: Parameters,
    ghost in_range: { (1 ≤ size) × (size ≤ 24) },
    ghost right: { sendable parameters ≡ true },
}

// Whether settings can say this.
fn is_sendable(parameters: &Parameters) -> bool
    ensures { result ≡ sendable parameters.now }
{
    parameters.surround < 8 && parameters.keeps_ps_rule()
}

impl Settings {
    ghost use Rattle.block.specs.SuperFrames.{size_of, parameters_of, parameter_byte, settings_complaints};

    // Refuses a size that is not 1 to 24, and then parameters that no header can say.
    pub fn new(size: usize, parameters: Parameters) -> Result<Settings, Refusal>
        ensures { Answers (settings_complaints size parameters) (λ s. (size_of s ≡ size) × (parameters_of s ≡ parameters)) result }
    {
        if !(1..=24).contains(&size) {
            return Err(Refusal::Size);
        }
        if !is_sendable(&parameters) {
            return Err(Refusal::Settings);
        }
        Ok(Settings { size, parameters })
    }

    // The subchannel index.
    pub fn size(&self) -> usize
        ensures { result ≡ size_of self.now }
    {
        self.size
    }

    pub fn parameters(&self) -> Parameters
        ensures { result ≡ parameters_of self.now }
    {
        self.parameters
    }

    // The parameter byte of the header.
    pub(crate) fn parameter_byte(&self) -> u8
        ensures { result ≡ parameter_byte self.now.parameters }
    {
        let Settings {
            parameters: Parameters {
                dac,
                sbr,
                mode,
                ps,
                surround,
            },
            ..
        } = *self;
        dac as u8 * 64 + u8::from(sbr) * 32 + mode as u8 * 16 + u8::from(ps) * 8 + surround
    }
}
