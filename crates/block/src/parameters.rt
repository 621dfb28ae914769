// The parameters of a super frame, and the layout that follows from them.
ghost use Rattle.std.specs.Prelude.{◌≡◌, ◌<◌, Some};
ghost use Rattle.block.specs.Layouts.{flag, keeps_ps_rule, read, layout};
ghost use Rattle.block.specs.Texts.{rate_text, mode_text, parameters_text};

use super::fault::HeaderFault;
use std::fmt;

// The sampling rate of the decoder's output. The numbers are those of its bit in the parameter byte, and so with the channel mode.
#[derive(Clone, Copy, PartialEq, Eq, Debug)]
pub enum DacRate {
    Khz32 = 0,
    Khz48 = 1,
}

#[derive(Clone, Copy, PartialEq, Eq, Debug)]
pub enum ChannelMode {
    Mono = 0,
    Stereo = 1,
}

// What the parameter byte says of the audio.
#[derive(Clone, Copy, PartialEq, Eq, Debug)]
pub struct Parameters {
    pub dac: DacRate,
    // Whether spectral band replication is used.
    pub sbr: bool,
    pub mode: ChannelMode,
    // Whether parametric stereo is used.
    pub ps: bool,
    // The surround configuration, 0 to 7.
    pub surround: u8,
}

// Units in a super frame, bytes in its header, and whether four bits fill the header's last byte.
#[derive(Clone, Copy, PartialEq, Eq, Debug)]
pub struct Layout {
    pub units: usize,
    pub header_length: usize,
    pub aligned: bool,
}

// By the rate and by whether sbr is used.
const LAYOUTS: [[Layout; 2]; 2] = [
    [
        Layout {
            units: 4,
            header_length: 8,
            aligned: true,
        },
        Layout {
            units: 2,
            header_length: 5,
            aligned: true,
        },
    ],
    [
        Layout {
            units: 6,
            header_length: 11,
            aligned: true,
        },
        Layout {
            units: 3,
            header_length: 6,
            aligned: false,
        },
    ],
];

// Whether a bit of the byte is 1, the top bit being bit 0.
fn is_set(byte: u8, place: u32) -> bool
    requires { place < 8 }
    ensures { result ≡ flag byte place }
{
    (byte >> (7 - place)) % 2 == 1
}

impl TryFrom<u8> for Parameters {
    type Error = HeaderFault;

    ghost try_from_gives = { λ byte outcome. outcome ≡ read byte };

    // Takes the parameter byte apart. The enums are made of a bit here, and by no `From<bool>`, so that it shows what a 1 means.
    fn try_from(byte: u8) -> Result<Parameters, HeaderFault> {
        let reserved = is_set(byte, 0);
        let dac = if is_set(byte, 1) {
            DacRate::Khz48
        } else {
            DacRate::Khz32
        };
        let sbr = is_set(byte, 2);
        let mode = if is_set(byte, 3) {
            ChannelMode::Stereo
        } else {
            ChannelMode::Mono
        };
        let parameters = Parameters {
            dac,
            sbr,
            mode,
            ps: is_set(byte, 4),
            surround: byte % 8,
        };
        if reserved || !parameters.keeps_ps_rule() {
            return Err(HeaderFault::Parameters);
        }
        Ok(parameters)
    }
}

impl Parameters {
    pub fn layout(&self) -> Layout
        ensures { result ≡ layout self.now.dac self.now.sbr }
    {
        LAYOUTS[self.dac as usize][usize::from(self.sbr)]
    }

    // Parametric stereo goes only with sbr and mono.
    pub(crate) fn keeps_ps_rule(&self) -> bool
        ensures { result ≡ keeps_ps_rule self.now }
    {
        !self.ps || self.sbr && self.mode == ChannelMode::Mono
    }
}

impl fmt::Display for DacRate {
    ghost output = { λ rate. Some (rate_text rate) };

    fn fmt<W: fmt::Write>(&self, f: &mut fmt::Formatter<W>) -> fmt::Result {
        f.write_str(match self {
            DacRate::Khz32 => "32 kHz",
            DacRate::Khz48 => "48 kHz",
        })
    }
}

impl fmt::Display for ChannelMode {
    ghost output = { λ mode. Some (mode_text mode) };

    fn fmt<W: fmt::Write>(&self, f: &mut fmt::Formatter<W>) -> fmt::Result {
        f.write_str(match self {
            ChannelMode::Mono => "mono",
            ChannelMode::Stereo => "stereo",
        })
    }
}

impl fmt::Display for Parameters {
    ghost output = { λ shown. Some (parameters_text shown) };

    fn fmt<W: fmt::Write>(&self, f: &mut fmt::Formatter<W>) -> fmt::Result {
        let dac = self.dac;
        let sbr = if self.sbr { "sbr" } else { "no sbr" };
        let mode = self.mode;
        let ps = if self.ps { "ps" } else { "no ps" };
        let surround = self.surround;
        write!(f, "{dac}, {sbr}, {mode}, {ps}, surround {surround}")
    }
}
