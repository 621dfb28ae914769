// Every refusal of the library: its number, its word, the layer that gives it, and the place it speaks of.
ghost use Rattle.std.specs.Prelude.{◌≡◌, Some};
ghost use Rattle.gf.specs.Refusals.{entry, rank, display};

use std::fmt;

// Why a call did nothing.
#[derive(Clone, Copy, PartialEq, Eq, Debug)]
pub enum Refusal {
    // The subchannel index is not 1 to 24.
    Size,
    // The block buffer has not 120 bytes times the subchannel index, or the queue buffer not 768 bytes times it.
    Buffer,
    // A value of the settings is out of range, or ps goes without sbr or with stereo.
    Settings,
    // The rule for adding a unit fails.
    UnitLength,
    // All units are in.
    Overfull,
    // Units are missing at the sealing.
    Unfinished,
    // A word, a number of checks, a divisor or another buffer is not as admitted.
    Shape,
    // No codeword is near enough.
    BeyondRepair,
    // The Fire word differs.
    Fire,
    // The reserved bit is 1, or ps goes without sbr or with stereo.
    Parameters,
    // The four bits at the header's end are not zero.
    Alignment { last_byte: u8 },
    // A start is less than three bytes after the one before.
    Starts { number: u8 },
    // The unit or frame number is not there.
    Index,
    // The check of the unit is wrong.
    UnitCheck { unit: u8 },
    // The frame's length is not the source's.
    FrameLength,
    // An offer finds no free place.
    Full,
    // The patience is not 1 to 16.
    Patience,
}

// Where a refusal comes from.
#[derive(Clone, Copy, PartialEq, Eq, Debug)]
pub enum Layer {
    Arguments = 0,
    Source = 1,
    Row = 2,
    Header = 3,
    Unit = 4,
}

impl Layer {
    pub fn number(self) -> u8
        ensures { result ≡ rank self }
    {
        self as u8
    }
}

// What is published of a refusal.
#[derive(Clone, Copy)]
struct Entry {
    number: u8,
    word: &'static str,
    layer: Layer,
    place: u8,
}

impl Entry {
    fn new(number: u8, word: &'static str, layer: Layer, place: u8) -> Entry
        ensures number { result.number ≡ number }
        ensures word { result.word.now ≡ word.now }
        ensures layer { result.layer ≡ layer }
        ensures place { result.place ≡ place }
    {
        Entry {
            number,
            word,
            layer,
            place,
        }
    }
}

impl Refusal {
    // One row for each refusal. The numbers stand here, since no cast takes an enum whose variants have fields.
    fn published(self) -> Entry
        ensures number { result.number ≡ (entry self).number }
        ensures word { result.word.now ≡ (entry self).word }
        ensures layer { result.layer ≡ (entry self).layer }
        ensures place { result.place ≡ (entry self).place }
    {
        match self {
            Self::Size => Entry::new(1, "size", Layer::Arguments, 0),
            Self::Buffer => Entry::new(2, "buffer", Layer::Arguments, 0),
            Self::Settings => Entry::new(3, "settings", Layer::Arguments, 0),
            Self::UnitLength => Entry::new(4, "unit length", Layer::Arguments, 0),
            Self::Overfull => Entry::new(5, "overfull", Layer::Arguments, 0),
            Self::Unfinished => Entry::new(6, "unfinished", Layer::Arguments, 0),
            Self::Shape => Entry::new(7, "shape", Layer::Arguments, 0),
            Self::BeyondRepair => Entry::new(8, "beyond repair", Layer::Row, 0),
            Self::Fire => Entry::new(9, "Fire", Layer::Header, 0),
            Self::Parameters => Entry::new(10, "parameters", Layer::Header, 2),
            Self::Alignment { last_byte } => Entry::new(11, "alignment", Layer::Header, last_byte),
            Self::Starts { number } => Entry::new(12, "starts", Layer::Header, number),
            Self::Index => Entry::new(13, "index", Layer::Arguments, 0),
            Self::UnitCheck { unit } => Entry::new(14, "unit check", Layer::Unit, unit),
            Self::FrameLength => Entry::new(15, "frame length", Layer::Source, 0),
            Self::Full => Entry::new(16, "full", Layer::Source, 0),
            Self::Patience => Entry::new(17, "patience", Layer::Arguments, 0),
        }
    }

    // A number, since it is published and given to C.
    pub fn number(self) -> u8
        ensures { result ≡ (entry self).number }
    {
        self.published().number
    }

    pub fn word(self) -> &'static str
        ensures { result.now ≡ (entry self).word }
    {
        self.published().word
    }

    pub fn layer(self) -> Layer
        ensures { result ≡ (entry self).layer }
    {
        self.published().layer
    }

    // The byte, start or unit that the refusal speaks of. Where it speaks of none it is 0, and not None: the number is published.
    pub fn place(self) -> u8
        ensures { result ≡ (entry self).place }
    {
        self.published().place
    }
}

impl fmt::Display for Refusal {
    ghost output = { λ refusal. Some (display refusal) };

    fn fmt<W: fmt::Write>(&self, f: &mut fmt::Formatter<W>) -> fmt::Result {
        let number = self.number();
        let word = self.word();
        let layer = self.layer().number();
        let place = self.place();
        write!(f, "refused {number} {word}, layer {layer}, place {place}")
    }
}
