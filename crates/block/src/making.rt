// Making a super frame of settings and units in one call.
ghost use Rattle.std.specs.Prelude.{map, IfOk};
ghost use Rattle.block.specs.Writing.{Makes, MadeByCalls};
ghost use Rattle.block.specs.Laws.{ReadsAs, SealingWhatWasAdded, SealingWhatWasHeld};
ghost use Rattle.block.specs.Examples.{ExamplesHold};

use super::settings::Settings;
use super::sized_block::check_buffer;
use super::writer::{OpenWriter, SealedWriter};
use gf::Refusal;

// Writes the whole block of the super frame that settings and units make: the units are added one by one, and then it is sealed.
pub fn make_super_frame(
    settings: Settings,
    units: &[&[u8]],
    block: &mut [u8],
) -> Result<SealedWriter, Refusal>
    ensures makes { Makes settings (map (λ unit. unit.now) units.now) block.old block.new result }
    ensures reads { IfOk result (λ _. ReadsAs settings (map (λ unit. unit.now) units.now) block.new) }
    ensures calls { IfOk result (λ sealed. MadeByCalls settings (map (λ unit. unit.now) units.now) block.old block.new sealed) }
    ensures added { SealingWhatWasAdded }
    ensures again { SealingWhatWasHeld }
    ensures examples { ExamplesHold }
{
    // Before the first byte is written, so that a refusal changes nothing. Behind this no call is refused.
    check_buffer(settings.size(), block)?;
    OpenWriter::check_units(settings, units)?;
    let mut writer = OpenWriter::new(settings);
    for unit in units {
        writer.add(block, unit)?;
    }
    Ok(writer.seal(block)?)
}
