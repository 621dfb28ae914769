// Writing a super frame: units are added one behind another, then it is sealed, then its logical frames are handed out.
ghost use Rattle.std.specs.Prelude.{◌≡◌, ◌+◌, ◌-◌, ◌*◌, ◌<◌, ◌≤◌, ◌++◌, ◌==◌, map, length, take, drop, slice_index, MatchResult, Ok, Err};
ghost use Rattle.gf.specs.Refusals.{Answers, Performs};
ghost use Rattle.block.specs.Checks.{fire_word};
ghost use Rattle.block.specs.Places.{Placed, units_in};
ghost use Rattle.block.specs.SuperFrames.{layout_for, superframe, two_bytes};

use super::checks::{fire_word, unit_check};
use super::packed_starts::pack;
use super::parameters::Layout;
use super::refused::Refused;
use super::rows::fill_rows;
use super::settings::Settings;
use super::sized_block::{FRAME_BYTES, FRAMES, SUPER_FRAME_BYTES, check_buffer};
use gf::Refusal;

// A super frame that units are added to. Its bytes stay with the caller and are lent at each call, here and when it is sealed.
#[derive(Drop, Debug)]
pub struct OpenWriter {
    settings: Settings,
    // Where each unit so far starts, and behind them where the next one does, then zeros.
    starts: [u16; 7],
    // How many units are in.
    added: usize,
    ghost placed: { Placed settings starts added },
}

// A super frame whose block is whole.
#[derive(Drop, Debug)]
pub struct SealedWriter {
    // The subchannel index.
    size: usize,
    ghost in_range: { (1 ≤ size) × (size ≤ 24) },
}

impl OpenWriter {
    ghost use Rattle.block.specs.Writing.{Begins, add_complaints, OneMore, Adds, sealing_complaints, Seals};
    ghost use Rattle.block.specs.steps.Writing.{WholeAndSized, with_header, with_unit_checks, Admits};

    // An open super frame with no units in it.
    pub fn new(settings: Settings) -> OpenWriter
        ensures { Begins settings result }
    {
        let layout = settings.parameters().layout();
        let mut starts = [0; 7];
        starts[0] = layout.header_length as u16;
        OpenWriter {
            settings,
            starts,
            added: 0,
        }
    }

    fn layout(&self) -> Layout
        ensures { result ≡ layout_for self.now.settings }
    {
        self.settings.parameters().layout()
    }

    // Makes room for a unit of so many bytes, and answers where it starts.
    fn reserve(&mut self, length: usize) -> Result<usize, Refusal>
        ensures { Performs (add_complaints self.old length)
            (λ start. (start ≡ slice_index self.old.starts self.old.added) × OneMore self.old length self.new)
            (self.new ≡ self.old) result }
    {
        let units = self.layout().units;
        if self.added >= units {
            return Err(Refusal::Overfull);
        }
        let following = units - self.added - 1;
        let start = usize::from(self.starts[self.added]);
        let room = SUPER_FRAME_BYTES * self.settings.size() - start - 2 - 3 * following;
        if !(1..=room).contains(&length) || following == 0 && length != room {
            return Err(Refusal::UnitLength);
        }
        self.starts[self.added + 1] = (start + length + 2) as u16;
        self.added += 1;
        Ok(start)
    }

    // Whether the units fill the super frame, so that each can be added in its order.
    pub(crate) fn check_units(settings: Settings, units: &[&[u8]]) -> Result<(), Refusal>
        ensures { Admits settings (map (λ unit. unit.now) units.now) result }
    {
        let mut writer = OpenWriter::new(settings);
        // Before the units are looked at one by one, since this refusal comes before that of a length.
        if units.len() > writer.layout().units {
            return Err(Refusal::Overfull);
        }
        for unit in units {
            writer.reserve(unit.len())?;
        }
        if writer.added < writer.layout().units {
            return Err(Refusal::Unfinished);
        }
        Ok(())
    }

    // Adds a unit: copies its bytes into the block, behind the units that are in.
    pub fn add(&mut self, block: &mut [u8], unit: &[u8]) -> Result<(), Refusal>
        ensures { Adds self.old self.new unit.now block.old block.new result }
    {
        check_buffer(self.settings.size(), block)?;
        let start = self.reserve(unit.len())?;
        block[start..start + unit.len()].copy_from_slice(unit);
        Ok(())
    }

    // Writes the parameters, and the starts of all units but the first.
    fn write_header(&self, block: &mut [u8])
        requires { WholeAndSized self.now block.old }
        ensures { block.new ≡ with_header self.now block.old }
    {
        let layout = self.layout();
        block[2] = self.settings.parameter_byte();
        pack(
            &self.starts[1..layout.units],
            &mut block[3..layout.header_length],
        );
    }

    // Writes the check behind each unit.
    fn write_unit_checks(&self, block: &mut [u8])
        requires { WholeAndSized self.now block.old }
        ensures { block.new ≡ with_unit_checks self.now block.old }
    {
        for n in 0..self.added {
            let start = usize::from(self.starts[n]);
            let end = usize::from(self.starts[n + 1]) - 2;
            let check = unit_check(&block[start..end]);
            block[end..end + 2].copy_from_slice(&check.to_be_bytes());
        }
    }

    // Whether the buffer has the length of a block, and all units are in.
    fn check_whole(&self, block: &[u8]) -> Result<(), Refusal>
        ensures { Answers (sealing_complaints self.now block.now) (λ _. WholeAndSized self.now block.now) result }
    {
        check_buffer(self.settings.size(), block)?;
        if self.added < self.layout().units {
            return Err(Refusal::Unfinished);
        }
        Ok(())
    }

    // Writes all but the units.
    fn write_all(&self, block: &mut [u8]) -> SealedWriter
        requires { WholeAndSized self.now block.old }
        ensures size { result.size ≡ self.now.settings.size }
        ensures block { block.new ≡ superframe self.now.settings (units_in self.now.starts self.now.added block.old) }
    {
        self.write_header(block);
        self.write_unit_checks(block);
        // Behind the units' checks, since short units bring these into the nine bytes.
        write_fire_word(block);
        fill_rows(self.settings.size(), block);
        SealedWriter {
            size: self.settings.size(),
        }
    }

    // Writes the header, the checks of the units and those of the rows, once all units are in.
    pub fn seal(self, block: &mut [u8]) -> Result<SealedWriter, Refused<OpenWriter>>
        ensures { MatchResult result (λ sealed. Seals self block.old block.new (Ok sealed)) (λ refused. Seals self block.old block.new (Err refused.refusal) × (refused.state ≡ self)) }
    {
        if let Err(refusal) = self.check_whole(block) {
            return Err(Refused {
                state: self,
                refusal,
            });
        }
        Ok(self.write_all(block))
    }
}

// Writes the Fire word of the nine bytes behind it.
fn write_fire_word(block: &mut [u8])
    requires { 11 ≤ length block.old }
    ensures { block.new ≡ two_bytes (fire_word (take 9 (drop 2 block.old))) ++ drop 2 block.old }
{
    let fire = fire_word(&block[2..11]);
    block[..2].copy_from_slice(&fire.to_be_bytes());
}

impl SealedWriter {
    ghost use Rattle.block.specs.Writing.{HandsOut};

    // Logical frame `n`, 0 to 4.
    pub fn frame<'b>(&self, block: &'b [u8], n: usize) -> Result<&'b [u8], Refusal>
        ensures { MatchResult result (λ frame. HandsOut self.now block.now n (Ok frame.now)) (λ refusal. HandsOut self.now block.now n (Err refusal)) }
    {
        check_buffer(self.size, block)?;
        if n >= FRAMES {
            return Err(Refusal::Index);
        }
        let length = FRAME_BYTES * self.size;
        Ok(&block[length * n..length * (n + 1)])
    }
}
