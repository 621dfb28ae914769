// Recordings taken apart and made again: the new super frames are compared with the old ones, byte for byte.
use crate::answer::as_error;
use crate::reading::{Reading, read_block};
use crate::recording::Recording;
use crate::recordings::NAMES;
use anyhow::ensure;
use block::{OpenWriter, Opened, SealedWriter, Settings, make_super_frame};
use gf::Refusal;
use std::alloc::Global;

// How many super frames were made again, and how many came out the same.
#[derive(Clone, Copy, Default)]
struct Tally {
    sealed: usize,
    same_bytes: usize,
    same_frames: usize,
    same_by_unit: usize,
}

// What a super frame was made of.
#[derive(Drop)]
struct Parts<'b> {
    settings: Settings,
    units: Vec<&'b [u8]>,
}

// Opens a super frame in which nothing may be wrong.
fn open_flawless(size: usize, block: &mut [u8]) -> anyhow::Result<Opened> {
    let Reading { repair, opened } = read_block(size, block).map_err(as_error)?;
    ensure!(repair.changed == 0, "bytes have changed");
    ensure!(repair.rows_left == 0, "rows are left");
    Ok(opened)
}

// What an opened super frame is made of.
fn parts_of<'b>(heap: Global, opened: &Opened, block: &'b [u8]) -> anyhow::Result<Parts<'b>> {
    let header = opened.header();
    let settings = Settings::new(header.size, header.parameters).map_err(as_error)?;
    let mut units = Vec::new(heap);
    for n in 0..header.parameters.layout().units {
        units.push(opened.unit(block, n).map_err(as_error)?.bytes)?;
    }
    Ok(Parts { settings, units })
}

// Makes a super frame of its parts, one unit after the other.
fn seal_by_unit(parts: &Parts<'_>, block: &mut [u8]) -> Result<SealedWriter, Refusal> {
    let mut writer = OpenWriter::new(parts.settings);
    for unit in &parts.units {
        writer.add(block, unit)?;
    }
    Ok(writer.seal(block)?)
}

// The five frames, one behind another.
fn frames(heap: Global, sealed: &SealedWriter, block: &[u8]) -> anyhow::Result<Vec<u8>> {
    let mut frames = Vec::new(heap);
    for n in 0..5 {
        frames.extend_from_slice(sealed.frame(block, n).map_err(as_error)?)?;
    }
    Ok(frames)
}

// A super frame that was made again.
#[derive(Drop)]
struct Remade {
    // Its bytes where it was made by one call, and its five frames.
    bytes: Vec<u8>,
    frames: Vec<u8>,
    // Its bytes where it was made unit by unit.
    by_unit: Vec<u8>,
}

impl Remade {
    fn of(heap: Global, parts: &Parts<'_>, length: usize) -> anyhow::Result<Remade> {
        let mut bytes = vec![in heap; 0x5au8; length]?;
        let sealed = make_super_frame(parts.settings, &parts.units, &mut bytes).map_err(as_error)?;
        let frames = frames(heap, &sealed, &bytes)?;
        let mut by_unit = vec![in heap; 0xa5u8; length]?;
        seal_by_unit(parts, &mut by_unit).map_err(as_error)?;
        Ok(Remade {
            bytes,
            frames,
            by_unit,
        })
    }
}

// Takes a super frame apart, and makes it again.
fn remake(heap: Global, size: usize, recorded: &[u8]) -> anyhow::Result<Remade> {
    let mut lent = recorded.to_vec(heap)?;
    let opened = open_flawless(size, &mut lent)?;
    let parts = parts_of(heap, &opened, &lent)?;
    Remade::of(heap, &parts, recorded.len())
}

impl Tally {
    // Counts a super frame that was made again.
    fn count(&mut self, recorded: &[u8], remade: &Remade) {
        let Remade {
            bytes,
            frames,
            by_unit,
        } = remade;
        self.sealed = self.sealed.saturating_add(1);
        self.same_bytes = self
            .same_bytes
            .saturating_add(usize::from(bytes.as_slice() == recorded));
        self.same_frames = self
            .same_frames
            .saturating_add(usize::from(frames.as_slice() == recorded));
        self.same_by_unit = self
            .same_by_unit
            .saturating_add(usize::from(by_unit.as_slice() == recorded));
    }
}

fn compare(rt: &HostRuntime, name: &str) -> anyhow::Result<()> {
    let recording = Recording::read(rt, name)?;
    let mut tally = Tally::default();
    for n in 0..recording.blocks() {
        let block = recording.block(n).unwrap_or_default();
        tally.count(block, &remake(rt.alloc(), recording.size, block)?);
    }
    let Tally {
        sealed,
        same_bytes,
        same_frames,
        same_by_unit,
    } = tally;
    println!(rt; "{name}: {sealed} super frames sealed again, {same_bytes} the same bytes")?;
    println!(rt;
        "{name}: {same_frames} the same in five frames, {same_by_unit} the same made unit by unit"
    )?;
    Ok(())
}

pub fn compare_all(rt: &HostRuntime) -> anyhow::Result<()> {
    for name in NAMES {
        compare(rt, name)?;
    }
    Ok(())
}
