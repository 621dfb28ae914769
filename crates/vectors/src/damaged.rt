// Damaged recordings: what repairing and opening answer, compared with what the texts say of the frames.
use crate::reading::{Reading, Words, read_block};
use crate::recording::Recording;
use gf::Refusal;
use interleaver::Repair;
use std::alloc::{AllocError, Global};

const NAMES: [&str; 3] = ["s8_upto5", "s12_rows_left", "s4_foreign_frame"];

// The words of a text for a block that is refused.
fn missed_text(heap: Global, refusal: Refusal) -> Result<String, AllocError> {
    let number = refusal.number();
    let layer = refusal.layer().number();
    let place = refusal.place();
    format!(in heap; "missed {number} layer {layer} place {place}")
}

// Whether the rows of a list are as many as are left, and the lowest of them the first.
fn lists_rows_left(list: &str, repair: &Repair) -> bool {
    let rows = list.split(", ").filter(|row| !row.is_empty()).count();
    let first = list.split(", ").find_map(|row| row.parse::<usize>().ok());
    rows == repair.rows_left && first == repair.lowest_left
}

// Whether the text says so of a block that is repaired and open.
fn tells_of(heap: Global, told: &str, reading: &Reading, block: &[u8]) -> Result<bool, AllocError> {
    let changed = reading.repair.changed;
    let Words {
        parameters,
        starts,
        units,
    } = reading.words(heap, block)?;
    let front = format!(in heap;
        "delivered param {parameters:02x} starts {starts} changed {changed} left ["
    )?;
    let back = format!(in heap; "] units {units}")?;
    Ok(
        told.strip_prefix(front.as_str())
            .and_then(|rest| rest.strip_suffix(back.as_str()))
            .is_some_and(|list| lists_rows_left(list, &reading.repair)),
    )
}

// Whether the block is refused so, or repaired and opened so.
fn comes_out_so(heap: Global, size: usize, block: &[u8], told: &str) -> Result<bool, AllocError> {
    let mut block = block.to_vec(heap)?;
    match read_block(size, &mut block) {
        Err(refusal) => Ok(missed_text(heap, refusal)?.as_str() == told),
        Ok(reading) => tells_of(heap, told, &reading, &block),
    }
}

// The number of the frame, and what is told of the block that ends with it. A line that tells of none, as where a frame is held, has none.
fn told_of_block(line: &str) -> Option<(usize, &str)> {
    let (number, rest) = line.split_once(": ")?;
    let (told, _) = rest.split_once(" | ")?;
    let last = number.parse::<usize>().ok()?;
    if told == "held" {
        None
    } else {
        Some((last, told))
    }
}

// How many blocks a text tells of, and how many come out as it says.
#[derive(Clone, Copy, Default)]
struct Tally {
    described: usize,
    opened: usize,
    refused: usize,
}

impl Tally {
    // Counts a block that is described, and whether it comes out so.
    fn count(&mut self, told: &str, same: bool) {
        self.described = self.described.saturating_add(1);
        if same && told.starts_with("delivered ") {
            self.opened = self.opened.saturating_add(1);
        } else if same {
            self.refused = self.refused.saturating_add(1);
        }
    }
}

// Compares each block that a text tells of with what it says.
fn compare(rt: &HostRuntime, name: &str) -> anyhow::Result<()> {
    let heap = rt.alloc();
    let recording = Recording::read(rt, name)?;
    let mut tally = Tally::default();
    for (last, told) in recording.lines().filter_map(told_of_block) {
        let block = recording.block_up_to(last).unwrap_or_default();
        tally.count(told, comes_out_so(heap, recording.size, block, told)?);
    }
    let Tally {
        described,
        opened,
        refused,
    } = tally;
    println!(rt;
        "{name}: {described} blocks described, {opened} repaired and opened so, {refused} refused so"
    )?;
    Ok(())
}

pub fn compare_all(rt: &HostRuntime) -> anyhow::Result<()> {
    for name in NAMES {
        compare(rt, name)?;
    }
    Ok(())
}
