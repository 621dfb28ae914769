// Recordings of super frames, each compared with the text that describes it.
use crate::reading::{Words, read_block};
use crate::recording::Recording;
use std::alloc::{AllocError, Global};

pub const NAMES: [&str; 5] = [
    "s4_32k_sbr_mono",
    "s4_48k_nosbr_mono",
    "s6_32k_nosbr_mono",
    "s8_48k_sbr_stereo_pad",
    "s12_32k_sbr_stereo_sur1",
];

// What a text says of the header and the units of a block, or the refusal.
fn description(heap: Global, size: usize, block: &[u8]) -> Result<String, AllocError> {
    let mut block = block.to_vec(heap)?;
    match read_block(size, &mut block) {
        Err(refusal) => format!(in heap; "{refusal}"),
        Ok(reading) => {
            let left = reading.repair.rows_left;
            let Words {
                parameters,
                starts,
                units,
            } = reading.words(heap, &block)?;
            format!(in heap;
                "bad_rows {left} fire True param {parameters:02x} align True starts {starts} crc {units} "
            )
        }
    }
}

// How many blocks come out as the lines say, each beside its own. Counted in a loop, since a description can fail.
fn count_same(heap: Global, recording: &Recording, lines: &[&str]) -> Result<usize, AllocError> {
    let mut same = 0usize;
    for (n, line) in lines.iter().enumerate() {
        let block = recording.block(n).unwrap_or_default();
        if line.contains(description(heap, recording.size, block)?.as_str()) {
            same = same.saturating_add(1);
        }
    }
    Ok(same)
}

// Compares each block of a recording with its line of the text.
fn compare(rt: &HostRuntime, name: &str) -> anyhow::Result<()> {
    let heap = rt.alloc();
    let recording = Recording::read(rt, name)?;
    let recorded = recording.blocks();
    let lines: Vec<&str> = recording
        .lines()
        .filter(|line| line.starts_with("sf "))
        .collect(heap)?;
    let described = lines.len();
    let same = count_same(heap, &recording, &lines)?;
    let rest = if recorded > described {
        ", and more are recorded"
    } else {
        ""
    };
    println!(rt; "{name}: {described} super frames described, {same} come out so{rest}")?;
    Ok(())
}

pub fn compare_all(rt: &HostRuntime) -> anyhow::Result<()> {
    for name in NAMES {
        compare(rt, name)?;
    }
    Ok(())
}
