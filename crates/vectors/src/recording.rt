// A recording of logical frames, and the text that describes it.
use anyhow::Context;
use std::fs;
use std::str::Lines;

#[derive(Drop)]
pub struct Recording {
    // The subchannel index.
    pub size: usize,
    bytes: Vec<u8>,
    text: String,
}

// The size in a text, which has a line such as `s 8`.
fn size_in(text: &str) -> anyhow::Result<usize> {
    let size = text
        .lines()
        .find_map(|line| line.strip_prefix("s "))
        .context("a text without its size")?;
    Ok(size.parse()?)
}

impl Recording {
    // Reads `NAME.dabp`, and `NAME.txt` beside it, which has the size.
    pub fn read(rt: &HostRuntime, name: &str) -> anyhow::Result<Recording> {
        let heap = rt.alloc();
        let bytes = fs::read(rt, format!(in heap; "{name}.dabp")?.as_str())?;
        let text = fs::read_to_string(rt, format!(in heap; "{name}.txt")?.as_str())?;
        let size = size_in(&text)?;
        Ok(Recording { size, bytes, text })
    }

    pub fn lines(&self) -> Lines<'_> {
        self.text.as_str().lines()
    }

    fn block_length(&self) -> usize {
        self.size.saturating_mul(120)
    }

    // How many blocks are recorded; what is left behind the last whole one counts as one.
    pub fn blocks(&self) -> usize {
        let length = self.block_length().max(1);
        self.bytes.as_slice().chunks(length).len()
    }

    // Block `n`, which is the five frames from frame 5 * n on.
    pub fn block(&self, n: usize) -> Option<&[u8]> {
        self.block_up_to(n.saturating_mul(5).saturating_add(4))
    }

    // The five frames of which frame `last` is the last, counted from 0.
    pub fn block_up_to(&self, last: usize) -> Option<&[u8]> {
        let frame = self.size.saturating_mul(24);
        let end = frame.saturating_mul(last.saturating_add(1));
        let start = end.checked_sub(self.block_length())?;
        self.bytes.as_slice().get(start..end)
    }
}
