// A super frame that is being written, with its buffer.
use crate::answer::{Answer, Trial, as_error};
use block::{
    ChannelMode, DacRate, OpenWriter, Parameters, SealedWriter, Settings, make_super_frame,
};
use gf::Refusal;
use std::alloc::{AllocError, Global};

// 32 kHz, sbr, mono: two units.
pub const TWO_UNITS: Parameters = Parameters {
    dac: DacRate::Khz32,
    sbr: true,
    mode: ChannelMode::Mono,
    ps: false,
    surround: 0,
};

#[derive(Drop)]
pub struct Draft {
    heap: Global,
    writer: OpenWriter,
    pub buffer: Vec<u8>,
}

// A unit of so many bytes, none of which is zero.
pub fn unit_of(heap: Global, length: usize) -> Result<Vec<u8>, AllocError> {
    (0..length).map(|n| (n % 255) as u8 + 1).collect(heap)
}

impl Draft {
    // A super frame with no units in it, in a buffer that holds something else.
    pub fn new(heap: Global, size: usize, parameters: Parameters) -> anyhow::Result<Draft> {
        let settings = Settings::new(size, parameters).map_err(as_error)?;
        Ok(Draft {
            heap,
            writer: OpenWriter::new(settings),
            buffer: vec![in heap; 0xa5u8; size.saturating_mul(120)]?,
        })
    }

    // A super frame of two units with units of these lengths in it, and its buffer cut or made longer to so many bytes.
    pub fn begun(
        heap: Global,
        size: usize,
        lengths: &[usize],
        buffer: usize,
    ) -> anyhow::Result<Draft> {
        let mut draft = Draft::new(heap, size, TWO_UNITS)?;
        draft.add_all(lengths)?;
        draft.buffer.resize(buffer, 0)?;
        Ok(draft)
    }

    // Adds units of these lengths.
    pub fn add_all(&mut self, lengths: &[usize]) -> anyhow::Result<()> {
        for length in lengths {
            let unit = unit_of(self.heap, *length)?;
            self.writer.add(&mut self.buffer, &unit).map_err(as_error)?;
        }
        Ok(())
    }

    // The writer and the bytes of its buffer, written out.
    fn text(&self) -> Result<String, AllocError> {
        let Draft { writer, buffer, .. } = self;
        format!(in self.heap; "{writer:?} {buffer:?}")
    }

    // Tries to add a unit of this length.
    pub fn try_add(&mut self, length: usize) -> Result<Trial, AllocError> {
        let unit = unit_of(self.heap, length)?;
        let before = self.text()?;
        let answer = Answer::of(self.writer.add(&mut self.buffer, &unit));
        let after = self.text()?;
        Ok(Trial::new(answer, after.as_str() == before.as_str()))
    }

    // Tries to seal.
    pub fn try_seal(self) -> Result<Trial, AllocError> {
        let Draft {
            heap,
            writer,
            mut buffer,
        } = self;
        let text = format!(in heap; "{writer:?}")?;
        let before = buffer.clone()?;
        let trial = Trial::of_state(heap, text.as_str(), writer.seal(&mut buffer))?;
        Ok(trial.and(buffer == before))
    }

    // Seals, and hands out the block with its writer.
    pub fn seal(self) -> Result<(SealedWriter, Vec<u8>), Refusal> {
        let Draft {
            writer,
            mut buffer,
            ..
        } = self;
        let sealed = writer.seal(&mut buffer)?;
        Ok((sealed, buffer))
    }
}

// The block of a super frame with units of these lengths.
pub fn sealed_block(
    heap: Global,
    size: usize,
    parameters: Parameters,
    lengths: &[usize],
) -> anyhow::Result<Vec<u8>> {
    let mut draft = Draft::new(heap, size, parameters)?;
    draft.add_all(lengths)?;
    let (_, block) = draft.seal().map_err(as_error)?;
    Ok(block)
}

// Units of these lengths.
fn units_of(heap: Global, lengths: &[usize]) -> Result<Vec<Vec<u8>>, AllocError> {
    let mut units = Vec::new(heap);
    for length in lengths {
        units.push(unit_of(heap, *length)?)?;
    }
    Ok(units)
}

// Makes a super frame with the settings of two units, by one call.
fn make(size: usize, units: &[&[u8]], buffer: &mut [u8]) -> Result<SealedWriter, Refusal> {
    make_super_frame(Settings::new(size, TWO_UNITS)?, units, buffer)
}

// Tries to make a super frame of units of these lengths, in a buffer of so many bytes.
pub fn try_make(
    heap: Global,
    size: usize,
    lengths: &[usize],
    buffer: usize,
) -> Result<Trial, AllocError> {
    let units = units_of(heap, lengths)?;
    let lent: Vec<&[u8]> = units.iter().map(|unit| unit.as_slice()).collect(heap)?;
    let mut buffer = vec![in heap; 0xa5u8; buffer]?;
    let before = buffer.clone()?;
    let answer = Answer::of(make(size, &lent, &mut buffer));
    Ok(Trial::new(answer, buffer == before))
}
