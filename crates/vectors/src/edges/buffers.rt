// Buffers of the right length, and of wrong ones, at every call that is lent one.
use super::draft::{Draft, TWO_UNITS, sealed_block, try_make};
use crate::answer::{Answer, Trial, as_error};
use crate::reading::{read_block, repair_block};
use block::Received;
use std::alloc::Global;
use std::fmt;

#[derive(Clone, Copy)]
enum Call {
    Repair,
    Open,
    Unit,
    Add,
    Seal,
    Frame,
    MakeSuperFrame,
}

const CALLS: [Call; 7] = [
    Call::Repair,
    Call::Open,
    Call::Unit,
    Call::Add,
    Call::Seal,
    Call::Frame,
    Call::MakeSuperFrame,
];

impl fmt::Display for Call {
    fn fmt<W: fmt::Write>(&self, f: &mut fmt::Formatter<W>) -> fmt::Result {
        f.write_str(match self {
            Call::Repair => "repair",
            Call::Open => "open",
            Call::Unit => "unit",
            Call::Add => "add",
            Call::Seal => "seal",
            Call::Frame => "frame",
            Call::MakeSuperFrame => "make_super_frame",
        })
    }
}

// A size, the lengths of two units that fill a super frame of it, and lengths of buffers: none, one byte short, right, one byte long.
#[derive(Clone, Copy)]
struct Case {
    size: usize,
    units: [usize; 2],
    buffers: [usize; 4],
}

const SMALL: Case = Case {
    size: 1,
    units: [100, 1],
    buffers: [0, 119, 120, 121],
};

const LARGE: Case = Case {
    size: 24,
    units: [1, 2630],
    buffers: [0, 2879, 2880, 2881],
};

// A case, with a block that is right.
#[derive(Drop)]
struct Sample {
    heap: Global,
    case: Case,
    block: Vec<u8>,
}

impl Sample {
    fn new(heap: Global, case: Case) -> anyhow::Result<Sample> {
        let block = sealed_block(heap, case.size, TWO_UNITS, &case.units)?;
        Ok(Sample { heap, case, block })
    }

    // The block, cut or made longer to so many bytes.
    fn buffer(&self, length: usize) -> anyhow::Result<Vec<u8>> {
        let mut buffer = self.block.clone()?;
        buffer.resize(length, 0)?;
        Ok(buffer)
    }

    fn try_repair(&self, length: usize) -> anyhow::Result<Trial> {
        let mut buffer = self.buffer(length)?;
        let before = buffer.clone()?;
        let received = Received::new(self.case.size).map_err(as_error)?;
        let text = format!(in self.heap; "{received:?}")?;
        let trial = Trial::of_state(self.heap, text.as_str(), received.repair(&mut buffer))?;
        Ok(trial.and(buffer == before))
    }

    fn try_open(&self, length: usize) -> anyhow::Result<Trial> {
        let buffer = self.buffer(length)?;
        let (repaired, _) = repair_block(self.case.size, &mut self.block.clone()?).map_err(
            as_error,
        )?;
        let text = format!(in self.heap; "{repaired:?}")?;
        Ok(Trial::of_state(self.heap, text.as_str(), repaired.open(&buffer))?)
    }

    fn try_unit(&self, length: usize) -> anyhow::Result<Trial> {
        let buffer = self.buffer(length)?;
        let reading = read_block(self.case.size, &mut self.block.clone()?).map_err(as_error)?;
        Ok(Trial::new(Answer::of(reading.opened.unit(&buffer, 0)), true))
    }

    fn try_add(&self, length: usize) -> anyhow::Result<Trial> {
        Ok(Draft::begun(self.heap, self.case.size, &[], length)?.try_add(1)?)
    }

    fn try_seal(&self, length: usize) -> anyhow::Result<Trial> {
        Ok(Draft::begun(self.heap, self.case.size, &self.case.units, length)?.try_seal()?)
    }

    fn try_frame(&self, length: usize) -> anyhow::Result<Trial> {
        let buffer = self.buffer(length)?;
        let draft = Draft::begun(
            self.heap,
            self.case.size,
            &self.case.units,
            self.block.len(),
        )?;
        let (sealed, _) = draft.seal().map_err(as_error)?;
        Ok(Trial::new(Answer::of(sealed.frame(&buffer, 0)), true))
    }

    // Tries a call with a buffer of so many bytes.
    fn try_call(&self, call: Call, length: usize) -> anyhow::Result<Trial> {
        match call {
            Call::Repair => self.try_repair(length),
            Call::Open => self.try_open(length),
            Call::Unit => self.try_unit(length),
            Call::Add => self.try_add(length),
            Call::Seal => self.try_seal(length),
            Call::Frame => self.try_frame(length),
            Call::MakeSuperFrame => Ok(try_make(
                self.heap,
                self.case.size,
                &self.case.units,
                length,
            )?),
        }
    }

    fn print(&self, rt: &HostRuntime, call: Call) -> anyhow::Result<()> {
        let size = self.case.size;
        for length in self.case.buffers {
            let trial = self.try_call(call, length)?;
            println!(rt; "{call}, size {size}, buffer of {length} bytes: {trial}")?;
        }
        Ok(())
    }
}

pub fn print_all(rt: &HostRuntime) -> anyhow::Result<()> {
    let small = Sample::new(rt.alloc(), SMALL)?;
    let large = Sample::new(rt.alloc(), LARGE)?;
    for call in CALLS {
        small.print(rt, call)?;
        large.print(rt, call)?;
    }
    Ok(())
}
