// Numbers of units and frames, there and past the end, and a unit whose check is wrong.
use super::draft::{Draft, TWO_UNITS, sealed_block};
use crate::answer::{Answer, as_error};
use crate::reading::{read_block, starts_text};
use block::{AccessUnit, DacRate, Opened, Parameters, UnitPlace};

// The rate flags, and units that fill a super frame of size 1.
#[derive(Clone, Copy)]
struct Case {
    dac: DacRate,
    sbr: bool,
    lengths: &'static [usize],
}

const CASES: [Case; 4] = [
    Case {
        dac: DacRate::Khz32,
        sbr: true,
        lengths: &[100, 1],
    },
    Case {
        dac: DacRate::Khz48,
        sbr: true,
        lengths: &[96, 1, 1],
    },
    Case {
        dac: DacRate::Khz32,
        sbr: false,
        lengths: &[91, 1, 1, 1],
    },
    Case {
        dac: DacRate::Khz48,
        sbr: false,
        lengths: &[1, 1, 1, 1, 1, 82],
    },
];

// The whole of a unit, and its place as the header has it.
fn print_unit(rt: &HostRuntime, opened: &Opened, block: &[u8], n: usize) -> anyhow::Result<()> {
    match opened.unit(block, n) {
        Ok(AccessUnit { place, bytes }) => {
            let length = bytes.len();
            println!(rt; "  unit {n}: place {place}, {length} bytes")?;
        }
        Err(refusal) => println!(rt; "  unit {n}: {refusal}")?,
    }
    match opened.header().unit(n) {
        Ok(UnitPlace { place, length }) => {
            println!(rt; "  place of unit {n}: place {place}, {length} bytes")?;
        }
        Err(refusal) => println!(rt; "  place of unit {n}: {refusal}")?,
    }
    Ok(())
}

impl Case {
    fn parameters(&self) -> Parameters {
        Parameters {
            dac: self.dac,
            sbr: self.sbr,
            ..TWO_UNITS
        }
    }

    // The last unit, the number behind it, and the highest number.
    fn print(&self, rt: &HostRuntime) -> anyhow::Result<()> {
        let heap = rt.alloc();
        let parameters = self.parameters();
        let mut block = sealed_block(heap, 1, parameters, self.lengths)?;
        let opened = read_block(1, &mut block).map_err(as_error)?.opened;
        let starts = starts_text(heap, &opened.header())?;
        println!(rt; "size 1, {parameters}: starts {starts}")?;
        let units = parameters.layout().units;
        for n in [units.saturating_sub(1), units, usize::MAX] {
            print_unit(rt, &opened, &block, n)?;
        }
        Ok(())
    }
}

// A buffer that is changed behind the call that opened it: a byte of unit 1, then the length.
fn print_wrong_unit(rt: &HostRuntime) -> anyhow::Result<()> {
    let mut block = sealed_block(rt.alloc(), 1, TWO_UNITS, &[100, 1])?;
    let opened = read_block(1, &mut block).map_err(as_error)?.opened;
    if let Some(byte) = block.get_mut(107) {
        *byte ^= 1;
    }
    for (length, buffer) in [(120, ""), (119, ", buffer of 119 bytes")] {
        for n in [0, 1, 2] {
            let answer = Answer::of(opened.unit(block.get(..length).unwrap_or_default(), n));
            println!(rt; "byte 107 wrong{buffer}, unit {n}: {answer}")?;
        }
    }
    Ok(())
}

fn print_frames(rt: &HostRuntime) -> anyhow::Result<()> {
    let draft = Draft::begun(rt.alloc(), 1, &[100, 1], 120)?;
    let (sealed, block) = draft.seal().map_err(as_error)?;
    for (n, length, buffer) in [
        (0, 120, ""),
        (4, 120, ""),
        (5, 120, ""),
        (usize::MAX, 120, ""),
        (5, 119, ", buffer of 119 bytes"),
    ] {
        let answer = Answer::of(sealed.frame(block.get(..length).unwrap_or_default(), n));
        println!(rt; "frame {n}{buffer}: {answer}")?;
    }
    Ok(())
}

pub fn print_all(rt: &HostRuntime) -> anyhow::Result<()> {
    for case in &CASES[..] {
        case.print(rt)?;
    }
    print_wrong_unit(rt)?;
    print_frames(rt)
}
