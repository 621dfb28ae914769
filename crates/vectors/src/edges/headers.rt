// Headers with one fault and with several, in blocks whose Fire word and rows are right all the same; and every parameter byte.
use super::draft::{TWO_UNITS, sealed_block};
use crate::answer::as_error;
use crate::reading::{parameter_byte, read_block, starts_text};
use block::{Parameters, fire_word};
use interleaver::RowLayout;
use std::alloc::Global;

// The first bytes of a super frame of size 1, and by what its Fire word is wrong.
#[derive(Clone, Copy)]
struct Case {
    name: &'static str,
    header: &'static [u8],
    fire_error: u16,
}

const CASES: [Case; 17] = [
    Case {
        name: "2 units, start 107",
        header: &[0x20, 0x06, 0xb0],
        fire_error: 0,
    },
    Case {
        name: "2 units, start 107, Fire word wrong",
        header: &[0x20, 0x06, 0xb0],
        fire_error: 1,
    },
    Case {
        name: "reserved bit, Fire word wrong",
        header: &[0xa0, 0x06, 0xb0],
        fire_error: 0x8000,
    },
    Case {
        name: "reserved bit",
        header: &[0xa0, 0x06, 0xb0],
        fire_error: 0,
    },
    Case {
        name: "ps with stereo",
        header: &[0x38, 0x06, 0xb0],
        fire_error: 0,
    },
    Case {
        name: "ps without sbr, alignment 1, start 0",
        header: &[0x08, 0, 0, 0, 0, 0x01],
        fire_error: 0,
    },
    Case {
        name: "2 units, alignment 1",
        header: &[0x20, 0x06, 0xb1],
        fire_error: 0,
    },
    Case {
        name: "2 units, alignment 8, start 0",
        header: &[0x20, 0, 0x08],
        fire_error: 0,
    },
    Case {
        name: "4 units, alignment 15",
        header: &[0x00, 0x00, 0xb0, 0x0e, 0x01, 0x1f],
        fire_error: 0,
    },
    Case {
        name: "6 units, alignment 2",
        header: &[0x40, 0x00, 0xe0, 0x11, 0x01, 0x40, 0x17, 0x01, 0xa2],
        fire_error: 0,
    },
    Case {
        name: "2 units, start 8",
        header: &[0x20, 0x00, 0x80],
        fire_error: 0,
    },
    Case {
        name: "2 units, start 7",
        header: &[0x20, 0x00, 0x70],
        fire_error: 0,
    },
    Case {
        name: "2 units, start 108",
        header: &[0x20, 0x06, 0xc0],
        fire_error: 0,
    },
    Case {
        name: "2 units, start 4095",
        header: &[0x20, 0xff, 0xf0],
        fire_error: 0,
    },
    Case {
        name: "3 units, starts 9 and 11",
        header: &[0x60, 0x00, 0x90, 0x0b],
        fire_error: 0,
    },
    Case {
        name: "6 units, starts 14, 17, 20, 23, 26",
        header: &[0x40, 0x00, 0xe0, 0x11, 0x01, 0x40, 0x17, 0x01, 0xa0],
        fire_error: 0,
    },
    Case {
        name: "6 units, starts 14, 17, 20, 23, 25",
        header: &[0x40, 0x00, 0xe0, 0x11, 0x01, 0x40, 0x17, 0x01, 0x90],
        fire_error: 0,
    },
];

impl Case {
    // A block of size 1 that begins so.
    fn block(&self) -> anyhow::Result<[u8; 120]> {
        let mut block = [0; 120];
        for (byte, header) in block.iter_mut().skip(2).zip(self.header) {
            *byte = *header;
        }
        let fire = fire_word(&block[2..11]) ^ self.fire_error;
        block[..2].copy_from_slice(&fire.to_be_bytes());
        let layout = RowLayout::new(1, 120, 10).map_err(as_error)?;
        layout.fill_checks(&mut block).map_err(as_error)?;
        Ok(block)
    }

    fn print(&self, rt: &HostRuntime) -> anyhow::Result<()> {
        let name = self.name;
        let mut block = self.block()?;
        match read_block(1, &mut block) {
            Ok(reading) => {
                let starts = starts_text(rt.alloc(), &reading.opened.header())?;
                println!(rt; "{name}: opened, starts {starts}")?;
            }
            Err(refusal) => println!(rt; "{name}: {refusal}")?,
        }
        Ok(())
    }
}

// The lengths of so many units that fill a super frame of size 1.
fn lengths(units: usize) -> &'static [usize] {
    match units {
        2 => &[100, 1],
        3 => &[96, 1, 1],
        4 => &[91, 1, 1, 1],
        _ => &[82, 1, 1, 1, 1, 1],
    }
}

// Whether a super frame with these parameters has this parameter byte, and is read with these parameters.
fn is_written_so(heap: Global, byte: u8, parameters: Parameters) -> anyhow::Result<bool> {
    let units = lengths(parameters.layout().units);
    let mut block = sealed_block(heap, 1, parameters, units)?;
    let opened = read_block(1, &mut block).map_err(as_error)?.opened;
    Ok(parameter_byte(&block) == byte && opened.header().parameters == parameters)
}

fn print_parameter_bytes(rt: &HostRuntime) -> anyhow::Result<()> {
    let mut admitted = 0usize;
    let mut same = 0usize;
    for byte in 0..=255 {
        let Ok(parameters) = Parameters::try_from(byte) else {
            continue;
        };
        admitted = admitted.saturating_add(1);
        if is_written_so(rt.alloc(), byte, parameters)? {
            same = same.saturating_add(1);
        }
    }
    println!(rt; "{admitted} of 256 parameter bytes admitted, {same} written and read so")?;
    Ok(())
}

pub fn print_all(rt: &HostRuntime) -> anyhow::Result<()> {
    for case in &CASES[..] {
        case.print(rt)?;
    }
    print_parameter_bytes(rt)
}
