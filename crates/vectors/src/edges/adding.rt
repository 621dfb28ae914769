// Adding units of lengths that just fit or just do not, too many units and too few, and sealing.
use super::draft::{Draft, TWO_UNITS, sealed_block, try_make};
use crate::answer::{Trial, as_error};
use crate::reading::{Words, read_block};
use block::{DacRate, Parameters};
use std::alloc::{AllocError, Global};

// The longest first unit that leaves room for the others, each of which has a byte and its check.
#[derive(Clone, Copy)]
struct Longest {
    size: usize,
    dac: DacRate,
    sbr: bool,
    length: usize,
}

impl Longest {
    const fn new(size: usize, dac: DacRate, sbr: bool, length: usize) -> Longest {
        Longest {
            size,
            dac,
            sbr,
            length,
        }
    }

    // Tries first units of no bytes, one byte, as many as fit, and one more.
    fn print(&self, rt: &HostRuntime) -> anyhow::Result<()> {
        let size = self.size;
        let parameters = Parameters {
            dac: self.dac,
            sbr: self.sbr,
            ..TWO_UNITS
        };
        for length in [0, 1, self.length, self.length.saturating_add(1)] {
            let trial = Draft::new(rt.alloc(), size, parameters)?.try_add(length)?;
            println!(rt; "size {size}, {parameters}, first unit of {length} bytes: {trial}")?;
        }
        Ok(())
    }
}

fn print_first_units(rt: &HostRuntime) -> anyhow::Result<()> {
    let cases = [
        Longest::new(1, DacRate::Khz32, true, 100),
        Longest::new(1, DacRate::Khz48, true, 96),
        Longest::new(1, DacRate::Khz32, false, 91),
        Longest::new(1, DacRate::Khz48, false, 82),
        Longest::new(24, DacRate::Khz32, true, 2630),
        Longest::new(24, DacRate::Khz48, true, 2626),
        Longest::new(24, DacRate::Khz32, false, 2621),
        Longest::new(24, DacRate::Khz48, false, 2612),
    ];
    for case in cases {
        case.print(rt)?;
    }
    Ok(())
}

// Tries to add a unit behind units of these lengths, with a buffer of so many bytes.
fn try_behind(
    heap: Global,
    size: usize,
    lengths: &[usize],
    buffer: usize,
    length: usize,
) -> anyhow::Result<Trial> {
    Ok(Draft::begun(heap, size, lengths, buffer)?.try_add(length)?)
}

// The last unit has to fill what is left.
fn print_last_units(rt: &HostRuntime) -> anyhow::Result<()> {
    for (size, buffer, first, lengths) in [
        (1, 120, 100, [0, 1, 2]),
        (1, 120, 50, [50, 51, 52]),
        (24, 2880, 2000, [630, 631, 632]),
    ] {
        for length in lengths {
            let trial = try_behind(rt.alloc(), size, &[first], buffer, length)?;
            println!(rt; "size {size}, last unit of {length} bytes behind {first}: {trial}")?;
        }
    }
    Ok(())
}

// Overfull comes before the length, and the buffer before both.
fn print_third_units(rt: &HostRuntime) -> anyhow::Result<()> {
    for buffer in [120, 119, 121] {
        for length in [0, 1, 101] {
            let trial = try_behind(rt.alloc(), 1, &[100, 1], buffer, length)?;
            println!(rt; "buffer of {buffer} bytes, third unit of {length} bytes: {trial}")?;
        }
    }
    let trial = try_behind(rt.alloc(), 1, &[], 119, 0)?;
    println!(rt; "buffer of 119 bytes, first unit of 0 bytes: {trial}")?;
    Ok(())
}

// The buffer comes before what is missing.
fn print_seals(rt: &HostRuntime) -> anyhow::Result<()> {
    for buffer in [120, 119] {
        let lengths: [&[usize]; 3] = [&[], &[100], &[100, 1]];
        for lengths in lengths {
            let trial = Draft::begun(rt.alloc(), 1, lengths, buffer)?.try_seal()?;
            println!(rt;
                "buffer of {buffer} bytes, sealing with units of {lengths:?} bytes: {trial}"
            )?;
        }
    }
    Ok(())
}

// The buffer comes before too many units, these before a length, and a length before what is missing.
fn print_made_at_once(rt: &HostRuntime) -> anyhow::Result<()> {
    let cases: [(usize, &[usize]); 15] = [
        (120, &[]),
        (120, &[0]),
        (120, &[100]),
        (120, &[101]),
        (120, &[100, 0]),
        (120, &[100, 1]),
        (120, &[100, 2]),
        (120, &[0, 103]),
        (120, &[1, 100]),
        (120, &[101, 0]),
        (120, &[0, 0, 0]),
        (120, &[100, 1, 1]),
        (119, &[]),
        (119, &[0]),
        (121, &[0, 0, 0]),
    ];
    for (buffer, lengths) in cases {
        let trial = try_make(rt.alloc(), 1, lengths, buffer)?;
        println!(rt;
            "buffer of {buffer} bytes, made at once of units of {lengths:?} bytes: {trial}"
        )?;
    }
    Ok(())
}

// Tries lengths that are refused, one after the other, and then adds units that fit.
fn print_tries(
    rt: &HostRuntime,
    draft: &mut Draft,
    unit: &str,
    refused: &[usize],
    fitting: &[usize],
) -> anyhow::Result<()> {
    for length in refused {
        let trial = draft.try_add(*length)?;
        println!(rt; "between, {unit} unit of {length} bytes: {trial}")?;
    }
    draft.add_all(fitting)
}

// A writer that is refused again and again goes on as if it had not been.
fn print_refused_between(rt: &HostRuntime) -> anyhow::Result<()> {
    let mut draft = Draft::new(rt.alloc(), 1, TWO_UNITS)?;
    print_tries(rt, &mut draft, "first", &[0, 101], &[100])?;
    print_tries(rt, &mut draft, "last", &[0, 2], &[1])?;
    print_tries(rt, &mut draft, "third", &[1], &[])?;
    let (_, block) = draft.seal().map_err(as_error)?;
    let same = block == sealed_block(rt.alloc(), 1, TWO_UNITS, &[100, 1])?;
    println!(rt; "sealed after refusals, the same bytes: {same}")?;
    Ok(())
}

// Bytes in hexadecimal, each behind a blank.
fn hexadecimal(heap: Global, bytes: &[u8]) -> Result<String, AllocError> {
    let mut text = String::new(heap);
    for byte in bytes {
        write!(text, " {byte:02X}")?;
    }
    Ok(text)
}

// A start of 107 is 06B in hexadecimal, and four zero bits fill the second byte.
fn print_packed(rt: &HostRuntime, block: &mut [u8]) -> anyhow::Result<()> {
    let heap = rt.alloc();
    let packed = hexadecimal(heap, block.get(3..5).unwrap_or_default())?;
    let reading = read_block(1, block).map_err(as_error)?;
    let changed = reading.repair.changed;
    let Words { starts, units, .. } = reading.words(heap, block)?;
    println!(rt;
        "size 1, units of 100 and 1 bytes: packed{packed}, {changed} changed, starts {starts}, units {units}"
    )?;
    Ok(())
}

// Every byte of the smallest super frame, in its five frames.
fn print_smallest(rt: &HostRuntime) -> anyhow::Result<()> {
    let heap = rt.alloc();
    let draft = Draft::begun(heap, 1, &[100, 1], 120)?;
    let (sealed, mut block) = draft.seal().map_err(as_error)?;
    print_packed(rt, &mut block)?;
    for n in 0..5 {
        let frame = hexadecimal(heap, sealed.frame(&block, n).map_err(as_error)?)?;
        println!(rt; "  frame {n}:{frame}")?;
    }
    Ok(())
}

pub fn print_all(rt: &HostRuntime) -> anyhow::Result<()> {
    print_first_units(rt)?;
    print_last_units(rt)?;
    print_third_units(rt)?;
    print_seals(rt)?;
    print_made_at_once(rt)?;
    print_refused_between(rt)?;
    print_smallest(rt)
}
