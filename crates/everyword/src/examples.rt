// Worked examples of the check code: checks, corrections, and shapes that are refused.
use crate::modulo13::Modulo13;
use crate::small_field::SmallField;
use codes::{WORK_SYMBOLS, correct, encode};
use gf::{Field, Gf2, Gf16, Gf256, Refusal};
use std::fmt;

// What a correction answered.
#[derive(Drop)]
struct Answer(Result<usize, Refusal>);

impl fmt::Display for Answer {
    fn fmt<W: fmt::Write>(&self, f: &mut fmt::Formatter<W>) -> fmt::Result {
        match self.0 {
            Ok(count) => write!(f, "{count} corrected"),
            Err(refusal) => write!(f, "{refusal}"),
        }
    }
}

// What filling the checks answered.
#[derive(Drop)]
struct Filling(Result<(), Refusal>);

impl fmt::Display for Filling {
    fn fmt<W: fmt::Write>(&self, f: &mut fmt::Formatter<W>) -> fmt::Result {
        match self.0 {
            Ok(()) => write!(f, "done"),
            Err(refusal) => write!(f, "{refusal}"),
        }
    }
}

// The sizes of a word of zeros and a work buffer of zeros.
#[derive(Clone, Copy)]
struct Shape {
    symbols: usize,
    checks: usize,
    places: usize,
}

impl Shape {
    const fn new(symbols: usize, checks: usize, places: usize) -> Shape {
        Shape {
            symbols,
            checks,
            places,
        }
    }
}

// Fills the checks behind the data, and prints the numbers of both.
fn print_checks<F: SmallField>(
    rt: &HostRuntime,
    field: &str,
    data: &[usize],
    checks: usize,
) -> anyhow::Result<()> {
    let mut work = vec![in rt.alloc(); F::zero(); WORK_SYMBOLS]?;
    let mut word = vec![in rt.alloc(); F::zero(); data.len().saturating_add(checks)]?;
    print!(rt; "{field}: data")?;
    for (symbol, number) in word.iter_mut().zip(data) {
        *symbol = F::numbered(*number);
        print!(rt; " {number}")?;
    }
    match encode(&mut word, checks, &mut work) {
        Ok(()) => {
            print!(rt; " has the checks")?;
            for check in word.iter().skip(data.len()) {
                let number = check.byte() as usize % F::order();
                print!(rt; " {number}")?;
            }
            println!(rt)?;
        }
        Err(refusal) => println!(rt; ": {refusal}")?,
    }
    Ok(())
}

// Not one function with `print_checks`, since a row is printed in hexadecimal, and without its data.
fn print_row_checks(rt: &HostRuntime) -> anyhow::Result<()> {
    let mut work = [Gf256(0); WORK_SYMBOLS];
    let mut row = [Gf256(0); 120];
    row[109] = Gf256(1);
    match encode(&mut row, 10, &mut work) {
        Ok(()) => {
            print!(rt; "row of 109 zeros and 01 has the checks")?;
            for Gf256(byte) in &row[110..] {
                print!(rt; " {byte:02X}")?;
            }
            println!(rt)?;
        }
        Err(refusal) => println!(rt; "row of 109 zeros and 01: {refusal}")?,
    }
    Ok(())
}

// Corrects a word, and prints the answer, how many of its bytes are not zero then, and how many have changed.
fn print_correction<const SYMBOLS: usize>(
    rt: &HostRuntime,
    name: &str,
    word: [Gf256; SYMBOLS],
    checks: usize,
) -> anyhow::Result<()> {
    let mut work = [Gf256(0); WORK_SYMBOLS];
    let mut corrected = word;
    let answer = Answer(correct(&mut corrected, checks, &mut work));
    let nonzero = corrected.iter().filter(|symbol| symbol.0 != 0).count();
    let changed = word
        .iter()
        .zip(&corrected)
        .filter(|(before, after)| before.0 != after.0)
        .count();
    println!(rt; "{name}: {answer}, {nonzero} bytes are not zero, {changed} have changed")?;
    Ok(())
}

fn print_corrections(rt: &HostRuntime) -> anyhow::Result<()> {
    let mut row = [Gf256(0); 120];
    row[109..114].copy_from_slice(&[0x01, 0xD8, 0xC2, 0x9F, 0x6F].map(Gf256));
    print_correction(rt, "01 D8 C2 9F 6F from byte 109 on", row, 10)?;
    let mut row = [Gf256(0); 120];
    row[..6].copy_from_slice(&[0xC7, 0x5E, 0x5F, 0x71, 0x9D, 0xC1].map(Gf256));
    print_correction(rt, "C7 5E 5F 71 9D C1 at the front", row, 10)?;
    let mut word = [Gf256(0); 255];
    word[..8].fill(Gf256(1));
    print_correction(
        rt,
        "255 bytes with 16 checks, 8 ones at the front",
        word,
        16,
    )?;
    word[8] = Gf256(1);
    print_correction(
        rt,
        "255 bytes with 16 checks, 9 ones at the front",
        word,
        16,
    )
}

// Tries to fill the checks of words of zeros, and to correct them.
fn print_shapes<F: Field>(rt: &HostRuntime, field: &str, shapes: &[Shape]) -> anyhow::Result<()> {
    for shape in shapes {
        let Shape {
            symbols,
            checks,
            places,
        } = *shape;
        let mut word = vec![in rt.alloc(); F::zero(); symbols]?;
        let mut work = vec![in rt.alloc(); F::zero(); places]?;
        let filling = Filling(encode(&mut word, checks, &mut work));
        let answer = Answer(correct(&mut word, checks, &mut work));
        println!(rt;
            "{field}: {symbols} zeros, checks {checks}, work {places}; filling: {filling}; correcting: {answer}"
        )?;
    }
    Ok(())
}

fn print_byte_shapes(rt: &HostRuntime) -> anyhow::Result<()> {
    let shapes = [
        Shape::new(0, 1, 512),
        Shape::new(5, 0, 512),
        Shape::new(5, 6, 512),
        Shape::new(5, 5, 512),
        Shape::new(5, 4, 512),
        Shape::new(200, 16, 512),
        Shape::new(200, 17, 512),
        Shape::new(255, 10, 512),
        Shape::new(256, 10, 512),
        Shape::new(120, 10, 511),
        Shape::new(120, 10, 513),
    ];
    print_shapes::<Gf256>(rt, "Gf256", &shapes)
}

fn print_smaller_shapes(rt: &HostRuntime) -> anyhow::Result<()> {
    let nibbles = [Shape::new(15, 2, 512), Shape::new(16, 2, 512)];
    print_shapes::<Gf16>(rt, "Gf16", &nibbles)?;
    let residues = [Shape::new(12, 4, 512), Shape::new(13, 4, 512)];
    print_shapes::<Modulo13>(rt, "Modulo13", &residues)?;
    let bits = [
        Shape::new(1, 1, 512),
        Shape::new(2, 1, 512),
        Shape::new(3, 2, 512),
        Shape::new(255, 16, 512),
    ];
    print_shapes::<Gf2>(rt, "Gf2", &bits)
}

// A work buffer with a symbol that does not mean zero, and one with a symbol that does, though it is not stored as zero.
fn print_work(rt: &HostRuntime) -> anyhow::Result<()> {
    for (name, last) in [("01 hex", Gf16(1)), ("10 hex", Gf16(0x10))] {
        let mut work = [Gf16(0); WORK_SYMBOLS];
        work[WORK_SYMBOLS - 1] = last;
        let answer = Answer(correct(&mut [Gf16(0); 4], 2, &mut work));
        println!(rt; "Gf16: work with {name} at its end: {answer}")?;
    }
    Ok(())
}

pub fn print_all(rt: &HostRuntime) -> anyhow::Result<()> {
    print_checks::<Gf16>(rt, "Gf16", &[1], 2)?;
    print_checks::<Modulo13>(rt, "Modulo13", &[3, 8, 4, 2, 4, 4, 2, 5], 4)?;
    print_row_checks(rt)?;
    print_corrections(rt)?;
    print_byte_shapes(rt)?;
    print_smaller_shapes(rt)?;
    print_work(rt)
}
