// Worked examples of the fields, the check words and the header.
use crate::answer::{Answer, RepairText, as_error};
use crate::reading::repair_block;
use block::{Parameters, fire_word, unit_check};
use codes::remainder;
use gf::{Field, Gf16, Gf256, Refusal};

fn print_products(rt: &HostRuntime) -> anyhow::Result<()> {
    let Gf256(byte) = Gf256(0x80).mul(Gf256(2));
    println!(rt; "Gf256: 80 times 2 is {byte:02X}")?;
    let Gf16(nibble) = Gf16(8).mul(Gf16(2));
    println!(rt; "Gf16: 8 times 2 is {nibble:X}")?;
    Ok(())
}

// Divides x^2 by a polynomial of degree 2 over the field of 16 elements.
fn print_remainder(rt: &HostRuntime, divisor: &[Gf16; 3]) -> anyhow::Result<()> {
    let message = [Gf16(1), Gf16(0), Gf16(0)];
    let mut rest = [Gf16(0); 2];
    let [Gf16(lead), Gf16(middle), Gf16(last)] = *divisor;
    match remainder(&message, divisor, &mut rest) {
        Ok(()) => {
            let [Gf16(high), Gf16(low)] = rest;
            println!(rt; "Gf16: 1 0 0 by {lead} {middle} {last} leaves {high} {low}")?;
        }
        Err(refusal) => println!(rt; "Gf16: 1 0 0 by {lead} {middle} {last}: {refusal}")?,
    }
    Ok(())
}

fn print_checks(rt: &HostRuntime) -> anyhow::Result<()> {
    let fire = fire_word(&[0, 0, 0, 0, 0, 0, 0, 0, 1]);
    println!(rt; "Fire word of eight zeros and 01: {fire:04X}")?;
    let ones = unit_check(&[0xff]);
    println!(rt; "unit check of FF: {ones:04X}")?;
    let zeros = unit_check(&[0]);
    println!(rt; "unit check of 00: {zeros:04X}")?;
    Ok(())
}

fn print_parameters(rt: &HostRuntime, byte: u8) -> anyhow::Result<()> {
    match Parameters::try_from(byte) {
        Ok(parameters) => {
            let units = parameters.layout().units;
            println!(rt; "parameters {byte:02X}: {parameters}, {units} units")?;
        }
        Err(fault) => {
            let refusal = Refusal::from(fault);
            println!(rt; "parameters {byte:02X}: {refusal}")?;
        }
    }
    Ok(())
}

// A block of zeros: its rows are codewords, and its Fire word is right, but the units have no room.
fn print_zero_block(rt: &HostRuntime) -> anyhow::Result<()> {
    let mut block = [0; 120];
    let fire = fire_word(&block[2..11]);
    println!(rt; "zero block: Fire word {fire:04X}")?;
    print_parameters(rt, block[2])?;
    let (repaired, repair) = repair_block(1, &mut block).map_err(as_error)?;
    let repair = RepairText(repair);
    println!(rt; "zero block: {repair}")?;
    let opened = Answer::of(repaired.open(&block));
    println!(rt; "zero block: {opened}")?;
    Ok(())
}

pub fn print_all(rt: &HostRuntime) -> anyhow::Result<()> {
    print_products(rt)?;
    print_remainder(rt, &[Gf16(1), Gf16(3), Gf16(2)])?;
    print_remainder(rt, &[Gf16(2), Gf16(3), Gf16(2)])?;
    print_checks(rt)?;
    print_parameters(rt, 0x68)?;
    print_parameters(rt, 0x78)?;
    print_zero_block(rt)
}
