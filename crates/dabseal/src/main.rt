// Makes the block of one super frame from a text that gives its settings and units.
#![tactic(auto)]

mod args;
mod failure;
mod files;
mod hexadecimal;
mod line;
mod sealing;
mod spec;

use args::{Order, Request, USAGE, read_request};
use failure::Failure;
use files::{read_text, write_bytes};
use hexadecimal::block_text;
use programs::exit_code;
use sealing::make_block;
use spec::Spec;
use std::process::ExitCode;

// Makes the block and writes it; nothing is written before the library has made it.
fn seal(rt: &HostRuntime, order: Order) -> Result<(), Failure> {
    let Order { spec, file, hex } = order;
    let text = read_text(rt, spec)?;
    let spec = Spec::read(rt, text.as_str())?;
    let settings = spec.settings()?;
    let block = make_block(rt.alloc(), &spec, settings)?;
    if hex {
        let text = block_text(rt.alloc(), &block)?;
        write_bytes(rt, file, text.as_bytes())?;
    } else {
        write_bytes(rt, file, &block)?;
    }
    let bytes = block.len();
    let parameters = settings.parameters();
    let units = parameters.layout().units;
    eprintln!(rt; "dabseal: {bytes} bytes, {parameters}, {units} units")?;
    Ok(())
}

fn run(rt: &HostRuntime) -> Result<(), Failure> {
    match read_request(rt)? {
        Request::Help => {
            println!(rt; "{USAGE}")?;
            Ok(())
        }
        Request::Seal(order) => seal(rt, order),
    }
}

fn main(rt: HostRuntime) -> ExitCode {
    exit_code(&rt, run(&rt))
}
