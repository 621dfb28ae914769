// Opens recorded super frames: corrects their rows, prints what each header says and whether each unit's check is right, and writes
// the good units to files.
#![tactic(auto)]

mod args;
mod failure;
mod files;
mod input;
mod report;
mod steps;
mod tally;

use args::{Order, Request, USAGE, read_request};
use failure::Failure;
use files::make_folder;
use input::fill;
use programs::{SubchannelIndex, exit_code};
use report::Report;
use std::fs::File;
use std::io::Read;
use std::process::ExitCode;

// Opens block after block until the input ends. One block is in memory at a time.
fn open_all<R: Read>(
    rt: &HostRuntime,
    size: SubchannelIndex,
    folder: Option<String>,
    input: &mut R,
) -> Result<(), Failure> {
    if let Some(folder) = &folder {
        make_folder(rt, folder)?;
    }
    let mut block = vec![in rt.alloc(); 0u8; size.block_length()]?;
    let mut report = Report::new(rt, size, folder);
    let mut unfinished = 0;
    // The bound is never reached, and is there since a loop over input has to have one.
    for _ in 0..u64::MAX {
        let filled = fill(input, &mut block)?;
        if filled < block.len() {
            unfinished = filled;
            break;
        }
        report.print_block(&mut block)?;
    }
    report.print_end(unfinished)?;
    Ok(())
}

fn open_recording(rt: &HostRuntime, order: Order) -> Result<(), Failure> {
    let Order { size, file, units } = order;
    match file {
        None => open_all(rt, size, units, &mut rt.stdin()),
        Some(path) => match File::open(rt, path.as_str()) {
            Ok(mut input) => open_all(rt, size, units, &mut input),
            Err(_) => Err(Failure::NoFile(path)),
        },
    }
}

fn run(rt: &HostRuntime) -> Result<(), Failure> {
    match read_request(rt)? {
        Request::Help => {
            println!(rt; "{USAGE}")?;
            Ok(())
        }
        Request::Open(order) => open_recording(rt, order),
    }
}

fn main(rt: HostRuntime) -> ExitCode {
    exit_code(&rt, run(&rt))
}
