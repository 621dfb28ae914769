// Passes a recording of logical frames through a queue in bursts, and compares what comes out with what was recorded.
#![tactic(auto)]

mod args;
mod failure;
mod passage;
mod tally;

use args::{Order, Request, USAGE, read_request};
use failure::Failure;
use passage::pass;
use programs::exit_code;
use std::fs;
use std::io::Read;
use std::process::ExitCode;

// All bytes of the file with this name, or of standard input.
fn read_bytes(rt: &HostRuntime, file: Option<String>) -> Result<Vec<u8>, Failure> {
    match file {
        None => {
            let mut bytes = Vec::new(rt.alloc());
            rt.stdin().read_to_end(&mut bytes)?;
            Ok(bytes)
        }
        Some(path) => match fs::read(rt, path.as_str()) {
            Ok(bytes) => Ok(bytes),
            Err(_) => Err(Failure::NoFile(path)),
        },
    }
}

// Passes the recording through, and prints what came of its frames.
fn pass_recording(rt: &HostRuntime, order: Order) -> Result<(), Failure> {
    let Order { size, file, pace } = order;
    let bytes = read_bytes(rt, file)?;
    let tally = pass(rt.alloc(), size, pace, &bytes)?;
    println!(rt; "{tally}")?;
    if tally.all_agree() {
        Ok(())
    } else {
        Err(Failure::Differ)
    }
}

fn run(rt: &HostRuntime) -> Result<(), Failure> {
    match read_request(rt)? {
        Request::Help => {
            println!(rt; "{USAGE}")?;
            Ok(())
        }
        Request::Pass(order) => pass_recording(rt, order),
    }
}

fn main(rt: HostRuntime) -> ExitCode {
    exit_code(&rt, run(&rt))
}
