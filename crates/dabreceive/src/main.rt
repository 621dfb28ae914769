// Finds the super frames in a recording of logical frames and follows them, and prints what came of each frame; or makes the calls of
// a script on a receiver, and prints what came of each.
#![tactic(auto)]

mod answer;
mod args;
mod failure;
mod files;
mod lines;
mod plan;
mod progress;
mod receiving;
mod reporting;
mod script;
mod summary;
mod units;

use args::{Order, Request, USAGE, read_request};
use failure::Failure;
use files::{make_folder, read_bytes, read_text};
use plan::{Plan, script_plan};
use programs::exit_code;
use progress::Progress;
use receiving::{make_calls, replay};
use reporting::{Lines, Reporting};
use script::{Command, parse_script};
use std::process::ExitCode;

// A report that writes the good units where a folder is given, which it makes.
fn open_report<'a>(
    rt: &'a HostRuntime,
    folder: Option<String>,
    lines: Lines<'a>,
) -> Result<Reporting<'a>, Failure> {
    if let Some(folder) = &folder {
        make_folder(rt, folder)?;
    }
    Ok(Reporting::new(rt, folder, lines))
}

// Hands in each frame of the recording, and takes it.
fn receive_all(rt: &HostRuntime, order: Order) -> Result<(), Failure> {
    let Order {
        size,
        file,
        patience,
        units,
        ..
    } = order;
    let recording = read_bytes(rt, file)?;
    let progress = Progress::new(rt, size, recording.len());
    let mut report = open_report(rt, units, Lines::Frames(progress))?;
    replay(rt.alloc(), size, patience, &recording, &mut report)?;
    report.finish()
}

// The recording that a script asks for; it is read only where a line offers frames of it.
fn read_recording(
    rt: &HostRuntime,
    commands: &[Command],
    file: Option<String>,
) -> Result<Vec<u8>, Failure> {
    if commands
        .iter()
        .any(|command| matches!(command, Command::OfferFrames(_)))
    {
        read_bytes(rt, file)
    } else {
        Ok(Vec::new(rt.alloc()))
    }
}

// Makes the calls of a script.
fn run_script(rt: &HostRuntime, commands: &[Command], order: Order) -> Result<(), Failure> {
    let Order {
        size,
        file,
        patience,
        units,
        ..
    } = order;
    let recording = read_recording(rt, commands, file)?;
    let Plan { calls, lines } = script_plan(rt.alloc(), size, patience, commands, &recording)?;
    let mut report = open_report(rt, units, Lines::Script(lines))?;
    make_calls(rt.alloc(), size, &calls, &mut report)?;
    report.finish()
}

fn receive(rt: &HostRuntime, mut order: Order) -> Result<(), Failure> {
    let Some(script) = order.script.take() else {
        return receive_all(rt, order);
    };
    let commands = parse_script(rt.alloc(), read_text(rt, script)?.as_str())?;
    run_script(rt, &commands, order)
}

fn run(rt: &HostRuntime) -> Result<(), Failure> {
    match read_request(rt)? {
        Request::Help => {
            println!(rt; "{USAGE}")?;
            Ok(())
        }
        Request::Receive(order) => receive(rt, order),
    }
}

fn main(rt: HostRuntime) -> ExitCode {
    exit_code(&rt, run(&rt))
}
