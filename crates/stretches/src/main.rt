// Shows on recorded streams that what the laws of the receiver suppose can be met, and that the receiver then does what they say; words are
// corrected in the same call.
#![tactic(auto)]

mod blocks;
mod damage;
mod failure;
mod feeding;
mod losses;
mod receiving;
mod stretch;
mod trial;
mod witness;
mod word;

use damage::{Damage, damaged};
use failure::Failure;
use gf::{Field, Gf2, Gf16, Gf256, Refusal};
use losses::try_losses;
use programs::exit_code;
use std::fs;
use std::process::ExitCode;
use stretch::FRAMES;
use trial::try_recording;
use word::{Fate, Word};

// A recording that is tried, whole frames from the first one of a super frame on.
#[derive(Clone, Copy)]
struct Recorded {
    name: &'static str,
    // The subchannel index.
    size: usize,
}

const RECORDINGS: [Recorded; 5] = [
    Recorded {
        name: "s4_48k_nosbr_mono",
        size: 4,
    },
    Recorded {
        name: "s4_32k_sbr_mono",
        size: 4,
    },
    Recorded {
        name: "s6_32k_nosbr_mono",
        size: 6,
    },
    Recorded {
        name: "s8_48k_sbr_stereo_pad",
        size: 8,
    },
    Recorded {
        name: "s12_32k_sbr_stereo_sur1",
        size: 12,
    },
];

// Tries a recording, with a word of this fate over a field, and prints what came of both.
fn show<F: Field>(
    rt: &HostRuntime,
    recorded: Recorded,
    recording: &[u8],
    field: &str,
    fate: Fate,
) -> Result<(), Failure> {
    let Recorded { name, size } = recorded;
    let Word {
        mut symbols,
        checks,
        mut work,
    } = Word::<F>::with_fate(rt.alloc(), fate)?;
    match try_recording(rt.alloc(), size, recording, &mut symbols, checks, &mut work)? {
        Some(trial) => println!(rt; "{name}, {field}: {trial}")?,
        None => println!(rt; "{name}: the premises do not hold")?,
    }
    Ok(())
}

// Tries the recording as it is, with a word over each field.
fn show_fields(rt: &HostRuntime, recorded: Recorded, recording: &[u8]) -> Result<(), Failure> {
    show::<Gf2>(rt, recorded, recording, "gf2", Fate::NoShape)?;
    for fate in [Fate::Corrected, Fate::TooFar, Fate::NoShape] {
        show::<Gf16>(rt, recorded, recording, "gf16", fate)?;
        show::<Gf256>(rt, recorded, recording, "gf256", fate)?;
    }
    Ok(())
}

// Damages the recording, and prints how many super frames a receiver loses with each patience.
fn show_losses(
    rt: &HostRuntime,
    recorded: Recorded,
    recording: &[u8],
    wrong: usize,
) -> Result<(), Failure> {
    let Recorded { name, size } = recorded;
    if !(1..=24).contains(&size) {
        return Err(Failure::Refused(Refusal::Size));
    }
    // No more than can be corrected.
    let wrong = wrong.min(5);
    let wrong_bytes = wrong * size;
    for patience in 1..=3 {
        // Any number of strays from 1 to 4 would do.
        let damage = Damage {
            strays: patience,
            wrong,
        };
        let frames = damaged(rt.alloc(), size, damage, recording)?;
        let start = FRAMES + damage.strays;
        match try_losses(rt.alloc(), size, patience, start, wrong_bytes, &frames)? {
            Some(losses) => println!(rt;
                "{name}, patience {patience}, wrong bytes in each super frame {wrong_bytes}: {losses}"
            )?,
            None => println!(rt; "{name}: the premises do not hold")?,
        }
    }
    Ok(())
}

fn run(rt: &HostRuntime) -> Result<(), Failure> {
    for (number, recorded) in RECORDINGS.iter().enumerate() {
        let name = recorded.name;
        let path = format!(in rt.alloc(); "{name}.dabp")?;
        let recording = fs::read(rt, path.as_str())?;
        if number == 0 {
            show_fields(rt, *recorded, &recording)?;
        } else {
            show::<Gf256>(rt, *recorded, &recording, "gf256", Fate::Corrected)?;
        }
        show_losses(rt, *recorded, &recording, number + 1)?;
    }
    Ok(())
}

fn main(rt: HostRuntime) -> ExitCode {
    exit_code(&rt, run(&rt))
}
