// Sizes and settings at their edges.
use super::draft::TWO_UNITS;
use crate::answer::Answer;
use block::{ChannelMode, Parameters, Received, Settings};

fn print_sizes(rt: &HostRuntime) -> anyhow::Result<()> {
    for size in [0, 1, 24, 25, usize::MAX] {
        let received = Answer::of(Received::new(size));
        println!(rt; "a block to read, size {size}: {received}")?;
        let settings = Answer::of(Settings::new(size, TWO_UNITS));
        println!(rt; "settings, size {size}: {settings}")?;
    }
    Ok(())
}

fn print_settings(rt: &HostRuntime, size: usize, parameters: Parameters) -> anyhow::Result<()> {
    let answer = Answer::of(Settings::new(size, parameters));
    println!(rt; "settings, size {size}, {parameters}: {answer}")?;
    Ok(())
}

fn print_surrounds(rt: &HostRuntime) -> anyhow::Result<()> {
    for surround in [7, 8, 255] {
        let parameters = Parameters {
            surround,
            ..TWO_UNITS
        };
        print_settings(rt, 1, parameters)?;
    }
    let parameters = Parameters {
        surround: 8,
        ..TWO_UNITS
    };
    print_settings(rt, 0, parameters)
}

fn print_parametric_stereo(rt: &HostRuntime) -> anyhow::Result<()> {
    for (sbr, mode) in [
        (true, ChannelMode::Mono),
        (true, ChannelMode::Stereo),
        (false, ChannelMode::Mono),
        (false, ChannelMode::Stereo),
    ] {
        let parameters = Parameters {
            sbr,
            mode,
            ps: true,
            ..TWO_UNITS
        };
        print_settings(rt, 1, parameters)?;
    }
    Ok(())
}

pub fn print_all(rt: &HostRuntime) -> anyhow::Result<()> {
    print_sizes(rt)?;
    print_surrounds(rt)?;
    print_parametric_stereo(rt)
}
