// A SPEC: the settings and the units of a super frame, each with the number of its line.
use crate::failure::{Failure, Fault};
use crate::line::Line;
use block::{ChannelMode, DacRate, Parameters, Settings};
use gf::Refusal;
use std::alloc::{AllocError, Global};
use std::fs;

// A setting that a line gives.
#[derive(Clone, Copy)]
struct Given<T> {
    line: usize,
    value: T,
}

#[derive(Drop)]
pub struct Unit {
    pub line: usize,
    pub bytes: Vec<u8>,
}

#[derive(Drop)]
pub struct Spec {
    size: Option<Given<usize>>,
    rate: Option<Given<DacRate>>,
    sbr: Option<Given<bool>>,
    mode: Option<Given<ChannelMode>>,
    ps: Option<Given<bool>>,
    surround: Option<Given<u8>>,
    pub units: Vec<Unit>,
    // How many lines there are, or how many have been read so far.
    pub lines: usize,
}

// Gives a setting that has not been given before.
fn give<T: Copy>(
    setting: &mut Option<Given<T>>,
    name: &'static str,
    line: usize,
    value: T,
) -> Result<(), Fault> {
    if setting.is_some() {
        return Err(Fault::GivenTwice(name));
    }
    *setting = Some(Given { line, value });
    Ok(())
}

// The value of a setting, or that which it has where it is left out.
fn value_or<T: Copy>(setting: Option<Given<T>>, left_out: T) -> T {
    match setting {
        Some(given) => given.value,
        None => left_out,
    }
}

fn read_unit(rt: &HostRuntime, name: &str) -> Result<Vec<u8>, Fault> {
    match fs::read(rt, name) {
        Ok(bytes) => Ok(bytes),
        Err(_) => Err(Fault::NoUnitFile(String::from_str(rt.alloc(), name)?)),
    }
}

impl Spec {
    fn new(alloc: Global) -> Spec {
        Spec {
            size: None,
            rate: None,
            sbr: None,
            mode: None,
            ps: None,
            surround: None,
            units: Vec::new(alloc),
            lines: 0,
        }
    }

    // Takes the text of a SPEC, and the files that it names.
    pub fn read(rt: &HostRuntime, text: &str) -> Result<Spec, Failure> {
        let mut spec = Spec::new(rt.alloc());
        for line in text.lines() {
            spec.lines = spec.lines.saturating_add(1);
            if let Err(fault) = spec.take_line(rt, line) {
                let line = spec.lines;
                return Err(Failure::Line { line, fault });
            }
        }
        Ok(spec)
    }

    // Takes what a line says; it is counted already.
    fn take_line(&mut self, rt: &HostRuntime, text: &str) -> Result<(), Fault> {
        let line = self.lines;
        match Line::parse(rt.alloc(), text)? {
            Line::Nothing => Ok(()),
            Line::Size(size) => give(&mut self.size, "size", line, size),
            Line::Rate(rate) => give(&mut self.rate, "rate", line, rate),
            Line::Sbr(on) => give(&mut self.sbr, "sbr", line, on),
            Line::Mode(mode) => give(&mut self.mode, "mode", line, mode),
            Line::Ps(on) => give(&mut self.ps, "ps", line, on),
            Line::Surround(surround) => give(&mut self.surround, "surround", line, surround),
            Line::Unit(bytes) => self.add_unit(bytes),
            Line::UnitFile(name) => self.add_unit(read_unit(rt, name)?),
        }
    }

    fn add_unit(&mut self, bytes: Vec<u8>) -> Result<(), Fault> {
        let line = self.lines;
        self.units
            .push(Unit { line, bytes })
            .map_err(AllocError::from)?;
        Ok(())
    }

    fn parameters(&self) -> Parameters {
        Parameters {
            dac: value_or(self.rate, DacRate::Khz48),
            sbr: value_or(self.sbr, false),
            mode: value_or(self.mode, ChannelMode::Mono),
            ps: value_or(self.ps, false),
            surround: value_or(self.surround, 0),
        }
    }

    // The settings, if the library takes them.
    pub fn settings(&self) -> Result<Settings, Failure> {
        let Some(size) = self.size else {
            return Err(Failure::NoSize);
        };
        match Settings::new(size.value, self.parameters()) {
            Ok(settings) => Ok(settings),
            Err(Refusal::Size) => Err(Failure::refused(size.line, Refusal::Size)),
            Err(refusal) => Err(Failure::refused(self.refused_parameter(), refusal)),
        }
    }

    // The line of the parameter that is refused: surround where it is out of range, and else ps.
    fn refused_parameter(&self) -> usize {
        if let Some(Given { line, value }) = self.surround
            && value > 7
        {
            return line;
        }
        match self.ps {
            Some(given) => given.line,
            None => self.lines,
        }
    }
}
