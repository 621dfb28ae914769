// One line of a SPEC.
use crate::failure::Fault;
use crate::hexadecimal::parse_pairs;
use block::{ChannelMode, DacRate};
use std::alloc::Global;

// What a line says.
#[derive(Drop)]
pub enum Line<'a> {
    Nothing,
    Size(usize),
    Rate(DacRate),
    Sbr(bool),
    Mode(ChannelMode),
    Ps(bool),
    Surround(u8),
    Unit(Vec<u8>),
    UnitFile(&'a str),
}

// The first word of a line, and what stands behind it.
fn split_word(text: &str) -> (&str, &str) {
    match text.split_once(|c: char| c.is_whitespace()) {
        Some((word, rest)) => (word, rest.trim()),
        None => (text, ""),
    }
}

// The fault of a setting with such a value.
fn wrong_value(alloc: Global, setting: &'static str, admitted: &'static str, value: &str) -> Fault {
    match String::from_str(alloc, value) {
        Ok(value) => Fault::Value {
            setting,
            admitted,
            value,
        },
        Err(error) => Fault::Memory(error),
    }
}

fn parse_size(alloc: Global, value: &str) -> Result<usize, Fault> {
    value.parse().map_err(|_| wrong_value(alloc, "size", "a number from 1 to 24", value))
}

// Numbers beyond a byte become 255, which the library refuses like every number above 7.
fn parse_surround(alloc: Global, value: &str) -> Result<u8, Fault> {
    match value.parse::<usize>() {
        Ok(number) => Ok(u8::try_from(number).unwrap_or(u8::MAX)),
        Err(_) => Err(wrong_value(alloc, "surround", "a number from 0 to 7", value)),
    }
}

impl<'a> Line<'a> {
    pub fn parse(alloc: Global, text: &'a str) -> Result<Line<'a>, Fault> {
        let text = text.trim();
        if text.is_empty() || text.starts_with('#') {
            return Ok(Line::Nothing);
        }
        let (word, value) = split_word(text);
        match (word, value) {
            ("size", _) => Ok(Line::Size(parse_size(alloc, value)?)),
            ("rate", "32") => Ok(Line::Rate(DacRate::Khz32)),
            ("rate", "48") => Ok(Line::Rate(DacRate::Khz48)),
            ("rate", _) => Err(wrong_value(alloc, "rate", "32 or 48", value)),
            ("sbr", "on") => Ok(Line::Sbr(true)),
            ("sbr", "off") => Ok(Line::Sbr(false)),
            ("sbr", _) => Err(wrong_value(alloc, "sbr", "on or off", value)),
            ("mode", "mono") => Ok(Line::Mode(ChannelMode::Mono)),
            ("mode", "stereo") => Ok(Line::Mode(ChannelMode::Stereo)),
            ("mode", _) => Err(wrong_value(alloc, "mode", "mono or stereo", value)),
            ("ps", "on") => Ok(Line::Ps(true)),
            ("ps", "off") => Ok(Line::Ps(false)),
            ("ps", _) => Err(wrong_value(alloc, "ps", "on or off", value)),
            ("surround", _) => Ok(Line::Surround(parse_surround(alloc, value)?)),
            ("unit", _) => Ok(Line::Unit(parse_pairs(alloc, value)?)),
            ("unit-file", _) => Ok(Line::UnitFile(value)),
            _ => Err(Fault::UnknownWord(String::from_str(alloc, word)?)),
        }
    }
}
