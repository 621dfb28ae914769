// Making the block of a SPEC.
use crate::failure::Failure;
use crate::spec::{Spec, Unit};
use block::{OpenWriter, Settings, make_super_frame};
use gf::Refusal;
use std::alloc::Global;

// The first unit that cannot be added to the units before it.
fn first_unfit<'s>(spec: &'s Spec, settings: Settings, scratch: &mut [u8]) -> Option<&'s Unit> {
    let mut writer = OpenWriter::new(settings);
    for unit in &spec.units {
        if writer.add(scratch, &unit.bytes).is_err() {
            return Some(unit);
        }
    }
    None
}

// The line that a refusal is about: that of a unit, or the last one where units are missing.
fn refused_line(spec: &Spec, settings: Settings, refusal: Refusal, scratch: &mut [u8]) -> usize {
    let unit = match refusal {
        Refusal::UnitLength => first_unfit(spec, settings, scratch),
        Refusal::Overfull => spec.units.get(settings.parameters().layout().units),
        _ => None,
    };
    match unit {
        Some(unit) => unit.line,
        None => spec.lines,
    }
}

// The block of the super frame with these settings and the units of the SPEC.
pub fn make_block(alloc: Global, spec: &Spec, settings: Settings) -> Result<Vec<u8>, Failure> {
    let units: Vec<&[u8]> = spec
        .units
        .iter()
        .map(|unit| unit.bytes.as_slice())
        .collect(alloc)?;
    let mut block = vec![in alloc; 0u8; 120 * settings.size()]?;
    match make_super_frame(settings, &units, &mut block) {
        Ok(_) => Ok(block),
        Err(refusal) => {
            // Nothing comes of this block, so it can be written on.
            let line = refused_line(spec, settings, refusal, &mut block);
            Err(Failure::refused(line, refusal))
        }
    }
}
