// Blocks of several layouts, filled, damaged in some rows, and repaired.
use super::layouts::Shape;
use crate::answer::{RepairText, as_error};
use gf::Refusal;
use std::alloc::{AllocError, Global};

// A layout, and the rows that are damaged, each with how many of its bytes are wrong.
#[derive(Clone, Copy)]
struct Case {
    shape: Shape,
    damage: &'static [(usize, usize)],
}

impl Case {
    // Writes something into every byte of a block, and then the checks of its rows.
    fn filled(&self, heap: Global) -> anyhow::Result<Vec<u8>> {
        let layout = self.shape.layout().map_err(as_error)?;
        let mut block: Vec<u8> = (0..layout.block_length())
            .map(|place| (place % 251) as u8)
            .collect(heap)?;
        layout.fill_checks(&mut block).map_err(as_error)?;
        Ok(block)
    }

    // Makes so many bytes of a row wrong, in every twentieth column from the last one down.
    fn spoil(&self, block: &mut [u8], row: usize, wrong: usize) {
        let Shape { rows, symbols, .. } = self.shape;
        for column in (0..symbols).rev().step_by(20).take(wrong) {
            let place = rows.saturating_mul(column).saturating_add(row);
            if let Some(byte) = block.get_mut(place) {
                *byte ^= 0x5a;
            }
        }
    }

    // The filled block with the damage of the rows in which more than so many bytes are wrong.
    fn damaged(&self, heap: Global, filled: &[u8], few: usize) -> Result<Vec<u8>, AllocError> {
        let mut block = filled.to_vec(heap)?;
        for (row, wrong) in self.damage {
            if *wrong > few {
                self.spoil(&mut block, *row, *wrong);
            }
        }
        Ok(block)
    }

    fn repair(&self, block: &mut [u8]) -> Result<RepairText, Refusal> {
        Ok(RepairText(self.shape.layout()?.repair(block)?))
    }

    fn print_filled(&self, rt: &HostRuntime, filled: &[u8]) -> anyhow::Result<()> {
        let repaired = self
            .repair(&mut filled.to_vec(rt.alloc())?)
            .map_err(as_error)?;
        println!(rt; "  filled: {repaired}")?;
        for (row, wrong) in self.damage {
            println!(rt; "  row {row}: {wrong} bytes wrong")?;
        }
        Ok(())
    }

    // Of the damage that of the rows is left in which more bytes are wrong than half of the checks.
    fn print_damaged(&self, rt: &HostRuntime, filled: &[u8]) -> anyhow::Result<()> {
        let mut block = self.damaged(rt.alloc(), filled, 0)?;
        let repaired = self.repair(&mut block).map_err(as_error)?;
        println!(rt; "  damaged: {repaired}")?;
        let as_meant = block == self.damaged(rt.alloc(), filled, self.shape.checks / 2)?;
        println!(rt; "  rows left as they were damaged, the others as filled: {as_meant}")?;
        Ok(())
    }

    fn print(&self, rt: &HostRuntime) -> anyhow::Result<()> {
        let Shape {
            rows,
            symbols,
            checks,
        } = self.shape;
        println!(rt; "{rows} rows of {symbols} with {checks} checks")?;
        let filled = self.filled(rt.alloc())?;
        self.print_filled(rt, &filled)?;
        self.print_damaged(rt, &filled)
    }
}

pub fn print_all(rt: &HostRuntime) -> anyhow::Result<()> {
    let cases = [
        Case {
            shape: Shape::new(12, 204, 16),
            damage: &[(0, 1), (3, 8), (5, 9), (8, 4), (11, 8)],
        },
        Case {
            shape: Shape::new(24, 120, 10),
            damage: &[(0, 5), (7, 6), (12, 1), (20, 6), (23, 5)],
        },
        Case {
            shape: Shape::new(1, 255, 16),
            damage: &[(0, 8)],
        },
        Case {
            shape: Shape::new(2, 2, 1),
            damage: &[(1, 1)],
        },
    ];
    for case in &cases[..] {
        case.print(rt)?;
    }
    Ok(())
}
