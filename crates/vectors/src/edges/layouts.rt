// Layouts of rows that are admitted and that are not, and blocks that are not of their length.
use crate::answer::{Answer, Trial, as_error};
use gf::Refusal;
use interleaver::RowLayout;
use std::alloc::Global;

#[derive(Clone, Copy)]
pub struct Shape {
    pub rows: usize,
    pub symbols: usize,
    pub checks: usize,
}

impl Shape {
    pub const fn new(rows: usize, symbols: usize, checks: usize) -> Shape {
        Shape {
            rows,
            symbols,
            checks,
        }
    }

    pub fn layout(&self) -> Result<RowLayout, Refusal> {
        RowLayout::new(self.rows, self.symbols, self.checks)
    }

    fn print(&self, rt: &HostRuntime) -> anyhow::Result<()> {
        let Shape {
            rows,
            symbols,
            checks,
        } = *self;
        match self.layout() {
            Ok(layout) => {
                let length = layout.block_length();
                println!(rt; "{rows} rows of {symbols} with {checks} checks: {length} bytes")?;
            }
            Err(refusal) => {
                println!(rt; "{rows} rows of {symbols} with {checks} checks: {refusal}")?;
            }
        }
        Ok(())
    }
}

fn print_rows(rt: &HostRuntime) -> anyhow::Result<()> {
    for rows in [0, 1, 24, 25, usize::MAX] {
        Shape::new(rows, 120, 10).print(rt)?;
        Shape::new(rows, 204, 16).print(rt)?;
    }
    Ok(())
}

// The number of rows comes before the shape of a row.
fn print_words(rt: &HostRuntime) -> anyhow::Result<()> {
    for (symbols, checks) in [
        (0, 0),
        (1, 1),
        (2, 1),
        (120, 0),
        (120, 1),
        (120, 16),
        (120, 17),
        (10, 10),
        (11, 10),
        (16, 16),
        (17, 16),
        (255, 16),
        (256, 16),
        (usize::MAX, 10),
        (120, usize::MAX),
    ] {
        Shape::new(12, symbols, checks).print(rt)?;
    }
    Shape::new(25, 120, 0).print(rt)
}

fn try_repair(heap: Global, layout: &RowLayout, length: usize) -> anyhow::Result<Trial> {
    let mut block = vec![in heap; 0xa5u8; length]?;
    let before = block.clone()?;
    let answer = Answer::of(layout.repair(&mut block));
    Ok(Trial::new(answer, block == before))
}

fn try_fill(heap: Global, layout: &RowLayout, length: usize) -> anyhow::Result<Trial> {
    let mut block = vec![in heap; 0xa5u8; length]?;
    let before = block.clone()?;
    let answer = Answer::of(layout.fill_checks(&mut block));
    Ok(Trial::new(answer, block == before))
}

// A layout, and lengths of blocks: none, one byte short, right, one byte long.
fn print_blocks(rt: &HostRuntime, shape: Shape, lengths: [usize; 4]) -> anyhow::Result<()> {
    let Shape { rows, symbols, .. } = shape;
    let layout = shape.layout().map_err(as_error)?;
    for length in lengths {
        let repair = try_repair(rt.alloc(), &layout, length)?;
        println!(rt; "{rows} rows of {symbols}, repair, block of {length} bytes: {repair}")?;
        let fill = try_fill(rt.alloc(), &layout, length)?;
        println!(rt; "{rows} rows of {symbols}, fill_checks, block of {length} bytes: {fill}")?;
    }
    Ok(())
}

pub fn print_all(rt: &HostRuntime) -> anyhow::Result<()> {
    print_rows(rt)?;
    print_words(rt)?;
    print_blocks(rt, Shape::new(1, 2, 1), [0, 1, 2, 3])?;
    print_blocks(rt, Shape::new(12, 204, 16), [0, 2447, 2448, 2449])
}
