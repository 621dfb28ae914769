// Worked examples of the check code; then every word of some small codes over two fields is corrected, and each answer held against all
// codewords, one by one.
#![tactic(auto)]

mod examples;
mod modulo13;
mod small_code;
mod small_field;
mod tally;
mod word;

use gf::Gf16;
use modulo13::Modulo13;
use small_code::SmallCode;
use small_field::SmallField;

// Tries every word of a code, and prints what came out.
fn try_code<F: SmallField>(
    rt: &HostRuntime,
    field: &str,
    symbols: usize,
    checks: usize,
) -> anyhow::Result<()> {
    let code = SmallCode::<F>::new(rt.alloc(), symbols, checks)?;
    let tally = code.try_words(rt.alloc())?;
    println!(rt; "{field}, {code}, {tally}")?;
    Ok(())
}

fn main(rt: HostRuntime) -> anyhow::Result<()> {
    examples::print_all(&rt)?;
    for (symbols, checks) in [(2, 1), (3, 1), (3, 2), (4, 2), (4, 3), (5, 4)] {
        try_code::<Gf16>(&rt, "Gf16", symbols, checks)?;
    }
    for (symbols, checks) in [(3, 1), (4, 2), (5, 4)] {
        try_code::<Modulo13>(&rt, "Modulo13", symbols, checks)?;
    }
    Ok(())
}
