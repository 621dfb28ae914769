// Runs recordings, worked examples and edges through the library, and prints what came out.
#![tactic(auto)]

mod answer;
mod damaged;
mod edges;
mod examples;
mod reading;
mod recording;
mod recordings;
mod resealed;

fn main(rt: HostRuntime) -> anyhow::Result<()> {
    examples::print_all(&rt)?;
    recordings::compare_all(&rt)?;
    resealed::compare_all(&rt)?;
    damaged::compare_all(&rt)?;
    edges::print_all(&rt)
}
