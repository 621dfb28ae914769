// Edges: calls with the last value that is admitted and the first that is not, each with its answer.
mod adding;
mod buffers;
mod damage;
mod draft;
mod headers;
mod layouts;
mod numbers;
mod sizes;

pub fn print_all(rt: &HostRuntime) -> anyhow::Result<()> {
    sizes::print_all(rt)?;
    buffers::print_all(rt)?;
    headers::print_all(rt)?;
    numbers::print_all(rt)?;
    adding::print_all(rt)?;
    layouts::print_all(rt)?;
    damage::print_all(rt)
}
