// Sources and receivers at their edges: tests, which stand apart so that no other crate is proved a second time for them.
#![tactic(auto)]

#[cfg(test)]
mod expectation;
#[cfg(test)]
mod frame_sources;
#[cfg(test)]
mod receivers;
