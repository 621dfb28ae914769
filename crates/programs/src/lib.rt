// What the programs have in common: the subchannel index that they are called with, and how they end.
#![tactic(auto)]

mod exit;
mod subchannel;

pub use exit::exit_code;
pub use subchannel::{NoSubchannelIndex, SubchannelIndex};
