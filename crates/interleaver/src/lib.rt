// The rows of a block: where their bytes stand, filling their checks, and correcting them. One text for every number of rows and every
// shape of a word that the check code admits.
#![tactic(auto)]

mod layout;
mod repair;

pub use layout::RowLayout;
pub use repair::Repair;
