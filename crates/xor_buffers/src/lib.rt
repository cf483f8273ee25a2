//! What the buffer of a target holds between two commands: blocks of exclusive-or, each run of them
//! with its owner and its first row. `Held` is the target's own buffer, `HeldList` the list that a judge keeps.
#![tactic(auto)]

mod buffer;
mod fault;
mod held;
mod list;
mod owners;

pub use buffer::Held;
pub use fault::{HoldFault, NoMatch};
pub use held::{HeldBlocks, Rows};
pub use list::HeldList;
