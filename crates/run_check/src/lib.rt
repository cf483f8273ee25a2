//! Which entry may follow a journal: each condition in a file named after the event that it is on.
#![tactic(auto)]

mod act;
mod act_names;
mod book;
mod buffers;
mod cause;
mod close;
mod context;
mod deltas;
mod diff;
mod entry;
mod faults;
mod fetch;
mod fold;
mod fresh;
mod gone;
mod hold;
mod names;
mod note;
mod opening;
mod plain;
mod put;
mod questions;
mod shut;
mod spelt;
mod spoil;
mod state;
mod sums;
mod swap;
mod take;
mod target;
mod target_names;
mod targets;
mod wiped;

pub use faults::run_fault;
pub use names::is_same_name;
pub use state::RunState;
