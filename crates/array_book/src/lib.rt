//! The book of a parity array: the one place that opens and ends commands, notes losses, swaps disks and lists
//! stripes. Its state is what its entries say: which commands are open, what became of the slots, which units are
//! missing, which stripes are listed. It is kept by the book and by whoever judges its entries, so that both answer
//! alike.
#![tactic(auto)]

mod acting;
mod answers;
mod appending;
mod asks;
mod beginning;
mod commands;
mod conflicts;
mod decision;
mod dirty;
mod ending;
mod facts;
mod groups;
mod held_counts;
mod holders;
mod in_way;
pub mod laws;
mod ledger;
mod missing;
mod noted_slots;
mod open_index;
mod records;
mod room;
mod slot_calls;
mod slots;
mod state;
mod steps;

pub use answers::{Begun, End, Noted, Swapped};
pub use asks::{Aim, Ask, Want};
pub use conflicts::do_tasks_conflict;
pub use decision::{Facts, decide};
pub use ledger::Book;
pub use state::BookState;
