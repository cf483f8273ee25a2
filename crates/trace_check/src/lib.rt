//! Checking of printed runs: the journal that a trace spells, whether it is a run, and whether it is what
//! the calls of a script ask for.
#![tactic(auto)]

mod asking;
mod checking;
mod judging;
mod laws;

pub use asking::asked;
pub use checking::check;
pub use journal_text::{TraceFault, printed_is_read, read_trace};
pub use laws::{asked_journals_are_told, printed_runs_are_accepted};
pub use run_check::run_fault;
