//! The commands of the array, from the words and bytes that come in to the bytes and status that go
//! out.
#![tactic(auto)]

mod array;
mod decoding;
mod execute;
mod findings;
mod made;
mod numerals;
mod refusals;
mod script_runs;
mod target_runs;
mod text;
mod top;
mod unsupported;
mod words;

pub use top::{Outcome, tool};
