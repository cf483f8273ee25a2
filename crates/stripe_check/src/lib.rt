//! Reports of runs: what each call of a script was answered, and what the journal leaves on the media.
#![tactic(auto)]

mod absent_units;
mod answers;
pub mod asked_examples;
mod call_outcomes;
mod call_places;
mod command_summary;
mod commands;
mod counts;
mod failure;
mod listed;
mod media;
mod medium;
mod places;
mod reply;
mod reports;
mod sums;
mod tallies;

pub use failure::Failure;
pub use journal_text::trace;
pub use media::{first_media, write_entry, write_event};
pub use medium::ReplayedMedium;
pub use reports::{report, sum, summary};
