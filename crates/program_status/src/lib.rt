//! What every program of the array has alike: the words that it is started with, the statuses that it ends
//! with, the lines that say why, and how text and lines are handed out.
#![tactic(auto)]

mod handing;
mod notes;
mod status;
mod stops;
mod words;

pub use handing::{hand, hand_note, hand_out};
pub use notes::{Excess, cause_word, excess_line, numbered_line, refused_line};
pub use status::{Status, Verdict};
pub use stops::{Finding, ProgramStop, found};
pub use words::{is_single_word, single_word, words_after_name};
