//! Sense data in fixed format (SPC): why a target ended a command with CHECK CONDITION.
#![tactic(auto)]

mod decoding;
mod encoding;
mod illegal;
mod layout;
mod senses;

pub use decoding::{SenseFault, decode};
pub use encoding::{encode, spelling_law};
pub use senses::{Pointer, Sense};
