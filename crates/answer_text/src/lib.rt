//! How the answer of a command is told in a line: GOOD with what was read, or CHECK CONDITION with its sense.
#![tactic(auto)]

mod check;

pub use check::{Check, check_of, plain_check, push_check, push_good};
