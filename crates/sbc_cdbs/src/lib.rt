//! The command descriptor blocks of an XOR disk array: eleven commands of SBC and SPC, as values and as
//! bytes.
#![tactic(auto)]

mod commands;
mod decoding;
mod descriptor;
mod encoding;
mod kinds;
mod tables;

pub use commands::Command;
pub use decoding::{CdbFault, decode, decoding_law};
pub use descriptor::Cdb;
pub use encoding::{encode, spelling_law};
pub use kinds::is_xor_code;
