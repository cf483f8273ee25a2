//! Fields of descriptor blocks and parameter lists: runs of bits in a byte, and big endian numbers.
#![tactic(auto)]

mod bit_fields;
mod numbers;
mod reserved;
mod table;

pub use bit_fields::{Field, bits_law};
pub use numbers::{Number, number_law};
pub use reserved::first_reserved;
