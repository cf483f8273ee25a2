//! What values bytes spell, and their texts.

mod cdbs;
mod faults;
mod lines;
mod pages;
mod params;
mod senses;
mod values;

pub use faults::DecodeFault;
pub use lines::{fault_line, value_line};
pub use values::{DecodedValue, Format, Undecoded, value_of};
