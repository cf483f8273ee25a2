//! The XOR control page 10h (SBC), and how MODE SENSE gives it and MODE SELECT sets it.
#![tactic(auto)]

mod bits;
mod codec;
mod pages;
mod parameters;

pub use codec::{decode_page, encode_page, spelling_law};
pub use pages::{PageFault, XorPage};
pub use parameters::{select, sense};
