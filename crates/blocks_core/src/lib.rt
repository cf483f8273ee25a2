//! Bytes, whole blocks of bytes and their exclusive-or: the one arithmetic of a parity array.
#![tactic(auto)]

mod blocks;
mod bytes;
mod laws;
mod memory;
mod owners;
mod sum;
mod xor;

pub use blocks::{Blocks, Ragged};
pub use bytes::Bytes;
pub use laws::{xor_is_associative, xor_is_commutative, xor_is_its_own_inverse};
pub use memory::Memory;
pub use owners::Owners;
pub use sum::XorSum;
pub use xor::xor_into;
