//! Buses over the targets and the book of a parity array.
#![tactic(auto)]

mod plain_bus;

pub use plain_bus::{PlainBus, PlainPass};
