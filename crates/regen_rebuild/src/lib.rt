//! Gatherings: what a target that regenerates or rebuilds blocks has from its sources so far.
#![tactic(auto)]

mod gather;
mod laws;

pub use gather::{Gather, GatherFault, Missing};
pub use laws::a_gathering_is_the_sum_of_its_sources;
