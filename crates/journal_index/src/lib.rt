//! The entries of a journal so far, with what is asked of them kept at hand. Most of it is asked by a
//! lookup. Some goes through a list: the end of a command through the openings that stand, the swaps
//! before a stamp through those of their slot, and a missing unit through the rebuilds of it that were
//! opened since its slot was noted.
#![tactic(auto)]

mod acts_done;
mod command_acts;
mod disks;
mod index;
mod names;
mod past;
mod rising;
mod stamps;

pub use acts_done::ActsDone;
pub use index::Index;
pub use past::Past;
