//! The stripes that are listed dirty: their parity can't be trusted, since an update lost its delta.
#![tactic(auto)]

mod list;

pub use list::DirtyList;
