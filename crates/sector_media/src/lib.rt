//! Media of sectors: the trait by which a target reads and writes its disk, and media in memory, which never
//! fail or fail at the calls that are named.
#![tactic(auto)]

mod failing;
mod medium;
mod memory;

pub use failing::FailingMedium;
pub use medium::Medium;
pub use memory::MemoryMedium;
