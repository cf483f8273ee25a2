//! The array over a bus: calls of hosts, how far each has come in what the array does, and how their pieces are served.
#![tactic(auto)]

mod array;
mod call_run;
mod execute;
mod host_run;
pub mod laws;
mod serving;
mod turns;

pub use array::Array;
pub use host_run::HostRun;
pub use turns::Turned;
