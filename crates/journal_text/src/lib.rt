//! The trace of a journal, a line for each entry: printed, and read back.
#![tactic(auto)]

mod fault;
mod printing;
mod ranges;
mod reading;

pub use fault::TraceFault;
pub use printing::trace;
pub use ranges::printed_is_read;
pub use reading::read_trace;
