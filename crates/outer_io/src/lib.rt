//! What a command reads from and writes to: traits that count their faults, and tell their bytes
//! where they can.
#![tactic(auto)]

mod adapters;
mod failing;
mod failing_calls;
mod gate;
mod input;
mod memory;
mod traits;
mod writing;

pub use adapters::{ReaderSource, WriterSink};
pub use failing::{FailingSink, FailingSource};
pub use failing_calls::FailingCalls;
pub use gate::{Gate, GatePoint, OpenGate};
pub use input::{InputFault, READ_LIMIT, read_input};
pub use memory::{MemorySink, MemorySource};
pub use traits::{Failed, Sink, Source};
pub use writing::write_all;
