//! One target: a disk that knows the XOR commands (SBC), what it answers, and the log of what it did.
#![tactic(auto)]

mod act;
mod act_events;
mod admission;
mod answer;
mod disk;
mod failure;
mod gathering;
mod limits;
mod log;
mod logged_disk;
mod logical_unit;
mod names;
mod order;
mod rig;
mod target;
mod waiting;

pub use admission::{Admitted, admit};
pub use answer::{Answer, GoneAt, PeerBack, ShutAnswer};
pub use limits::TargetLimits;
pub use order::{Order, PeerRequest};
pub use rig::Rig;
pub use target::Target;
