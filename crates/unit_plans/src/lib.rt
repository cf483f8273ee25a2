//! Plans of commands on a parity array, the bus over which they act, and what is asked of who acts there; and what they lean on:
//! that what is answered may follow the journal.
#![tactic(auto)]

mod acts;
mod bus;
mod doings;
pub mod laws;
mod plan;
mod steps;

pub use acts::{Act, Acted, BookAct, BookActed};
pub use bus::{Bus, Stop};
pub use doings::{Do, Reply, Said};
pub use plan::Plan;
