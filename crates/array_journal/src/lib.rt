//! The journal of a parity array: what happened at its targets and in its book, entry by entry, and
//! the definitions by which a journal is judged.
#![tactic(auto)]

mod act;
mod act_view;
mod acts;
mod at;
mod decision;
mod disk_steps;
mod entry;
mod event;
pub mod examples;
mod journal;
pub mod laws;
mod names;
pub mod parts;
mod sending;
mod setting;
mod task;

pub use act::Act;
pub use act_view::ActView;
pub use acts::{gatherer, has_act, is_target, task_bytes};
pub use at::At;
pub use decision::{Decision, Want};
pub use entry::Entry;
pub use event::{Event, What, Why};
pub use journal::{Entries, Journal, merge};
pub use names::Names;
pub use sending::command_of;
pub use setting::Setting;
pub use task::{Kind, Task};
