//! A logical unit (SBC): a disk with its log, and the commands that wait there for other targets.

mod befalling;
mod gathering;
mod sending;

use crate::logged_disk::LoggedDisk;
use crate::waiting::WaitingList;
use sector_media::Medium;
pub use sending::Secondary;

/// A disk with its log, and the commands that wait for what other targets answer.
#[derive(Drop)]
pub struct LogicalUnit<M: Medium + Drop> {
    pub logged: LoggedDisk<M>,
    pub waiting: WaitingList,
}
