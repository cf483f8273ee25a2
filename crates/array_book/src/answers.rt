//! What the calls of the book are handed and answer.

use array_journal::{At, Names, Task, Why};
use blocks_core::Bytes;

/// What a piece that is begun is answered.
#[derive(Debug, Drop)]
pub enum Begun {
    /// A command is open for it, by the entry of this name. Its number is new.
    Opened { at: At, command: u32, task: Task },
    /// Nothing is made: the piece has to wait for this command, which is open. Of several it is the least.
    Again { by: u32 },
    /// The piece is refused, by the entry of this name.
    Refused { at: At, why: Why },
    Memory,
}

/// How a command ends: done or without effect, the entries that say so, why it didn't come to its end, and the
/// blocks that a degraded read answers.
#[derive(Debug, Drop)]
pub struct End {
    pub done: bool,
    pub names: Names,
    pub cause: Option<At>,
    pub bytes: Bytes,
}

/// What is answered where a loss is to be noted.
#[derive(Clone, Copy, Debug, PartialEq, Eq)]
pub enum Noted {
    Made { at: At },
    /// The slot's loss is known, and it has no new disk yet.
    Already,
    /// The loss is one of another disk than the slot's: this is how often the slot was swapped.
    Stale { swaps: u32 },
    Memory,
}

/// What is answered where a slot is to get a new disk.
#[derive(Clone, Copy, Debug, PartialEq, Eq)]
pub enum Swapped {
    Made { at: At },
    /// Nothing is made: the swap has to wait for this command, which is open and acts there. Of several it is the
    /// least.
    Again { by: u32 },
    /// The slot isn't lost, or has a new disk: that is written down by the entry of this name.
    Refused { at: At, why: Why },
    Memory,
}
