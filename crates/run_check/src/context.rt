//! What an entry is judged by.

use array_journal::{Setting, Task};
use journal_index::Past;

/// What each condition on an entry may look at beside the entry's own words: the setting, the entries
/// before it, and the stamp that it gets.
#[derive(Clone, Copy)]
pub struct Context<'a> {
    pub setting: &'a Setting,
    pub past: &'a Past<'a>,
    pub stamp: u64,
}

/// A command of the array: its number, and the task that it was opened with.
#[derive(Clone, Copy)]
pub struct ArrayCommand<'a> {
    pub number: u32,
    pub task: &'a Task,
}
