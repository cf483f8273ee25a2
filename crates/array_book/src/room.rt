//! The room that commands need in the buffers of targets. A command that holds blocks there waits for
//! those that do already, because its own act would be refused for want of room later on.

ghost use Rattle.std.specs.Prelude.{◌≡◌, ◌<◌, ◌+◌, ◌^◌, nat_le, reverse, slice_get, if◌then◌else◌};
ghost use Rattle.array_journal.specs.Decision.{holder_of, holds_at, held_count, has_room};
ghost use Rattle.array_book.specs.BookStates.{KeepsBook};
ghost use Rattle.array_book.specs.OpenCommands.{open_tasks};
ghost use Rattle.array_book.specs.OpenTasks.{held_where};

use crate::state::BookState;
use array_journal::{Entry, Kind, Setting, Task, gatherer};

/// The target whose buffer a command will hold blocks in.
pub(crate) fn holder_of(setting: &Setting, task: &Task) -> Option<usize>
    ensures { result ≡ holder_of setting.now task.now.kind task.now }
{
    let waits = setting.mode.update_needs_room();
    let gathers = setting.mode.target_gathers();
    match task.kind {
        Kind::Update if waits => Some(usize::from(task.target)),
        Kind::DegradedRead if gathers => Some(gatherer(task)),
        _ => None,
    }
}

pub(crate) fn does_hold_at(setting: &Setting, target: usize, task: &Task) -> bool
    ensures { result ≡ holds_at setting.now target task.now }
{
    match holder_of(setting, task) {
        Some(holder) => holder == target,
        None => false,
    }
}

/// The blocks that an open command of a task holds at a target.
fn held_of(setting: &Setting, target: usize, task: &Task) -> u128
    ensures value { result ≡ (if holds_at setting.now target task.now then task.now.count else 0) }
    ensures small { result < 2 ^ 32 }
{
    if does_hold_at(setting, target, task) {
        u128::from(task.count)
    } else {
        0
    }
}

/// Whether what a command of a task will hold fits beside so many blocks.
pub(crate) fn does_fit(setting: &Setting, held: u128, task: &Task) -> bool
    requires { held < 2 ^ 96 }
    ensures { result ≡ nat_le (held + task.now.count) setting.now.buffer }
{
    held + u128::from(task.count) <= u128::from(setting.buffer)
}

impl BookState {
    /// The blocks that the open command at a place holds at a target.
    fn held_by(&self, setting: &Setting, entries: &[Entry], target: usize, place: usize) -> u128
        requires { KeepsBook (reverse entries.now) self.now }
        ensures value { result ≡ held_where setting.now target (slice_get (open_tasks (reverse entries.now)) place) }
        ensures small { result < 2 ^ 32 }
    {
        match self.open_task(entries, place) {
            Some(task) => held_of(setting, target, task),
            None => 0,
        }
    }

    /// The blocks that open commands hold at a target.
    fn held_count(&self, setting: &Setting, entries: &[Entry], target: usize) -> u128
        requires { KeepsBook (reverse entries.now) self.now }
        ensures value { result ≡ held_count setting.now (reverse entries.now) target (reverse entries.now) }
        ensures small { result < 2 ^ 96 }
    {
        let mut held = 0;
        for place in 0..self.open_len() {
            let more = self.held_by(setting, entries, target, place);
            held += more;
        }
        held
    }

    /// Whether the buffer has room for what a command of a task will hold.
    pub fn has_room(&self, setting: &Setting, entries: &[Entry], task: &Task) -> bool
        requires { KeepsBook (reverse entries.now) self.now }
        ensures { result ≡ has_room setting.now task.now (reverse entries.now) }
    {
        match holder_of(setting, task) {
            Some(target) => does_fit(setting, self.held_count(setting, entries, target), task),
            None => true,
        }
    }
}
