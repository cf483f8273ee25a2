//! Commands that may not be open beside each other.

ghost use Rattle.std.specs.Prelude.{◌≡◌, ◌+◌, ◌&&◌, nat_lt, is_some, reverse, slice_get};
ghost use Rattle.array_journal.specs.Commands.{is_shared, is_shared_write, tasks_conflict};
ghost use Rattle.array_journal.specs.Decision.{opens_conflict};
ghost use Rattle.array_journal.specs.Entries.{some_at};
ghost use Rattle.array_book.specs.BookStates.{KeepsBook};
ghost use Rattle.array_book.specs.OpenCommands.{open_tasks};
ghost use Rattle.array_book.specs.OpenTasks.{passes_task, first_open};

use crate::state::BookState;
use array_journal::{Entry, Kind, Task};

/// Whether commands of a kind run beside others on their stripe.
fn is_shared(kind: Kind) -> bool
    ensures { result ≡ is_shared kind }
{
    matches!(kind, Kind::Read | Kind::Update | Kind::DataOnly)
}

fn is_shared_write(kind: Kind) -> bool
    ensures { result ≡ is_shared_write kind }
{
    matches!(kind, Kind::Update | Kind::DataOnly)
}

/// Whether two runs of rows have a row in common.
fn do_runs_meet(a: u32, a_count: u32, b: u32, b_count: u32) -> bool
    ensures { result ≡ (nat_lt a (b + b_count) && nat_lt b (a + a_count)) }
{
    let a_end = u64::from(a) + u64::from(a_count);
    let b_end = u64::from(b) + u64::from(b_count);
    u64::from(a) < b_end && u64::from(b) < a_end
}

/// Whether one command may not be open beside the other.
pub fn do_tasks_conflict(a: &Task, b: &Task) -> bool
    ensures { result ≡ tasks_conflict a.now b.now }
{
    let both_shared = is_shared(a.kind) && is_shared(b.kind);
    let both_write = is_shared_write(a.kind) && is_shared_write(b.kind);
    let meet = do_runs_meet(a.row, a.count, b.row, b.count);
    (a.stripe == b.stripe && !both_shared) || (both_write && a.target == b.target && meet)
}

impl BookState {
    /// Whether a task conflicts with the open one at a place.
    fn is_in_way(&self, entries: &[Entry], task: &Task, place: usize) -> bool
        requires { KeepsBook (reverse entries.now) self.now }
        ensures { result ≡ passes_task (tasks_conflict task.now) (slice_get (open_tasks (reverse entries.now)) place) }
    {
        match self.open_task(entries, place) {
            Some(other) => do_tasks_conflict(task, other),
            None => false,
        }
    }

    /// Of the open commands that a task conflicts with, the one that was opened first.
    fn first_conflicting(&self, entries: &[Entry], task: &Task) -> Option<u32>
        requires { KeepsBook (reverse entries.now) self.now }
        ensures { result ≡ first_open (tasks_conflict task.now) (reverse entries.now) }
    {
        for place in 0..self.open_len() {
            if self.is_in_way(entries, task, place) {
                return self.open_command(place);
            }
        }
        None
    }

    /// The open command that a task has to wait for, since the two conflict. Of several it is the one
    /// that was opened first, so that whoever waits asks again when the oldest of them has ended.
    pub fn first_in_way(&self, entries: &[Entry], task: &Task) -> Option<u32>
        requires { KeepsBook (reverse entries.now) self.now }
        ensures found { is_some result ≡ some_at 0 (opens_conflict (reverse entries.now) task.now) (reverse entries.now) }
        ensures first { result ≡ first_open (tasks_conflict task.now) (reverse entries.now) }
    {
        self.first_conflicting(entries, task)
    }
}
