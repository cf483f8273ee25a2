//! What stands in the way of a task: by the indexes of open commands, and not by going through all of them.

ghost use Rattle.std.specs.Prelude.{◌≡◌, ◌≤◌, ℕ, true, false, MatchOption};
ghost use Rattle.std.specs.BTreeSet.{contains};
ghost use Rattle.std.specs.Ordering.{nat_cmp};
ghost use Rattle.array_journal.specs.Commands.{tasks_conflict};
ghost use Rattle.array_journal.specs.Decision.{has_room, opens_conflict};
ghost use Rattle.array_journal.specs.Entries.{some_at};
ghost use Rattle.array_book.specs.OpenIndexes.{conflicts_with, IsInStripe};
ghost use Rattle.array_book.specs.Waits.{IsFree, IsLeastOpen, WaitsFor};

use crate::conflicts::do_tasks_conflict;
use crate::ledger::Book;
use crate::records::Records;
use crate::room::{does_fit, holder_of};
use array_journal::Task;
use std::collections::BTreeSet;

impl Records {
    /// Whether a task conflicts with that of a command.
    fn does_conflict(&self, task: &Task, command: u32) -> bool
        ensures { result ≡ conflicts_with self.now task.now command }
    {
        match self.task_of(command) {
            Some(other) => do_tasks_conflict(task, other),
            None => false,
        }
    }

    /// Of some commands, the least that a task conflicts with.
    fn least_conflicting(&self, commands: &BTreeSet<u32>, task: &Task) -> Option<u32>
        ensures { MatchOption result ((c : ℕ) → contains nat_cmp commands.now c ≡ true → conflicts_with self.now task.now c ≡ false)
            (λ by. ((contains nat_cmp commands.now by ≡ true) × (conflicts_with self.now task.now by ≡ true)) × ((c : ℕ) → contains nat_cmp commands.now c ≡ true → conflicts_with self.now task.now c ≡ true → by ≤ c)) }
    {
        for command in commands {
            if self.does_conflict(task, *command) {
                return Some(*command);
            }
        }
        None
    }
}

impl Book {
    /// The least open command that a task conflicts with. Tasks keep to the rows of their stripes, so it is one that is
    /// open on the task's own.
    fn least_on_stripe(&self, task: &Task) -> Option<u32>
        requires { IsInStripe self.now.setting task.now }
        ensures { MatchOption result (some_at 0 (opens_conflict self.now.past task.now) self.now.past ≡ false) (λ by. IsLeastOpen self.now.past (tasks_conflict task.now) by) }
    {
        match self.index.on_stripe(task.stripe) {
            Some(commands) => self.records.least_conflicting(commands, task),
            None => None,
        }
    }

    /// Whether the buffer has room for what a command of a task will hold.
    fn has_room(&self, task: &Task) -> bool
        ensures { result ≡ has_room self.now.setting task.now self.now.past }
    {
        match holder_of(&self.setting, task) {
            Some(target) => does_fit(&self.setting, u128::from(self.index.held_at(target)), task),
            None => true,
        }
    }

    /// Where a task conflicts with none and lacks room, the least open command that holds blocks there.
    fn least_filling(&self, task: &Task) -> Option<u32>
        requires small { task.now.count ≤ self.now.setting.buffer }
        requires alone { some_at 0 (opens_conflict self.now.past task.now) self.now.past ≡ false }
        ensures { MatchOption result (IsFree self.now.setting self.now.past task.now) (λ by. WaitsFor self.now.setting self.now.past task.now by) }
    {
        if self.has_room(task) {
            return None;
        }
        match holder_of(&self.setting, task) {
            Some(target) => self.index.first_holder(target),
            None => None,
        }
    }

    /// The open command that a command of a task would have to wait for: the least that it conflicts with, or the least
    /// that holds blocks where it lacks room.
    pub(crate) fn least_in_way(&self, task: &Task) -> Option<u32>
        requires small { task.now.count ≤ self.now.setting.buffer }
        requires rows { IsInStripe self.now.setting task.now }
        ensures { MatchOption result (IsFree self.now.setting self.now.past task.now) (λ by. WaitsFor self.now.setting self.now.past task.now by) }
    {
        match self.least_on_stripe(task) {
            Some(by) => Some(by),
            None => self.least_filling(task),
        }
    }
}
