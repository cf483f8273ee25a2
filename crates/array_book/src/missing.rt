//! Units that are missing, by the rebuilds that were opened since their slot was noted.

ghost use Rattle.std.specs.Prelude.{◌≡◌, option_map, reverse};
ghost use Rattle.std.specs.List.{list_any};
ghost use Rattle.std.specs.Option.{option_copied};
ghost use Rattle.array_journal.specs.Lives.{is_missing, has_rebuilt, rebuilds};
ghost use Rattle.array_book.specs.BookStates.{KeepsBook};
ghost use Rattle.array_book.specs.Noted.{missing_by};

use crate::state::BookState;
use array_journal::{Entry, Kind, Task};

/// Whether a task is to rebuild a target's unit of a stripe.
fn rebuilds(task: Option<&Task>, target: usize, stripe: u32) -> bool
    ensures { result ≡ rebuilds target stripe (option_copied task.entry) }
{
    match task {
        Some(task) => {
            matches!(task.kind, Kind::Rebuild)
                && usize::from(task.target) == target
                && task.stripe == stripe
        }
        None => false,
    }
}

impl BookState {
    /// Whether a command rebuilt a unit and is closed as done.
    fn has_rebuilt(&self, entries: &[Entry], target: usize, stripe: u32, command: u32) -> bool
        requires { KeepsBook (reverse entries.now) self.now }
        ensures { result ≡ has_rebuilt (reverse entries.now) target stripe command }
    {
        let task = self.task_of(entries, command);
        let done = self.closes_done(command);
        rebuilds(task, target, stripe) && done
    }

    /// Whether some command did.
    fn is_any_rebuilt(
        &self,
        entries: &[Entry],
        target: usize,
        stripe: u32,
        commands: &[u32],
    ) -> bool
        requires { KeepsBook (reverse entries.now) self.now }
        ensures { result ≡ list_any (has_rebuilt (reverse entries.now) target stripe) commands.now }
    {
        for command in commands {
            if self.has_rebuilt(entries, target, stripe, *command) {
                return true;
            }
        }
        false
    }

    /// Whether a unit is missing, by the commands that were opened to rebuild it since its slot was noted.
    fn is_missing_after(
        &self,
        entries: &[Entry],
        target: usize,
        stripe: u32,
        opened: Option<&[u32]>,
    ) -> bool
        requires { KeepsBook (reverse entries.now) self.now }
        ensures { result ≡ missing_by (has_rebuilt (reverse entries.now) target stripe) (option_map (λ s. s.now) opened.entry) }
    {
        match opened {
            Some(commands) => !self.is_any_rebuilt(entries, target, stripe, commands),
            None => false,
        }
    }

    /// Whether the book knows that a target's disk was lost, and of no rebuild of its unit since. The way
    /// goes through the rebuilds of that unit alone, not through the entries.
    pub fn is_missing(&self, entries: &[Entry], target: usize, stripe: u32) -> bool
        requires { KeepsBook (reverse entries.now) self.now }
        ensures { result ≡ is_missing target stripe (reverse entries.now) }
    {
        let opened = self.noted.opened_since(target, stripe);
        self.is_missing_after(entries, target, stripe, opened)
    }
}
