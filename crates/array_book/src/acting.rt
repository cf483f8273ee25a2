//! Which of the open commands that act at a target was opened first.

ghost use Rattle.std.specs.Prelude.{◌≡◌, reverse, slice_get};
ghost use Rattle.array_journal.specs.Acts.{is_target};
ghost use Rattle.array_book.specs.BookStates.{KeepsBook};
ghost use Rattle.array_book.specs.OpenCommands.{open_tasks};
ghost use Rattle.array_book.specs.OpenTasks.{passes_task, first_open};

use crate::state::BookState;
use array_journal::{Entry, Setting, is_target};

impl BookState {
    /// Whether the open command at a place acts at a target.
    fn does_act_at(&self, setting: &Setting, entries: &[Entry], target: usize, place: usize) -> bool
        requires { KeepsBook (reverse entries.now) self.now }
        ensures { result ≡ passes_task (λ task. is_target setting.now task target) (slice_get (open_tasks (reverse entries.now)) place) }
    {
        match self.open_task(entries, place) {
            Some(task) => is_target(setting, task, target),
            None => false,
        }
    }

    /// Of the open commands that act at a target, the one that was opened first.
    pub(crate) fn first_acting(
        &self,
        setting: &Setting,
        entries: &[Entry],
        target: usize,
    ) -> Option<u32>
        requires { KeepsBook (reverse entries.now) self.now }
        ensures { result ≡ first_open (λ task. is_target setting.now task target) (reverse entries.now) }
    {
        for place in 0..self.open_len() {
            if self.does_act_at(setting, entries, target, place) {
                return self.open_command(place);
            }
        }
        None
    }
}
