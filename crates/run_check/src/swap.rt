//! Whether a slot's disk may be swapped.

ghost use Rattle.std.specs.Prelude.{◌≡◌, slice_get};
ghost use Rattle.array_journal.specs.Acts.{is_target};
ghost use Rattle.array_journal.specs.Entries.{some_at};
ghost use Rattle.array_journal.specs.May.{opens_at};
ghost use Rattle.array_book.specs.OpenCommands.{open_tasks};
ghost use Rattle.array_book.specs.OpenTasks.{passes_task};
ghost use Rattle.run_check.specs.SwapTest.{may_swap};

use array_journal::{Setting, is_target};
use journal_index::Past;

/// Whether the open command at a place has a slot among its targets.
fn is_used_by(setting: &Setting, past: &Past, slot: usize, place: usize) -> bool
    ensures { result ≡ passes_task (λ task. is_target setting.now task slot) (slice_get (open_tasks past.now) place) }
{
    match past.open_task(place) {
        Some(task) => is_target(setting, task, slot),
        None => false,
    }
}

/// Whether some open command has a slot among its targets.
fn is_in_use(setting: &Setting, past: &Past, slot: usize) -> bool
    ensures { result ≡ some_at 0 (opens_at setting.now past.now slot) past.now }
{
    let mut found = false;
    for place in 0..past.open_len() {
        let here = is_used_by(setting, past, slot, place);
        found = here || found;
    }
    found
}

/// Whether a slot's disk may be swapped.
pub fn may_swap(setting: &Setting, past: &Past, slot: usize) -> bool
    ensures { result ≡ may_swap setting.now past.now slot }
{
    let known = past.is_unfitted(slot);
    let used = is_in_use(setting, past, slot);
    known && !used
}
