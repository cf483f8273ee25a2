//! Whether a command may be shut at a target.

ghost use Rattle.std.specs.Prelude.{◌≡◌, ◌<◌, ◌||◌, ℕ, List};
ghost use Rattle.array_journal.specs.Acts.{changes_medium};
ghost use Rattle.array_journal.specs.declared.entry.Entry.{Entry};
ghost use Rattle.array_journal.specs.Entries.{some_at};
ghost use Rattle.journal_index.specs.ActsDone.{acts_done};
ghost use Rattle.run_check.specs.ActTest.{of_opened};
ghost use Rattle.run_check.specs.ShutTest.{may_shut};

use crate::context::Context;
use crate::names::opened_task;
use crate::plain::{is_same, is_same_place};
use array_journal::{At, Kind, is_target};
use journal_index::ActsDone;

fn has_changed(acts: ActsDone) -> bool
    ensures { (lock command : ℕ) (past : List Entry) → acts ≡ acts_done lock command past → result ≡ some_at lock (changes_medium command) past }
{
    is_any(acts.put, acts.diffed, acts.folded)
}

fn is_any(a: bool, b: bool, c: bool) -> bool
    ensures { result ≡ (a || b || c) }
{
    a || b || c
}

/// Whether a command may be shut at a target.
pub fn may_shut(
    context: &Context,
    target: usize,
    command: u32,
    opened: At,
    acted: bool,
    lost: Option<At>,
) -> bool
    requires { target < 255 }
    ensures { result ≡ of_opened context.now.past.now context.now.stamp command opened (may_shut context.now.setting.now context.now.past.now target command acted lost) }
{
    let Some(task) = opened_task(context, command, opened) else {
        return false;
    };
    let acts = context.past.acts_done(target as u8 + 1, command);
    let meant = is_target(context.setting, task, target);
    let answered = matches!(task.kind, Kind::Read) && acts.fetched;
    let says_acted = is_same(acted, has_changed(acts));
    let says_lost = is_same_place(lost, context.past.loss_of(target));
    meant && !acts.shut && !answered && says_acted && says_lost
}
