//! What each act of a command at a target asks, whatever it does.

ghost use Rattle.std.specs.Prelude.{◌≡◌, ◌*◌, ◌<◌, ℕ, List, length};
ghost use Rattle.array_journal.specs.Acts.{has_act, is_act};
ghost use Rattle.array_journal.specs.declared.entry.Entry.{Entry};
ghost use Rattle.array_journal.specs.Entries.{some_at};
ghost use Rattle.journal_index.specs.ActsDone.{acts_done};
ghost use Rattle.run_check.specs.ActTest.{may_act_here, has_rows, may_act};

use crate::context::Context;
use crate::spelt::is_spelt;
use array_journal::{Act, ActView, Setting, Task, has_act, task_bytes};
use journal_index::ActsDone;

fn has_done(acts: ActsDone, act: Act) -> bool
    ensures { (lock command : ℕ) (past : List Entry) → acts ≡ acts_done lock command past → result ≡ some_at lock (is_act act command) past }
{
    match act {
        Act::Fetches => acts.fetched,
        Act::Puts => acts.put,
        Act::Diffs => acts.diffed,
        Act::Takes => acts.taken,
        Act::Folds => acts.folded,
        Act::Holds => acts.held,
    }
}

/// What of an act at a target doesn't hang on its row, length and CDB. A disk that was put in after the
/// command was opened never got the command.
fn may_act_here(context: &Context, target: usize, fields: &ActView, task: &Task, act: Act) -> bool
    requires { target < 255 }
    ensures { result ≡ may_act_here context.now.setting.now context.now.past.now target fields.now.command fields.now.opened task.now act }
{
    let past = context.past;
    let acts = past.acts_done(target as u8 + 1, fields.command);
    let meant = has_act(context.setting, act, task, target);
    let gone = past.is_gone(target);
    let shut = acts.shut;
    let again = has_done(acts, act);
    let other_disk = past.is_swapped_since(target, fields.opened);
    meant && !gone && !shut && !again && !other_disk
}

fn has_rows(setting: &Setting, row: u32, len: usize, task: &Task) -> bool
    ensures { result ≡ has_rows setting.now row len task.now }
{
    let whole = task_bytes(setting, task);
    row == task.row && len as u64 == whole
}

/// Whether a command may make this act at a target, resting on so many fetches.
pub fn may_act(
    context: &Context,
    target: usize,
    fields: &ActView,
    task: &Task,
    act: Act,
    sources: usize,
) -> bool
    requires { target < 255 }
    ensures { result ≡ may_act context.now.setting.now context.now.past.now target fields.now.command fields.now.opened fields.now.cdb.now fields.now.row (length fields.now.bytes.now) sources task.now act }
{
    let here = may_act_here(context, target, fields, task, act);
    let rows = has_rows(context.setting, fields.row, fields.bytes.len(), task);
    let spelt = is_spelt(fields.cdb, context.setting, task, sources, act);
    here && rows && spelt
}

/// The place of a row on a medium, in bytes.
pub fn byte_of(setting: &Setting, row: u32) -> usize
    ensures { result ≡ row * setting.now.geometry.block }
{
    row as usize * setting.geometry.block as usize
}
