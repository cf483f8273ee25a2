//! Whether a delta may be folded into parity.

ghost use Rattle.std.specs.Prelude.{◌≡◌, ◌+◌, ◌<◌};
ghost use Rattle.array_journal.specs.declared.task.Task.{Task};
ghost use Rattle.array_journal.specs.Entries.{entry_at};
ghost use Rattle.array_journal.specs.May.{is_under_way};
ghost use Rattle.run_check.specs.ActTest.{of_opened};
ghost use Rattle.run_check.specs.FoldTest.{is_source, one_source, may_fold};
ghost use Rattle.run_check.specs.SentDeltas.{kept_source, KeepsDeltas};

use crate::act::may_act;
use crate::context::Context;
use crate::deltas::SentDeltas;
use crate::names::opened_task;
use crate::plain::is_found;
use crate::targets::TargetState;
use array_journal::{Act, ActView, At, Event};
use stripe_layout::Mode;

/// Whether the delta of a diff is on its way to parity: its target sent it and no request was dropped, or
/// the controller has it back.
fn is_under_way(mode: Mode, sent: bool, dropped: bool, back: bool) -> bool
    ensures { result ≡ is_under_way mode sent dropped back }
{
    let at_parity = mode.sends_delta() && sent && !dropped;
    let handed_back = mode.hands_delta_back() && back;
    at_parity || handed_back
}

/// Whether a fold may rest on the entry of a name, by the delta that is kept for this.
fn is_kept_source(context: &Context, deltas: &SentDeltas, fields: &ActView, name: At) -> bool
    ensures { result ≡ kept_source context.now.setting.now deltas.now fields.now.command name fields.now.bytes.now (entry_at name context.now.past.now) }
{
    match context.past.entry_at(name) {
        Some(Event::Take { command, bytes, .. }) => {
            let same = bytes.as_slice() == fields.bytes;
            *command == fields.command && same
        }
        Some(
            Event::Diff {
                command,
                sent,
                dropped,
                back,
                ..
            },
        ) => {
            let under_way = is_under_way(context.setting.mode, *sent, *dropped, *back);
            let same = is_found(fields.bytes, deltas.delta_of(name));
            under_way && *command == fields.command && same
        }
        _ => false,
    }
}

/// The same, by the definition's delta.
fn is_source(context: &Context, deltas: &SentDeltas, fields: &ActView, source: u8, name: At) -> bool
    requires deltas { KeepsDeltas context.now.setting.now context.now.past.now deltas.now }
    requires at { name.lock ≡ source + 1 }
    ensures { (task : Task) → task.target ≡ source → result ≡ is_source context.now.setting.now context.now.past.now fields.now.command task name fields.now.bytes.now (entry_at name context.now.past.now) }
{
    is_kept_source(context, deltas, fields, name)
}

/// Whether there is one name, of what a fold may rest on at the task's target.
fn is_one_source(
    context: &Context,
    deltas: &SentDeltas,
    fields: &ActView,
    source: u8,
    names: &[At],
) -> bool
    requires { KeepsDeltas context.now.setting.now context.now.past.now deltas.now }
    ensures { (task : Task) → task.target ≡ source → result ≡ one_source context.now.setting.now context.now.past.now context.now.stamp fields.now.command task fields.now.bytes.now names.now }
{
    match names {
        [name] => {
            if usize::from(name.lock) != usize::from(source) + 1 || name.stamp >= context.stamp {
                return false;
            }
            is_source(context, deltas, fields, source, *name)
        }
        _ => false,
    }
}

/// Whether a delta may be folded.
pub fn may_fold(context: &Context, target: &TargetState, fields: &ActView, names: &[At]) -> bool
    requires bound { target.now.number < 255 }
    requires deltas { KeepsDeltas context.now.setting.now context.now.past.now target.now.deltas.now }
    ensures { result ≡ of_opened context.now.past.now context.now.stamp fields.now.command fields.now.opened
        (may_fold context.now.setting.now context.now.past.now context.now.stamp target.now.number fields.now.command fields.now.opened fields.now.cdb.now fields.now.row fields.now.bytes.now names.now) }
{
    let Some(task) = opened_task(context, fields.command, fields.opened) else {
        return false;
    };
    let act = may_act(context, target.number, fields, task, Act::Folds, 0);
    let source = is_one_source(context, target.deltas, fields, task.target, names);
    act && source
}
