//! Whether an open update may end spoilt.

ghost use Rattle.std.specs.Prelude.{◌≡◌};
ghost use Rattle.run_check.specs.CloseTest.{of_open};
ghost use Rattle.run_check.specs.SpoilTest.{lost_delta, may_spoil};

use crate::context::{ArrayCommand, Context};
use crate::names::{is_same_name, names, open_task};
use crate::plain::is_same_kind;
use crate::questions::Question;
use array_journal::{Act, At, Kind};

/// Whether a diff's delta was lost: its request was dropped, or an entry discarded it.
fn is_delta_lost(context: &Context, command: &ArrayCommand, diff: At, loss: At) -> bool
    ensures { result ≡ lost_delta context.now.past.now context.now.stamp command.now.number diff loss command.now.task.now }
{
    let number = command.number;
    let same = is_same_name(loss, diff);
    let dropped = names(context, diff, Question::IsDroppedDiff { command: number });
    let discarded = names(context, loss, Question::Discards { command: number });
    (same && dropped)
        || (usize::from(loss.lock) == usize::from(command.task.target) + 1 && discarded)
}

/// Whether an open update may end spoilt.
fn may_spoil(context: &Context, command: &ArrayCommand, diff: At, loss: At, shut: At) -> bool
    ensures { result ≡ may_spoil context.now.past.now context.now.stamp command.now.number diff loss shut command.now.task.now }
{
    let number = command.number;
    let task = command.task;
    let question = Question::IsAct {
        act: Act::Diffs,
        command: number,
    };
    let update = is_same_kind(task.kind, Kind::Update);
    let at_target = usize::from(diff.lock) == usize::from(task.target) + 1;
    let differed = names(context, diff, question);
    let lost = is_delta_lost(context, command, diff, loss);
    let at_parity = usize::from(shut.lock) == usize::from(task.parity) + 1;
    let idle = names(context, shut, Question::ShutsIdle { command: number });
    update && at_target && differed && lost && at_parity && idle
}

/// Whether a command is open and may end spoilt.
pub fn may_spoil_open(context: &Context, command: u32, diff: At, loss: At, shut: At) -> bool
    ensures { result ≡ of_open context.now.past.now command (may_spoil context.now.past.now context.now.stamp command diff loss shut) }
{
    let Some(task) = open_task(context.past, command) else {
        return false;
    };
    let command = ArrayCommand {
        number: command,
        task,
    };
    may_spoil(context, &command, diff, loss, shut)
}
