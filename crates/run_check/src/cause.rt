//! Whether an entry is a cause for which a command ends without effect, or without its fold.

ghost use Rattle.std.specs.Prelude.{◌≡◌, ◌<◌, suc};
ghost use Rattle.run_check.specs.CauseTest.{cause_of_loss, cause_before, cause_of_kind, cause_at, is_cause};

use crate::context::{ArrayCommand, Context};
use crate::names::names;
use crate::questions::Question;
use array_journal::{At, Kind, Task, is_target};

/// Whether an entry is a loss of a slot in the life that the book has swapped so often, and the slot is
/// known to be without a disk.
fn is_cause_of_loss(context: &Context, slot: usize, cause: At) -> bool
    requires { slot < 256 }
    ensures { result ≡ cause_of_loss context.now.past.now context.now.stamp slot cause }
{
    let life = context.past.swap_count(slot);
    let lost = names(context, cause, Question::IsLossIn { life });
    let known = context.past.is_unfitted(slot);
    usize::from(cause.lock) == slot + 1 && lost && known
}

/// Whether a cause is such a loss at the parity target.
pub fn is_parity_lost(context: &Context, task: &Task, cause: At) -> bool
    ensures { result ≡ cause_of_loss context.now.past.now context.now.stamp task.now.parity cause }
{
    is_cause_of_loss(context, usize::from(task.parity), cause)
}

/// Whether an entry is a loss of a slot in the life before.
fn is_cause_before(context: &Context, slot: usize, cause: At) -> bool
    requires { slot < 256 }
    ensures { result ≡ cause_before context.now.past.now context.now.stamp slot cause }
{
    let count = context.past.swap_count(slot);
    if count == 0 {
        return false;
    }
    let lost = names(context, cause, Question::IsLossIn { life: count - 1 });
    usize::from(cause.lock) == slot + 1 && lost
}

/// Whether a cause is one that commands of its kind alone have.
fn is_cause_of_kind(context: &Context, command: &ArrayCommand, cause: At) -> bool
    ensures { result ≡ cause_of_kind context.now.past.now context.now.stamp command.now.number command.now.task.now cause command.now.task.now.kind }
{
    let wiped = Question::IsWipeOf {
        command: command.number,
    };
    match command.task.kind {
        Kind::Rebuild => is_cause_before(context, usize::from(command.task.target), cause),
        Kind::DegradedRead => names(context, cause, wiped),
        _ => false,
    }
}

/// Whether a cause is a loss at a target, which is one of the command's.
fn is_cause_in(context: &Context, task: &Task, slot: usize, cause: At) -> bool
    requires { slot < 256 }
    ensures { result ≡ cause_at context.now.setting.now context.now.past.now context.now.stamp task.now cause (suc slot) }
{
    let meant = is_target(context.setting, task, slot);
    let lost = is_cause_of_loss(context, slot, cause);
    meant && lost
}

/// Whether a cause is a loss at one of the command's targets.
fn is_cause_at(context: &Context, task: &Task, cause: At) -> bool
    ensures { result ≡ cause_at context.now.setting.now context.now.past.now context.now.stamp task.now cause cause.lock }
{
    if cause.lock == 0 {
        return false;
    }
    is_cause_in(context, task, usize::from(cause.lock - 1), cause)
}

/// Whether a command may be given up for a cause.
pub fn is_cause(context: &Context, command: &ArrayCommand, cause: At) -> bool
    ensures { result ≡ is_cause context.now.setting.now context.now.past.now context.now.stamp command.now.number command.now.task.now cause }
{
    let at_target = is_cause_at(context, command.task, cause);
    let of_kind = is_cause_of_kind(context, command, cause);
    at_target || of_kind
}
