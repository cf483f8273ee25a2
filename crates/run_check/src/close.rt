//! Whether an open command may close.

ghost use Rattle.std.specs.Prelude.{◌≡◌, ◌&&◌, IfOk};
ghost use Rattle.std.specs.Str.{bytes_eq};
ghost use Rattle.array_journal.specs.declared.act.Act.TheVariants.{Fetches, Puts, Diffs, Takes, Holds};
ghost use Rattle.array_journal.specs.May.{first_taken, closed_bytes};
ghost use Rattle.run_check.specs.ActNameTests.{all_named};
ghost use Rattle.run_check.specs.CloseTest.{names_acts, may_close_whole, may_close_unfolded, may_give_up, may_close, of_open};

use crate::act_names::{is_all_named, is_each_own, is_fold_named};
use crate::cause::{is_cause, is_parity_lost};
use crate::context::{ArrayCommand, Context};
use crate::names::{do_names_rise, open_task};
use crate::plain::is_same_kind;
use crate::sums::sum_over;
use crate::target_names::names_shuts;
use array_journal::{Act, At, Event, Kind, Task, task_bytes};
use blocks_core::Memory;
use journal_index::Past;
use std::alloc::Global;

/// What the end of a command says of itself.
#[derive(Clone, Copy)]
pub struct CloseFields<'a> {
    pub done: bool,
    pub names: &'a [At],
    pub cause: Option<At>,
    pub bytes: &'a [u8],
}

/// Whether each of a command's acts of five kinds is named. A fold is not asked for here: where the parity
/// target is gone, an update ends without it.
fn are_five_named(context: &Context, command: &ArrayCommand, names: &[At]) -> bool
    ensures { result ≡ (all_named context.now.setting.now context.now.past.now command.now.number command.now.task.now Fetches names.now
        && all_named context.now.setting.now context.now.past.now command.now.number command.now.task.now Puts names.now
        && all_named context.now.setting.now context.now.past.now command.now.number command.now.task.now Diffs names.now
        && all_named context.now.setting.now context.now.past.now command.now.number command.now.task.now Takes names.now
        && all_named context.now.setting.now context.now.past.now command.now.number command.now.task.now Holds names.now) }
{
    let fetches = is_all_named(context, command, Act::Fetches, names);
    let puts = is_all_named(context, command, Act::Puts, names);
    let diffs = is_all_named(context, command, Act::Diffs, names);
    let takes = is_all_named(context, command, Act::Takes, names);
    let holds = is_all_named(context, command, Act::Holds, names);
    fetches && puts && diffs && takes && holds
}

/// Whether the names are acts of the command, each once, in the order of the journal, and each of its
/// acts of five kinds.
fn names_acts(context: &Context, command: &ArrayCommand, names: &[At]) -> bool
    ensures { result ≡ names_acts context.now.setting.now context.now.past.now context.now.stamp command.now.number command.now.task.now names.now }
{
    let rise = do_names_rise(names);
    let own = is_each_own(context, command, names);
    let five = are_five_named(context, command, names);
    rise && own && five
}

fn first_taken<'a>(past: &Past<'a>, names: &[At]) -> &'a [u8]
    ensures { result.now ≡ first_taken past.now names.now }
{
    for name in names {
        if let Some(Event::Take { bytes, .. }) = past.entry_at(*name) {
            return bytes.as_slice();
        }
    }
    &[]
}

/// Whether these are the bytes that the command answers.
fn is_answer(
    alloc: Global,
    context: &Context,
    task: &Task,
    names: &[At],
    bytes: &[u8],
) -> Result<bool, Memory>
    ensures { IfOk result (λ r. r ≡ bytes_eq bytes.now (closed_bytes context.now.setting.now context.now.past.now task.now names.now task.now.kind)) }
{
    if !matches!(task.kind, Kind::DegradedRead) {
        return Ok(bytes == [].as_slice());
    }
    if context.setting.mode.target_gathers() {
        return Ok(bytes == first_taken(context.past, names));
    }
    let len = task_bytes(context.setting, task) as usize;
    let sum = sum_over(alloc, context.past, [].as_slice(), len, names)?;
    Ok(bytes == sum.as_slice())
}

/// Whether a command may close as done, with each act made.
fn may_close_whole(
    alloc: Global,
    context: &Context,
    command: &ArrayCommand,
    fields: &CloseFields,
) -> Result<bool, Memory>
    ensures { IfOk result (λ r. r ≡ may_close_whole context.now.setting.now context.now.past.now context.now.stamp command.now.number command.now.task.now fields.now.names.now fields.now.bytes.now) }
{
    let acts = names_acts(context, command, fields.names);
    let folds = is_all_named(context, command, Act::Folds, fields.names);
    let answer = is_answer(alloc, context, command.task, fields.names, fields.bytes)?;
    Ok(acts && folds && answer)
}

/// Whether an update may close as done without its fold, as the parity target is gone.
fn may_close_unfolded(
    context: &Context,
    command: &ArrayCommand,
    fields: &CloseFields,
    cause: At,
) -> bool
    ensures { result ≡ may_close_unfolded context.now.setting.now context.now.past.now context.now.stamp command.now.number command.now.task.now fields.now.names.now cause fields.now.bytes.now }
{
    let update = is_same_kind(command.task.kind, Kind::Update);
    let acts = names_acts(context, command, fields.names);
    let folded = is_fold_named(context.past, command.number, fields.names);
    let lost = is_parity_lost(context, command.task, cause);
    let empty = fields.bytes.is_empty();
    update && acts && !folded && lost && empty
}

/// Whether a command may close without effect.
fn may_give_up(context: &Context, command: &ArrayCommand, fields: &CloseFields, cause: At) -> bool
    ensures { result ≡ may_give_up context.now.setting.now context.now.past.now context.now.stamp command.now.number command.now.task.now fields.now.names.now cause fields.now.bytes.now }
{
    let shut = names_shuts(context, command, fields.names);
    let caused = is_cause(context, command, cause);
    shut && caused && fields.bytes.is_empty()
}

/// Whether an open command may close.
fn may_close(
    alloc: Global,
    context: &Context,
    command: &ArrayCommand,
    fields: &CloseFields,
) -> Result<bool, Memory>
    ensures { IfOk result (λ r. r ≡ may_close context.now.setting.now context.now.past.now context.now.stamp command.now.number fields.now.done fields.now.names.now fields.now.cause fields.now.bytes.now command.now.task.now) }
{
    match (fields.done, fields.cause) {
        (true, None) => may_close_whole(alloc, context, command, fields),
        (true, Some(cause)) => Ok(may_close_unfolded(context, command, fields, cause)),
        (false, None) => Ok(false),
        (false, Some(cause)) => Ok(may_give_up(context, command, fields, cause)),
    }
}

/// Whether a command is open and may close.
pub fn may_close_open(
    alloc: Global,
    context: &Context,
    command: u32,
    fields: &CloseFields,
) -> Result<bool, Memory>
    ensures { IfOk result (λ r. r ≡ of_open context.now.past.now command (may_close context.now.setting.now context.now.past.now context.now.stamp command fields.now.done fields.now.names.now fields.now.cause fields.now.bytes.now)) }
{
    let Some(task) = open_task(context.past, command) else {
        return Ok(false);
    };
    let command = ArrayCommand {
        number: command,
        task,
    };
    may_close(alloc, context, &command, fields)
}
