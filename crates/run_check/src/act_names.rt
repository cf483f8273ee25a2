//! Names of the acts of a command.

ghost use Rattle.std.specs.Prelude.{◌≡◌, ◌==◌, ◌+◌, ◌<◌, ◌&&◌, not, suc};
ghost use Rattle.array_journal.specs.declared.act.Act.TheVariants.{Folds};
ghost use Rattle.array_journal.specs.Acts.{has_act, is_act};
ghost use Rattle.array_journal.specs.Entries.{entry_at};
ghost use Rattle.array_journal.specs.May.{passes, is_named, is_own_act};
ghost use Rattle.run_check.specs.NameTests.{names};
ghost use Rattle.run_check.specs.ActNameTests.{each_own, all_named, fold_named, is_named_where_due};

use crate::context::{ArrayCommand, Context};
use crate::names::passes;
use crate::questions::{Question, answer};
use array_journal::{Act, At, Event, Setting, has_act};
use journal_index::Past;

/// Whether a name is of this act of a command at a target.
fn is_name_of(past: &Past, command: u32, act: Act, target: usize, name: At) -> bool
    requires { target < 256 }
    ensures { result ≡ ((name.lock == target + 1) && passes (is_act act command) (entry_at name past.now)) }
{
    usize::from(name.lock) == target + 1 && passes(past, name, Question::IsAct { act, command })
}

/// Whether some name is of this act of a command at a target.
fn is_named(past: &Past, command: u32, act: Act, target: usize, names: &[At]) -> bool
    requires { target < 256 }
    ensures { result ≡ is_named past.now command act target names.now }
{
    for name in names {
        if is_name_of(past, command, act, target, *name) {
            return true;
        }
    }
    false
}

/// Whether an act is named at a target where the task has it.
fn is_named_where_due(
    context: &Context,
    command: &ArrayCommand,
    act: Act,
    names: &[At],
    target: usize,
) -> bool
    requires { target < 256 }
    ensures { result ≡ is_named_where_due context.now.setting.now context.now.past.now command.now.number command.now.task.now act names.now target }
{
    !has_act(context.setting, act, command.task, target)
        || is_named(context.past, command.number, act, target, names)
}

/// Whether an act of a task is named at each target at which the task has it.
pub fn is_all_named(context: &Context, command: &ArrayCommand, act: Act, names: &[At]) -> bool
    ensures { result ≡ all_named context.now.setting.now context.now.past.now command.now.number command.now.task.now act names.now }
{
    for target in 0..usize::from(context.setting.geometry.targets) {
        if !is_named_where_due(context, command, act, names, target) {
            return false;
        }
    }
    true
}

/// Whether an event is this act of a command, and its task has it at a target.
fn is_act_at(
    setting: &Setting,
    command: &ArrayCommand,
    act: Act,
    target: usize,
    event: &Event,
) -> bool
    ensures { result ≡ (has_act setting.now act command.now.task.now target && is_act act command.now.number event.now) }
{
    let question = Question::IsAct {
        act,
        command: command.number,
    };
    has_act(setting, act, command.task, target) && answer(question, event)
}

/// Whether an event is one of the six acts, of a command whose task has it at a target.
fn is_own_at(setting: &Setting, command: &ArrayCommand, target: usize, event: &Event) -> bool
    ensures { result ≡ is_own_act setting.now command.now.number command.now.task.now (suc target) event.now }
{
    let fetches = is_act_at(setting, command, Act::Fetches, target, event);
    let puts = is_act_at(setting, command, Act::Puts, target, event);
    let diffs = is_act_at(setting, command, Act::Diffs, target, event);
    let takes = is_act_at(setting, command, Act::Takes, target, event);
    let folds = is_act_at(setting, command, Act::Folds, target, event);
    let holds = is_act_at(setting, command, Act::Holds, target, event);
    fetches || puts || diffs || takes || folds || holds
}

/// Whether an event is an act of a command that its task has at the target of a lock.
fn is_own_act(setting: &Setting, command: &ArrayCommand, lock: u8, event: &Event) -> bool
    ensures { result ≡ is_own_act setting.now command.now.number command.now.task.now lock event.now }
{
    if lock == 0 {
        return false;
    }
    is_own_at(setting, command, usize::from(lock - 1), event)
}

/// Whether a name is of an act of the command that its task has there, with a smaller stamp.
fn is_own(context: &Context, command: &ArrayCommand, name: At) -> bool
    ensures { result ≡ names context.now.past.now context.now.stamp name (is_own_act context.now.setting.now command.now.number command.now.task.now name.lock) }
{
    match context.past.entry_at(name) {
        Some(event) => {
            is_own_act(context.setting, command, name.lock, event) && name.stamp < context.stamp
        }
        None => false,
    }
}

/// Whether each name is of an act of the command that its task has there.
pub fn is_each_own(context: &Context, command: &ArrayCommand, names: &[At]) -> bool
    ensures { result ≡ each_own context.now.setting.now context.now.past.now context.now.stamp command.now.number command.now.task.now names.now }
{
    for name in names {
        if !is_own(context, command, *name) {
            return false;
        }
    }
    true
}

/// Whether a name is of a fold of the command.
fn is_fold(past: &Past, command: u32, name: At) -> bool
    ensures { result ≡ (not (name.lock == 0) && passes (is_act Folds command) (entry_at name past.now)) }
{
    let question = Question::IsAct {
        act: Act::Folds,
        command,
    };
    name.lock != 0 && passes(past, name, question)
}

/// Whether a fold of the command is among the names.
pub fn is_fold_named(past: &Past, command: u32, names: &[At]) -> bool
    ensures { result ≡ fold_named past.now command names.now }
{
    for name in names {
        if is_fold(past, command, *name) {
            return true;
        }
    }
    false
}
