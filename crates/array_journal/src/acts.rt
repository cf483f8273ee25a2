//! The table of acts: which command acts at which target, and the command (SBC, the XOR commands) that
//! each act is sent as.

ghost use Rattle.std.specs.Prelude.{◌≡◌};
ghost use Rattle.stripe_layout.specs.declared.mode.Mode.{Mode};
ghost use Rattle.array_journal.specs.declared.act.Act.TheVariants.{Fetches, Puts, Diffs, Takes, Folds, Holds};
ghost use Rattle.array_journal.specs.Acts.{gatherer, acts_at, has_act, is_target, task_bytes};

use crate::act::Act;
use crate::setting::Setting;
use crate::task::{Kind, Task};
use stripe_layout::Mode;

/// The target that gathers for a degraded read, where a target does.
pub fn gatherer(task: &Task) -> usize
    ensures { result ≡ gatherer task.now }
{
    if task.target == 0 { 1 } else { 0 }
}

fn fetches_at(mode: Mode, task: &Task, target: usize) -> bool
    ensures { result ≡ acts_at mode Fetches task.now.kind task.now target }
{
    let own = usize::from(task.target) == target;
    let parity = usize::from(task.parity) == target;
    let gathers = mode.target_gathers() && gatherer(task) == target;
    match task.kind {
        Kind::Read => own,
        Kind::DegradedRead => !own && !gathers,
        Kind::DegradedWrite => !own && !parity,
        Kind::Rebuild => !own,
        Kind::Resync => !parity,
        Kind::Update | Kind::DataOnly => false,
    }
}

fn puts_at(task: &Task, target: usize) -> bool
    ensures { (mode : Mode) → result ≡ acts_at mode Puts task.now.kind task.now target }
{
    let own = usize::from(task.target) == target;
    let parity = usize::from(task.parity) == target;
    match task.kind {
        Kind::DataOnly | Kind::Rebuild => own,
        Kind::DegradedWrite | Kind::Resync => parity,
        Kind::Read | Kind::Update | Kind::DegradedRead => false,
    }
}

fn diffs_at(task: &Task, target: usize) -> bool
    ensures { (mode : Mode) → result ≡ acts_at mode Diffs task.now.kind task.now target }
{
    match task.kind {
        Kind::Update => usize::from(task.target) == target,
        _ => false,
    }
}

fn takes_at(mode: Mode, task: &Task, target: usize) -> bool
    ensures { result ≡ acts_at mode Takes task.now.kind task.now target }
{
    match task.kind {
        Kind::Update => mode.takes_delta() && usize::from(task.target) == target,
        Kind::DegradedRead => mode.target_gathers() && gatherer(task) == target,
        _ => false,
    }
}

fn folds_at(task: &Task, target: usize) -> bool
    ensures { (mode : Mode) → result ≡ acts_at mode Folds task.now.kind task.now target }
{
    match task.kind {
        Kind::Update => usize::from(task.parity) == target,
        _ => false,
    }
}

fn holds_at(mode: Mode, task: &Task, target: usize) -> bool
    ensures { result ≡ acts_at mode Holds task.now.kind task.now target }
{
    match task.kind {
        Kind::DegradedRead => mode.target_gathers() && gatherer(task) == target,
        _ => false,
    }
}

fn acts_at(mode: Mode, act: Act, task: &Task, target: usize) -> bool
    ensures { result ≡ acts_at mode act task.now.kind task.now target }
{
    match act {
        Act::Fetches => fetches_at(mode, task, target),
        Act::Puts => puts_at(task, target),
        Act::Diffs => diffs_at(task, target),
        Act::Takes => takes_at(mode, task, target),
        Act::Folds => folds_at(task, target),
        Act::Holds => holds_at(mode, task, target),
    }
}

/// Whether a command with this task makes this act at a target.
pub fn has_act(setting: &Setting, act: Act, task: &Task, target: usize) -> bool
    ensures { result ≡ has_act setting.now act task.now target }
{
    target < usize::from(setting.geometry.targets) && acts_at(setting.mode, act, task, target)
}

/// Whether a command with this task acts at a target.
pub fn is_target(setting: &Setting, task: &Task, target: usize) -> bool
    ensures { result ≡ is_target setting.now task.now target }
{
    let fetches = has_act(setting, Act::Fetches, task, target);
    let puts = has_act(setting, Act::Puts, task, target);
    let diffs = has_act(setting, Act::Diffs, task, target);
    let takes = has_act(setting, Act::Takes, task, target);
    let folds = has_act(setting, Act::Folds, task, target);
    let holds = has_act(setting, Act::Holds, task, target);
    fetches || puts || diffs || takes || folds || holds
}

/// The bytes of a task's blocks.
pub fn task_bytes(setting: &Setting, task: &Task) -> u64
    ensures { result ≡ task_bytes setting.now task.now }
{
    u64::from(task.count) * u64::from(setting.geometry.block)
}
