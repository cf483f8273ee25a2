//! Whether a command may open.

ghost use Rattle.std.specs.Prelude.{◌≡◌, ◌+◌, ◌&&◌, nat_le};
ghost use Rattle.stripe_layout.specs.Layout.{IsArray, first_row, unit_rows};
ghost use Rattle.array_journal.specs.Run.{IsSetting};
ghost use Rattle.run_check.specs.OpenTest.{is_unit, is_task_of_kind, is_task, is_decided, may_open};

use crate::context::Context;
use crate::plain::is_same_kind;
use array_book::decide;
use array_journal::{Decision, Kind, Setting, Task, Want, task_bytes};
use stripe_layout::Geometry;

/// Whether a task's rows are all those of its stripe.
fn is_unit(setting: &Setting, task: &Task) -> bool
    requires { IsSetting setting.now }
    ensures { result ≡ is_unit setting.now task.now }
{
    let first = setting.geometry.first_row(task.stripe);
    let rows = setting.geometry.unit_rows(task.stripe);
    task.row == first && task.count == rows
}

fn is_task_of_kind(setting: &Setting, task: &Task) -> bool
    requires { IsSetting setting.now }
    ensures { result ≡ is_task_of_kind setting.now task.now task.now.kind }
{
    let is_of_data = task.target != task.parity;
    let is_empty = task.bytes.is_empty();
    let is_unit = is_unit(setting, task);
    let has_blocks = task.bytes.len() as u64 == task_bytes(setting, task);
    match task.kind {
        Kind::Read | Kind::DegradedRead => is_of_data && is_empty,
        Kind::Update | Kind::DataOnly | Kind::DegradedWrite => is_of_data && has_blocks,
        Kind::Rebuild => is_unit && is_empty,
        Kind::Resync => is_unit && is_empty && task.target == task.parity,
    }
}

/// Whether a task's rows are rows of its stripe.
fn is_in_stripe(geometry: &Geometry, stripe: u32, row: u32, count: u32) -> bool
    requires { IsArray geometry.now }
    ensures { result ≡ (nat_le 1 count && nat_le (first_row geometry.now stripe) row && nat_le (row + count) (first_row geometry.now stripe + unit_rows geometry.now stripe)) }
{
    let first = u64::from(geometry.first_row(stripe));
    let end = first + u64::from(geometry.unit_rows(stripe));
    count >= 1 && first <= u64::from(row) && u64::from(row) + u64::from(count) <= end
}

fn is_task(setting: &Setting, task: &Task) -> bool
    requires { IsSetting setting.now }
    ensures { result ≡ is_task setting.now task.now }
{
    let geometry = &setting.geometry;
    let parity = geometry.parity(task.stripe);
    let in_stripe = is_in_stripe(geometry, task.stripe, task.row, task.count);
    let of_kind = is_task_of_kind(setting, task);
    task.stripe < geometry.stripes()
        && task.parity == parity
        && task.target < geometry.targets
        && in_stripe
        && of_kind
}

fn is_decided(context: &Context, task: &Task) -> bool
    requires { IsSetting context.now.setting.now }
    ensures { result ≡ is_decided context.now.setting.now context.now.past.now task.now }
{
    let target = usize::from(task.target);
    let facts = context.past.facts(context.setting, task.stripe, target);
    match decide(Want::of(task.kind), &facts) {
        Decision::Opens(kind) => is_same_kind(kind, task.kind),
        Decision::Refuses(_) => false,
    }
}

/// Whether a command of a number and a task may open.
pub fn may_open(context: &Context, command: u32, task: &Task) -> bool
    requires { IsSetting context.now.setting.now }
    ensures { result ≡ may_open context.now.setting.now context.now.past.now command task.now }
{
    let past = context.past;
    if command as usize != past.open_count() || !is_task(context.setting, task) {
        return false;
    }
    if !is_decided(context, task) || past.first_in_way(task).is_some() {
        return false;
    }
    past.has_room(context.setting, task)
}
