//! Whether an entry may follow the ones before it.

ghost use Rattle.std.specs.Prelude.{◌≡◌, ◌<◌, ◌↔◌, suc, IsTrue, IfOk};
ghost use Rattle.array_journal.specs.May.{May};
ghost use Rattle.array_journal.specs.Run.{IsSetting};
ghost use Rattle.run_check.specs.EntryTest.{may_at, may_follow};
ghost use Rattle.run_check.specs.TargetStates.{AreStates};

use crate::book::may_book;
use crate::context::Context;
use crate::target::may_target;
use crate::targets::{TargetState, TargetStates};
use array_journal::{Entry, Setting};
use blocks_core::Memory;
use journal_index::Past;
use std::alloc::Global;

/// Whether an entry may follow the ones before it, which leave this on the targets.
pub fn may_follow(
    alloc: Global,
    setting: &Setting,
    past: &Past,
    states: &TargetStates,
    entry: &Entry,
) -> Result<bool, Memory>
    requires in_range { IsSetting setting.now }
    requires states { AreStates setting.now past.now states.now }
    ensures { IfOk result (λ r. IsTrue r ↔ May setting.now past.now entry.now) }
{
    let context = Context {
        setting,
        past,
        stamp: entry.stamp,
    };
    let follows = judge(alloc, &context, states, entry)?;
    Ok(follows)
}

/// The answer as the definition's test gives it: that the test says `May` is one step more, taken in
/// `may_follow`.
fn judge(
    alloc: Global,
    context: &Context,
    states: &TargetStates,
    entry: &Entry,
) -> Result<bool, Memory>
    requires in_range { IsSetting context.now.setting.now }
    requires states { AreStates context.now.setting.now context.now.past.now states.now }
    requires stamp { context.now.stamp ≡ entry.now.stamp }
    ensures { IfOk result (λ r. r ≡ may_follow context.now.setting.now context.now.past.now entry.now) }
{
    if !context.past.are_stamps_below(entry.lock, entry.stamp) {
        return Ok(false);
    }
    if entry.lock == 0 {
        return may_book(alloc, context, &entry.event);
    }
    judge_target(alloc, context, states, usize::from(entry.lock) - 1, entry)
}

/// Whether an entry's event may follow at a target, with its stamp.
fn judge_target(
    alloc: Global,
    context: &Context,
    states: &TargetStates,
    number: usize,
    entry: &Entry,
) -> Result<bool, Memory>
    requires in_range { IsSetting context.now.setting.now }
    requires bound { number < 255 }
    requires states { AreStates context.now.setting.now context.now.past.now states.now }
    ensures { IfOk result (λ r. r ≡ may_at context.now.setting.now context.now.past.now context.now.stamp (suc number) entry.now.event) }
{
    let media = states.media.as_slice();
    let buffers = states.buffers.as_slice();
    if number >= media.len() || number >= buffers.len() {
        return Ok(false);
    }
    let target = TargetState {
        number,
        medium: &media[number],
        buffer: &buffers[number],
        deltas: &states.deltas,
    };
    let follows = may_target(alloc, context, &target, &entry.event)?;
    Ok(follows)
}
