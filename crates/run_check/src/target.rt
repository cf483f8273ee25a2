//! Whether an event of a target may follow.

ghost use Rattle.std.specs.Prelude.{◌≡◌, ◌<◌, IfOk, None, Some};
ghost use Rattle.array_journal.specs.ActEvents.{act_in, said};
ghost use Rattle.run_check.specs.EntryTest.{may_target};
ghost use Rattle.run_check.specs.SentDeltas.{KeepsDeltas};

use crate::context::Context;
use crate::diff::{DeltaWay, may_diff};
use crate::fetch::may_fetch;
use crate::fold::may_fold;
use crate::fresh::may_freshen;
use crate::gone::may_lose;
use crate::hold::{HoldWay, may_hold};
use crate::put::may_put;
use crate::shut::may_shut;
use crate::take::may_take;
use crate::targets::TargetState;
use crate::wiped::may_wipe;
use array_journal::{ActView, Event};
use blocks_core::Memory;
use std::alloc::Global;

/// Whether an act may follow, of which these are the fields.
fn may_make(
    alloc: Global,
    context: &Context,
    target: &TargetState,
    fields: &ActView,
    event: &Event,
) -> Result<bool, Memory>
    requires bound { target.now.number < 255 }
    requires deltas { KeepsDeltas context.now.setting.now context.now.past.now target.now.deltas.now }
    requires fields { act_in event.now ≡ Some (said fields.now) }
    ensures { IfOk result (λ r. r ≡ may_target context.now.setting.now context.now.past.now context.now.stamp target.now.number target.now.medium.now target.now.buffer.now event.now) }
{
    match event {
        Event::Fetch { .. } => Ok(may_fetch(context, target, fields)),
        Event::Put { names, .. } => {
            may_put(alloc, context, target.number, fields, names.as_slice())
        }
        Event::Diff {
            sent,
            dropped,
            back,
            ..
        } => {
            let way = DeltaWay {
                sent: *sent,
                dropped: *dropped,
                back: *back,
            };
            Ok(may_diff(context, target.number, fields, way))
        }
        Event::Take { .. } => Ok(may_take(context, target, fields)),
        Event::Fold { names, .. } => Ok(may_fold(context, target, fields, names.as_slice())),
        Event::Hold {
            kept,
            names,
            back,
            ..
        } => {
            let way = HoldWay {
                kept: *kept,
                back: *back,
            };
            may_hold(alloc, context, target, fields, way, names.as_slice())
        }
        _ => Ok(false),
    }
}

/// Whether what is no act may follow at a target.
fn may_befall(
    alloc: Global,
    context: &Context,
    target: &TargetState,
    event: &Event,
) -> Result<bool, Memory>
    requires { target.now.number < 255 }
    ensures { IfOk result (λ r. act_in event.now ≡ None → r ≡ may_target context.now.setting.now context.now.past.now context.now.stamp target.now.number target.now.medium.now target.now.buffer.now event.now) }
{
    match event {
        Event::Shut {
            command,
            opened,
            acted,
            gone,
        } => Ok(may_shut(context, target.number, *command, *opened, *acted, *gone)),
        Event::Gone { life, commands, .. } => {
            may_lose(alloc, context.past, target, *life, commands)
        }
        Event::Wiped { what, commands, .. } => may_wipe(alloc, *what, commands, target.buffer),
        Event::Fresh { call, swap } => Ok(may_freshen(context, target.number, *call, *swap)),
        _ => Ok(false),
    }
}

/// Whether an event of a target may follow, over what its medium and buffer hold.
pub fn may_target(
    alloc: Global,
    context: &Context,
    target: &TargetState,
    event: &Event,
) -> Result<bool, Memory>
    requires bound { target.now.number < 255 }
    requires deltas { KeepsDeltas context.now.setting.now context.now.past.now target.now.deltas.now }
    ensures { IfOk result (λ r. r ≡ may_target context.now.setting.now context.now.past.now context.now.stamp target.now.number target.now.medium.now target.now.buffer.now event.now) }
{
    match event.act() {
        Some(fields) => may_make(alloc, context, target, &fields, event),
        None => may_befall(alloc, context, target, event),
    }
}
