//! Whether an event of the book may follow.

ghost use Rattle.std.specs.Prelude.{◌≡◌, IfOk};
ghost use Rattle.array_journal.specs.Run.{IsSetting};
ghost use Rattle.run_check.specs.EntryTest.{may_book};

use crate::close::{CloseFields, may_close_open};
use crate::context::Context;
use crate::note::may_note;
use crate::opening::may_open;
use crate::spoil::may_spoil_open;
use crate::swap::may_swap;
use array_journal::Event;
use blocks_core::Memory;
use std::alloc::Global;

/// Whether an event of the book may follow. A refusal always may: whether it is right is asked of the
/// script's calls.
pub fn may_book(alloc: Global, context: &Context, event: &Event) -> Result<bool, Memory>
    requires in_range { IsSetting context.now.setting.now }
    ensures { IfOk result (λ r. r ≡ may_book context.now.setting.now context.now.past.now context.now.stamp event.now) }
{
    let setting = context.setting;
    match event {
        Event::Open { command, task } => Ok(may_open(context, *command, task)),
        Event::Close {
            command,
            done,
            names,
            cause,
            bytes,
        } => {
            let fields = CloseFields {
                done: *done,
                names: names.as_slice(),
                cause: *cause,
                bytes: bytes.as_slice(),
            };
            may_close_open(alloc, context, *command, &fields)
        }
        Event::Spoil {
            command,
            diff,
            loss,
            shut,
        } => Ok(may_spoil_open(context, *command, *diff, *loss, *shut)),
        Event::Note { slot, gone } => {
            Ok(*slot < setting.geometry.targets && may_note(context, usize::from(*slot), *gone))
        }
        Event::Swap { slot, .. } => {
            Ok(
                *slot < setting.geometry.targets
                    && may_swap(setting, context.past, usize::from(*slot)),
            )
        }
        Event::Refuse { .. } => Ok(true),
        _ => Ok(false),
    }
}
