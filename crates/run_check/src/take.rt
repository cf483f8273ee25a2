//! Whether held blocks may be taken.

ghost use Rattle.std.specs.Prelude.{◌≡◌, ◌<◌};
ghost use Rattle.xor_buffers.specs.Held.{rows_held};
ghost use Rattle.run_check.specs.ActTest.{of_opened};
ghost use Rattle.run_check.specs.Plain.{same_found};
ghost use Rattle.run_check.specs.TakeTest.{may_take};

use crate::act::may_act;
use crate::context::Context;
use crate::names::opened_task;
use crate::targets::TargetState;
use array_journal::{Act, ActView};
use xor_buffers::{HeldList, Rows};

/// Whether a command holds rows in one piece, and they are these bytes.
fn is_held(buffer: &HeldList, command: u32, rows: Rows, bytes: &[u8]) -> bool
    ensures { result ≡ same_found bytes.now (rows_held rows.block command rows.row rows.len buffer.now) }
{
    match buffer.rows_of(command, rows) {
        Some(held) => bytes == held,
        None => false,
    }
}

/// Whether held blocks may be taken, over what the target's buffer holds.
pub fn may_take(context: &Context, target: &TargetState, fields: &ActView) -> bool
    requires { target.now.number < 255 }
    ensures { result ≡ of_opened context.now.past.now context.now.stamp fields.now.command fields.now.opened
        (may_take context.now.setting.now context.now.past.now target.now.number fields.now.command fields.now.opened fields.now.cdb.now fields.now.row fields.now.bytes.now target.now.buffer.now) }
{
    let Some(task) = opened_task(context, fields.command, fields.opened) else {
        return false;
    };
    let rows = Rows {
        row: fields.row,
        len: fields.bytes.len(),
        block: context.setting.geometry.block,
    };
    let act = may_act(context, target.number, fields, task, Act::Takes, 0);
    let held = is_held(target.buffer, fields.command, rows, fields.bytes);
    act && held
}
