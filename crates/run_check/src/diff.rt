//! Whether new blocks of a host may be written.

ghost use Rattle.std.specs.Prelude.{◌≡◌, ◌<◌};
ghost use Rattle.run_check.specs.ActTest.{of_opened};
ghost use Rattle.run_check.specs.DiffTest.{may_diff};

use crate::act::may_act;
use crate::context::Context;
use crate::names::opened_task;
use crate::plain::is_same;
use array_journal::{Act, ActView};

/// What became of a diff's delta: sent to the parity target, dropped on the way, handed back.
#[derive(Clone, Copy)]
pub struct DeltaWay {
    pub sent: bool,
    pub dropped: bool,
    pub back: bool,
}

/// Whether new blocks of a host may be written.
pub fn may_diff(context: &Context, target: usize, fields: &ActView, way: DeltaWay) -> bool
    requires { target < 255 }
    ensures { result ≡ of_opened context.now.past.now context.now.stamp fields.now.command fields.now.opened
        (may_diff context.now.setting.now context.now.past.now target fields.now.command fields.now.opened fields.now.cdb.now fields.now.row fields.now.bytes.now way.sent way.dropped way.back) }
{
    let Some(task) = opened_task(context, fields.command, fields.opened) else {
        return false;
    };
    let mode = context.setting.mode;
    let act = may_act(context, target, fields, task, Act::Diffs, 0);
    let written = fields.bytes == task.bytes.as_slice();
    let sends = is_same(way.sent, mode.sends_delta());
    let hands = is_same(way.back, mode.hands_delta_back());
    let due = way.sent && context.past.drops(target) > 0;
    let when_due = is_same(way.dropped, due);
    act && written && sends && hands && when_due
}
