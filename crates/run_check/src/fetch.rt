//! Whether blocks may be read.

ghost use Rattle.std.specs.Prelude.{◌≡◌, ◌<◌};
ghost use Rattle.run_check.specs.ActTest.{of_opened};
ghost use Rattle.run_check.specs.FetchTest.{may_fetch};

use crate::act::{byte_of, may_act};
use crate::context::Context;
use crate::names::opened_task;
use crate::targets::TargetState;
use array_journal::{Act, ActView};

/// Whether blocks may be read, over what the target's medium holds.
pub fn may_fetch(context: &Context, target: &TargetState, fields: &ActView) -> bool
    requires { target.now.number < 255 }
    ensures { result ≡ of_opened context.now.past.now context.now.stamp fields.now.command fields.now.opened
        (may_fetch context.now.setting.now context.now.past.now context.now.stamp target.now.number fields.now.command fields.now.opened fields.now.cdb.now fields.now.row fields.now.bytes.now target.now.medium.now) }
{
    let Some(task) = opened_task(context, fields.command, fields.opened) else {
        return false;
    };
    let act = may_act(context, target.number, fields, task, Act::Fetches, 0);
    let rows = target
        .medium
        .part(byte_of(context.setting, fields.row), fields.bytes.len());
    act && fields.bytes == rows
}
