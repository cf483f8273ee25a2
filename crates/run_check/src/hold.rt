//! Whether gathered blocks may be held.

ghost use Rattle.std.specs.Prelude.{◌≡◌, ◌<◌, IfOk};
ghost use Rattle.run_check.specs.ActTest.{of_opened};
ghost use Rattle.run_check.specs.HoldTest.{may_hold};

use crate::act::{byte_of, may_act};
use crate::context::{ArrayCommand, Context};
use crate::names::opened_task;
use crate::sums::sum_over;
use crate::target_names::names_fetches;
use crate::targets::TargetState;
use array_journal::{Act, ActView, At};
use blocks_core::Memory;
use std::alloc::Global;

/// What became of gathered blocks: kept in the buffer, handed back.
#[derive(Clone, Copy)]
pub struct HoldWay {
    pub kept: bool,
    pub back: bool,
}

/// Whether gathered blocks may be held, over what the target's medium holds.
pub fn may_hold(
    alloc: Global,
    context: &Context,
    target: &TargetState,
    fields: &ActView,
    way: HoldWay,
    names: &[At],
) -> Result<bool, Memory>
    requires { target.now.number < 255 }
    ensures { IfOk result (λ r. r ≡ of_opened context.now.past.now context.now.stamp fields.now.command fields.now.opened
        (may_hold context.now.setting.now context.now.past.now context.now.stamp target.now.number fields.now.command fields.now.opened fields.now.cdb.now fields.now.row fields.now.bytes.now way.kept names.now way.back target.now.medium.now)) }
{
    let Some(task) = opened_task(context, fields.command, fields.opened) else {
        return Ok(false);
    };
    let command = ArrayCommand {
        number: fields.command,
        task,
    };
    let len = fields.bytes.len();
    let act = may_act(
        context,
        target.number,
        fields,
        task,
        Act::Holds,
        names.len(),
    );
    let fetched = names_fetches(context, &command, names);
    let rows = target
        .medium
        .part(byte_of(context.setting, fields.row), len);
    let sum = sum_over(alloc, context.past, rows, len, names)?;
    Ok(act && way.kept && !way.back && fetched && fields.bytes == sum.as_slice())
}
