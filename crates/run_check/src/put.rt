//! Whether blocks made from fetches may be written.

ghost use Rattle.std.specs.Prelude.{◌≡◌, ◌<◌, IfOk};
ghost use Rattle.run_check.specs.ActTest.{of_opened};
ghost use Rattle.run_check.specs.PutTest.{may_put};

use crate::act::may_act;
use crate::context::{ArrayCommand, Context};
use crate::names::opened_task;
use crate::sums::sum_over;
use crate::target_names::names_fetches;
use array_journal::{Act, ActView, At};
use blocks_core::Memory;
use std::alloc::Global;

/// Whether blocks made from fetches may be written.
pub fn may_put(
    alloc: Global,
    context: &Context,
    target: usize,
    fields: &ActView,
    names: &[At],
) -> Result<bool, Memory>
    requires { target < 255 }
    ensures { IfOk result (λ r. r ≡ of_opened context.now.past.now context.now.stamp fields.now.command fields.now.opened
        (may_put context.now.setting.now context.now.past.now context.now.stamp target fields.now.command fields.now.opened fields.now.cdb.now fields.now.row fields.now.bytes.now names.now)) }
{
    let Some(task) = opened_task(context, fields.command, fields.opened) else {
        return Ok(false);
    };
    let command = ArrayCommand {
        number: fields.command,
        task,
    };
    let act = may_act(context, target, fields, task, Act::Puts, names.len());
    let fetched = names_fetches(context, &command, names);
    let given = task.bytes.as_slice();
    let sum = sum_over(alloc, context.past, given, fields.bytes.len(), names)?;
    Ok(act && fetched && fields.bytes == sum.as_slice())
}
