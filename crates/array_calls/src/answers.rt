//! What hosts are told, in lines.

ghost use Rattle.std.specs.Prelude.{◌≡◌, ◌++◌, OnOk};
ghost use Rattle.array_control.specs.Replies.{done_text, told_text};

use answer_text::{check_of, push_check, push_good};
use blocks_core::{Bytes, Memory};
use host_scripts::{Action, Call};
use text_fields::{push_counted, push_number};
use unit_plans::Reply;

/// That a call was done.
fn push_done(text: &mut Bytes, action: &Action, made: u32, left: u32) -> Result<(), Memory>
    ensures { OnOk result (text.new ≡ text.old ++ done_text action.now made left) }
{
    match action {
        Action::Rebuild { .. } | Action::Resync => {
            push_counted(text, b"done", u64::from(made))?;
            text.push(b' ')?;
            push_number(text, u64::from(left))
        }
        _ => text.push_slice(b"done"),
    }
}

/// A reply, as a report tells it.
fn push_told(text: &mut Bytes, action: &Action, reply: &Reply) -> Result<(), Memory>
    ensures { OnOk result (text.new ≡ text.old ++ told_text action.now reply.now) }
{
    match reply {
        Reply::Good { bytes } => push_good(text, bytes.as_slice()),
        Reply::Check { sense } => push_check(text, &check_of(sense)),
        Reply::Done { made, left } => push_done(text, action, *made, *left),
        Reply::Refused => text.push_slice(b"refused"),
    }
}

/// A line for each reply: the number of its call, the letter of the first host, and what it was told. These are the replies to the
/// first of the calls, in their order.
pub fn push_replies(text: &mut Bytes, calls: &[Call], replies: &[Reply]) -> Result<(), Memory> {
    for (place, (call, reply)) in calls.iter().zip(replies).enumerate() {
        push_number(text, place as u64 + 1)?;
        text.push_slice(b" A ")?;
        push_told(text, &call.action, reply)?;
        text.push(b'\n')?;
    }
    Ok(())
}
