//! The answers to calls, and their lines.

ghost use Rattle.std.specs.Prelude.{◌≡◌, ◌==◌, ◌<◌, ◌++◌, ◌∷◌, OnOk, if◌then◌else◌};
ghost use Rattle.stripe_check.specs.Replies.{refusal_check, failure_check, host_text, read_error, write_error, replaced_text, tally_text, reply_text, answer_line};

use crate::command_summary::Tally;
use crate::failure::Failure;
use answer_text::{Check, check_of, plain_check, push_check, push_good};
use array_journal::Why;
use blocks_core::{Bytes, Memory};
use host_requests::is_write;
use host_scripts::{Action, Call};
use text_fields::{push_counted, push_number};

/// The check of a piece that is refused, where a medium error has the one given.
fn refusal_check(medium: Check, why: &Why) -> Check
    requires { medium.key < 16 }
    ensures check { result ≡ refusal_check medium why.now }
    ensures key { result.key < 16 }
{
    match why {
        Why::Illegal { sense } => check_of(sense),
        Why::Medium => medium,
        // NOT READY, for two missing units. The other reasons refuse no call of a host; they have a text
        // only so that every journal has.
        _ => plain_check(2, 4, 0),
    }
}

fn failure_check(medium: Check, failure: &Failure) -> Check
    requires { medium.key < 16 }
    ensures check { result ≡ failure_check medium failure.now }
    ensures key { result.key < 16 }
{
    match failure {
        Failure::Refused { why } => refusal_check(medium, why),
        Failure::Spoilt => plain_check(11, 8, 0),
    }
}

/// The answer to a call that reads or writes.
fn push_host_answer(
    text: &mut Bytes,
    medium: Check,
    bytes: &[u8],
    failure: &Option<Failure>,
) -> Result<(), Memory>
    requires { medium.key < 16 }
    ensures { OnOk result (text.new ≡ text.old ++ host_text medium bytes.now failure.now) }
{
    match failure {
        None => push_good(text, bytes),
        Some(failure) => push_check(text, &failure_check(medium, failure)),
    }
}

/// What a host is told of a missing unit of a listed stripe: an unrecovered read error where it reads,
/// and a write error where it writes.
fn medium_error(writes: bool) -> Check
    ensures check { result ≡ (if writes then write_error else read_error) }
    ensures key { result.key < 16 }
{
    if writes {
        plain_check(3, 0x0c, 0)
    } else {
        plain_check(3, 0x11, 0)
    }
}

fn push_replaced(text: &mut Bytes, failure: &Option<Failure>) -> Result<(), Memory>
    ensures { OnOk result (text.new ≡ text.old ++ replaced_text failure.now) }
{
    match failure {
        None => text.push_slice(b"done"),
        Some(_) => text.push_slice(b"refused"),
    }
}

/// The answer to a call that goes over all stripes.
fn push_tally(text: &mut Bytes, tally: &Tally) -> Result<(), Memory>
    ensures { OnOk result (text.new ≡ text.old ++ tally_text tally.now) }
{
    push_counted(text, b"done", tally.done)?;
    text.push(b' ')?;
    push_number(text, tally.left)
}

/// The answer to a call, by the bytes that it was told, why it failed if it did, and the tally of its
/// pieces.
fn push_answer(
    text: &mut Bytes,
    action: &Action,
    bytes: &[u8],
    failure: &Option<Failure>,
    tally: &Tally,
) -> Result<(), Memory>
    ensures { OnOk result (text.new ≡ text.old ++ reply_text action.now bytes.now failure.now tally.now) }
{
    match action {
        Action::Read { .. } => push_host_answer(text, medium_error(false), bytes, failure),
        Action::Write { .. } | Action::Fill { .. } => {
            push_host_answer(text, medium_error(true), bytes, failure)
        }
        Action::Raw { cdb, .. } => {
            push_host_answer(text, medium_error(is_write(cdb.as_slice())), bytes, failure)
        }
        Action::Lose { .. } | Action::Reset { .. } | Action::DropNext { .. } => {
            text.push_slice(b"done")
        }
        Action::Replace { .. } => push_replaced(text, failure),
        Action::Rebuild { .. } | Action::Resync => push_tally(text, tally),
    }
}

/// The line of the call with a number.
pub fn push_reply(
    text: &mut Bytes,
    number: u64,
    call: &Call,
    bytes: &[u8],
    failure: &Option<Failure>,
    tally: &Tally,
) -> Result<(), Memory>
    requires { call.now.host < 26 }
    ensures { OnOk result (text.new ≡ text.old ++ answer_line number call.now bytes.now failure.now tally.now) }
{
    push_number(text, number)?;
    text.push_slice(&[b' ', b'A' + call.host, b' '])?;
    push_answer(text, &call.action, bytes, failure, tally)?;
    text.push(b'\n')
}
