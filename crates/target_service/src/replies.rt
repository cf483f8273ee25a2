//! What a target sends back.

ghost use Rattle.std.specs.Prelude.{◌≡◌, ◌++◌, Some, OnOk, IfOk};
ghost use Rattle.target_service.specs.Replies.{reply_bytes, answer_reply, reply_of};

use bench_runs::LineAnswer;
use blocks_core::{Bytes, Memory};
use sense_data::encode;
use std::alloc::Global;
use xor_target::Answer;

/// GOOD, with the bytes that were read.
const GOOD: u8 = 0x00;

/// CHECK CONDITION, with sense data. Both numbers are the status bytes of SAM.
const CHECK: u8 = 0x02;

/// The target's disk is lost.
const GONE: u8 = 0xf0;

/// What isn't a command was done.
const DONE: u8 = 0xf1;

/// A reply of a kind with these bytes. More of them than its length can tell are taken for want of memory; no
/// medium has as many.
fn reply(alloc: Global, kind: u8, bytes: &[u8]) -> Result<Bytes, Memory>
    ensures { IfOk result (λ reply. reply ≡ reply_bytes kind bytes.now) }
{
    let Ok(len) = u32::try_from(bytes.len()) else {
        return Err(Memory);
    };
    let mut reply = Bytes::from_slice(alloc, &[kind, 0, 0, 0])?;
    reply.push_slice(&len.to_be_bytes())?;
    reply.push_slice(bytes)?;
    Ok(reply)
}

/// The reply to a command.
fn answer_reply(alloc: Global, answer: &Answer) -> Result<Bytes, Memory>
    ensures { IfOk result (λ reply. answer_reply answer.now ≡ Some reply) }
{
    match answer {
        Answer::Good { bytes, .. } => reply(alloc, GOOD, bytes.as_slice()),
        Answer::Check { sense, .. } => reply(alloc, CHECK, &encode(sense)),
        Answer::Gone { .. } => reply(alloc, GONE, &[]),
        // No frame shuts an owner, and requests were carried, so of these three only want of memory comes.
        Answer::Shut { .. } | Answer::Peer { .. } | Answer::Memory => Err(Memory),
    }
}

/// The reply to a frame.
pub fn reply_of(alloc: Global, came: &LineAnswer) -> Result<Bytes, Memory>
    ensures { IfOk result (λ reply. reply_of came.now ≡ Some reply) }
{
    match came {
        LineAnswer::Answered(answer) => answer_reply(alloc, answer),
        LineAnswer::Done => reply(alloc, DONE, &[]),
    }
}
