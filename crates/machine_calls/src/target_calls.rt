//! Single calls of a target over a medium that fails at named calls, each with what it answers.

ghost use Rattle.std.specs.Prelude.{◌≡◌, false, None};
ghost use Rattle.array_journal.specs.Acts.{shuts_command};
ghost use Rattle.array_journal.specs.Owners.{shut_at};
ghost use Rattle.sbc_cdbs.specs.Cdbs.{CanEncode};

use answer_text::{check_of, push_check, push_good};
use array_journal::{At, Event, Names};
use blocks_core::{Bytes, Memory};
use sbc_cdbs::{Command, encode};
use sector_media::{FailingMedium, MemoryMedium};
use std::alloc::Global;
use text_fields::{push_counted, push_number};
use xor_mode_page::XorPage;
use xor_target::{Answer, Order, PeerBack, ShutAnswer, Target};

/// No maxima, no delay, and the XOR commands are served.
const PAGE: XorPage = XorPage {
    xordis: false,
    max_write: 0,
    max_regenerate: 0,
    max_rebuild: 0,
    delay: 0,
};

/// Target 1 of three, with four rows of two bytes, and room for two blocks in its buffer. The calls of its medium that
/// fail are given by their numbers, from 1.
pub fn new_target(alloc: Global, fails: Vec<u64>) -> Result<Target<FailingMedium>, Memory> {
    let medium = FailingMedium::new(MemoryMedium::new(alloc, 2, 4)?, fails);
    Target::new(alloc, 1, 3, 2, 2, PAGE, medium)
}

fn push_name(text: &mut Bytes, word: &[u8], at: At) -> Result<(), Memory> {
    push_counted(text, word, at.stamp)?;
    text.push(b'.')?;
    push_number(text, u64::from(at.lock))
}

fn push_loss(text: &mut Bytes, loss: Option<At>) -> Result<(), Memory> {
    match loss {
        Some(at) => push_name(text, b" loss", at),
        None => Ok(()),
    }
}

fn push_made(text: &mut Bytes, made: &Names) -> Result<(), Memory> {
    for at in made.as_slice() {
        push_name(text, b" made", *at)?;
    }
    Ok(())
}

/// The loss of a disk, in one of its lives.
fn push_gone(text: &mut Bytes, at: At, life: u32) -> Result<(), Memory> {
    push_name(text, b" gone", at)?;
    push_counted(text, b" life", u64::from(life))
}

fn push_answer(text: &mut Bytes, answer: &Answer) -> Result<(), Memory> {
    match answer {
        Answer::Good { bytes, made } => {
            text.push(b' ')?;
            push_good(text, bytes.as_slice())?;
            push_made(text, made)
        }
        Answer::Check { sense, made, loss } => {
            text.push(b' ')?;
            push_check(text, &check_of(sense))?;
            push_made(text, made)?;
            push_loss(text, *loss)
        }
        Answer::Gone { at, life, loss } => {
            push_gone(text, *at, *life)?;
            push_loss(text, *loss)
        }
        Answer::Shut { at } => push_name(text, b" shut", *at),
        Answer::Peer { request, made } => {
            push_counted(text, b" peer", u64::from(request.to))?;
            push_made(text, made)
        }
        Answer::Memory => Err(Memory),
    }
}

/// An order of an owner that has seen no entry.
fn order_of(alloc: Global, owner: u32, command: &Command, bytes: &[u8]) -> Result<Order, Memory>
    requires { CanEncode command.now }
{
    Ok(Order {
        owner,
        opened: At { stamp: 0, lock: 0 },
        names: Names::new(alloc),
        stamp: 0,
        cdb: Bytes::from_slice(alloc, encode(command).as_slice())?,
        bytes: Bytes::from_slice(alloc, bytes)?,
    })
}

/// Sends an order, if its owner isn't waited for.
pub fn push_order(
    alloc: Global,
    text: &mut Bytes,
    target: &mut Target<FailingMedium>,
    owner: u32,
    command: &Command,
    bytes: &[u8],
) -> Result<(), Memory>
    requires { CanEncode command.now }
{
    let order = order_of(alloc, owner, command, bytes)?;
    if target.waits(order.owner) {
        return text.push_slice(b" waits");
    }
    let answer = target.execute(alloc, &order);
    push_answer(text, &answer)
}

/// Hands back that the request of an owner failed, if it is waited for.
pub fn push_failed(
    alloc: Global,
    text: &mut Bytes,
    target: &mut Target<FailingMedium>,
    owner: u32,
) -> Result<(), Memory> {
    if !target.waits(owner) {
        return text.push_slice(b" waits not");
    }
    let answer = target.resume(alloc, owner, &PeerBack::Failed, 0);
    push_answer(text, &answer)
}

/// Whether an event shuts an owner.
fn does_shut(event: &Event, owner: u32) -> bool
    ensures { result ≡ shuts_command owner event.now }
{
    match event {
        Event::Shut { command, .. } => *command == owner,
        _ => false,
    }
}

/// Whether an owner was shut at a target.
fn is_shut(target: &Target<FailingMedium>, owner: u32) -> bool
    ensures { result ≡ false → shut_at target.now.number owner target.now.past ≡ None }
{
    for entry in target.entries().as_slice() {
        if does_shut(&entry.event, owner) {
            return true;
        }
    }
    false
}

fn push_shut_answer(text: &mut Bytes, answer: ShutAnswer) -> Result<(), Memory> {
    push_name(text, b" shut", answer.at)?;
    let word: &[u8] = if answer.acted { b" acted" } else { b" idle" };
    text.push_slice(word)?;
    push_loss(text, answer.gone)?;
    push_counted(text, b" life", u64::from(answer.life))
}

/// Shuts an owner, once, by one who has seen stamps up to this one.
pub fn push_shut(
    text: &mut Bytes,
    target: &mut Target<FailingMedium>,
    owner: u32,
    stamp: u64,
) -> Result<(), Memory> {
    if is_shut(target, owner) {
        return text.push_slice(b" shut before");
    }
    let answer = target.shut(owner, At { stamp: 0, lock: 0 }, stamp)?;
    push_shut_answer(text, answer)
}

/// Loses the disk.
pub fn push_lose(
    alloc: Global,
    text: &mut Bytes,
    target: &mut Target<FailingMedium>,
) -> Result<(), Memory> {
    let gone = target.lose(alloc, 7, 0)?;
    push_gone(text, gone.at, gone.life)
}

/// Resets the buffer.
pub fn push_wipe(
    alloc: Global,
    text: &mut Bytes,
    target: &mut Target<FailingMedium>,
) -> Result<(), Memory> {
    let at = target.wipe(alloc, 8, 0)?;
    push_name(text, b" wiped", at)
}

/// Has the next request dropped.
pub fn push_drop_next(
    alloc: Global,
    text: &mut Bytes,
    target: &mut Target<FailingMedium>,
) -> Result<(), Memory> {
    let at = target.drop_next(alloc, 9, 0)?;
    push_name(text, b" drops", at)
}

/// Puts a new disk in, by one who has seen stamps up to this one.
pub fn push_fresh(
    alloc: Global,
    text: &mut Bytes,
    target: &mut Target<FailingMedium>,
    stamp: u64,
) -> Result<(), Memory> {
    let swap = At { stamp, lock: 0 };
    let answer = target.fresh(alloc, 10, swap, stamp);
    push_answer(text, &answer)
}
