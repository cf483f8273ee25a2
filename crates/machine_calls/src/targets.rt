//! `xor_target`: a target over a medium that fails at named calls, and what befalls it.

ghost use Rattle.sbc_cdbs.specs.Cdbs.{CanEncode};

use crate::target_calls::{
    new_target, push_drop_next, push_failed, push_fresh, push_lose, push_order, push_shut,
    push_wipe,
};
use blocks_core::{Bytes, Memory};
use sbc_cdbs::Command;
use sector_media::FailingMedium;
use std::alloc::Global;
use text_fields::{push_counted, push_hex};
use xor_target::Target;

/// The medium fails at its first renewal, and at its last read.
pub fn push_target(alloc: Global, text: &mut Bytes) -> Result<(), Memory> {
    let mut fails = vec![in alloc; 9]?;
    fails.push(12)?;
    let mut target = new_target(alloc, fails)?;
    push_shut_owners(alloc, text, &mut target)?;
    push_requests(alloc, text, &mut target)?;
    push_reset(alloc, text, &mut target)?;
    push_lost(alloc, text, &mut target)?;
    push_new_disk(alloc, text, &mut target)?;
    push_parts(text, target)
}

/// READ of a row.
fn read(lba: u32) -> Command
    ensures { CanEncode result }
{
    Command::Read {
        dpo: false,
        fua: false,
        lba,
        length: 1,
    }
}

/// WRITE of a row.
fn write(lba: u32) -> Command
    ensures { CanEncode result }
{
    Command::Write {
        dpo: false,
        fua: false,
        lba,
        length: 1,
    }
}

/// XDWRITE of a row.
fn xdwrite(lba: u32) -> Command
    ensures { CanEncode result }
{
    Command::XdWrite {
        dpo: false,
        fua: false,
        disable: false,
        lba,
        length: 1,
    }
}

/// XDREAD of a row.
fn xdread(lba: u32) -> Command
    ensures { CanEncode result }
{
    Command::XdRead { lba, length: 1 }
}

/// XDWRITE EXTENDED of a row, whose delta goes to the first row of target 0.
fn xdwrite_extended(lba: u32) -> Command
    ensures { CanEncode result }
{
    Command::XdWriteExtended {
        dpo: false,
        fua: false,
        disable: false,
        lba,
        second: 0,
        length: 1,
        address: 0,
    }
}

/// REGENERATE of a row, of the first row of target 0.
fn regenerate(lba: u32) -> Command
    ensures { CanEncode result }
{
    Command::Regenerate {
        dpo: false,
        fua: false,
        intdata: false,
        lba,
        length: 1,
        list: 20,
    }
}

/// What a REGENERATE will hold is set aside while its source is asked: its row isn't held for another, and its block takes room. It
/// is let go as soon as the source fails.
pub fn push_set_aside(alloc: Global, text: &mut Bytes) -> Result<(), Memory> {
    let mut target = new_target(alloc, Vec::new(alloc))?;
    let list = [1, 0, 0, 16, 0, 0, 0, 0, 0, 0, 0, 0, 0, 0, 0, 0, 0, 0, 0, 0];
    text.push_slice(b"target")?;
    push_order(alloc, text, &mut target, 8, &regenerate(1), &list)?;
    push_order(alloc, text, &mut target, 9, &xdwrite(1), &[1, 2])?;
    push_order(alloc, text, &mut target, 9, &xdwrite(2), &[3, 4])?;
    push_order(alloc, text, &mut target, 10, &xdwrite(3), &[5, 6])?;
    push_failed(alloc, text, &mut target, 8)?;
    push_order(alloc, text, &mut target, 10, &xdwrite(1), &[7, 8])?;
    push_order(alloc, text, &mut target, 10, &xdread(1), &[])?;
    text.push_slice(b"\n")
}

/// An owner that holds a delta is shut: no order of it is served any more, and the delta is let go. Another did nothing.
fn push_shut_owners(
    alloc: Global,
    text: &mut Bytes,
    target: &mut Target<FailingMedium>,
) -> Result<(), Memory> {
    text.push_slice(b"target")?;
    push_order(alloc, text, target, 1, &xdwrite(0), &[1, 2])?;
    push_shut(text, target, 1, 5)?;
    push_shut(text, target, 1, 5)?;
    push_order(alloc, text, target, 1, &xdread(0), &[])?;
    push_order(alloc, text, target, 2, &xdread(0), &[])?;
    push_shut(text, target, 2, 0)?;
    text.push_slice(b"\n")
}

/// A request that is dropped, and one that isn't, and that then fails at the other target.
fn push_requests(
    alloc: Global,
    text: &mut Bytes,
    target: &mut Target<FailingMedium>,
) -> Result<(), Memory> {
    text.push_slice(b"target")?;
    push_drop_next(alloc, text, target)?;
    push_order(alloc, text, target, 3, &xdwrite_extended(1), &[3, 4])?;
    push_order(alloc, text, target, 4, &xdwrite_extended(2), &[5, 6])?;
    push_order(alloc, text, target, 4, &xdwrite_extended(2), &[5, 6])?;
    push_failed(alloc, text, target, 4)?;
    push_failed(alloc, text, target, 4)?;
    text.push_slice(b"\n")
}

/// A held delta goes with the buffer.
fn push_reset(
    alloc: Global,
    text: &mut Bytes,
    target: &mut Target<FailingMedium>,
) -> Result<(), Memory> {
    text.push_slice(b"target")?;
    push_order(alloc, text, target, 5, &xdwrite(3), &[7, 8])?;
    push_wipe(alloc, text, target)?;
    push_order(alloc, text, target, 5, &xdread(3), &[])?;
    text.push_slice(b"\n")
}

/// The disk is lost; an owner that acted before is shut then.
fn push_lost(
    alloc: Global,
    text: &mut Bytes,
    target: &mut Target<FailingMedium>,
) -> Result<(), Memory> {
    text.push_slice(b"target")?;
    push_lose(alloc, text, target)?;
    push_order(alloc, text, target, 6, &read(0), &[])?;
    push_shut(text, target, 3, 0)?;
    text.push_slice(b"\n")
}

/// A new disk whose renewal fails, and one that is written and then fails at a read.
fn push_new_disk(
    alloc: Global,
    text: &mut Bytes,
    target: &mut Target<FailingMedium>,
) -> Result<(), Memory> {
    text.push_slice(b"target")?;
    push_fresh(alloc, text, target, 15)?;
    push_fresh(alloc, text, target, 0)?;
    push_order(alloc, text, target, 7, &write(0), &[9, 9])?;
    push_order(alloc, text, target, 7, &read(0), &[])?;
    text.push_slice(b"\n")
}

/// How many entries were made; the medium's bytes, and whether the disk is lost.
fn push_parts(text: &mut Bytes, target: Target<FailingMedium>) -> Result<(), Memory> {
    push_counted(text, b"target entries", target.entries().len() as u64)?;
    let (entries, medium, gone) = target.into_parts();
    push_counted(text, b" owned", entries.len() as u64)?;
    text.push_slice(b" medium ")?;
    push_hex(text, medium.as_slice())?;
    let word: &[u8] = if gone { b" gone\n" } else { b" here\n" };
    text.push_slice(word)
}
