//! What books and targets keep: listed stripes, media, gatherings.

use blocks_core::{Bytes, Memory};
use dirty_list::DirtyList;
use outer_io::Failed;
use regen_rebuild::{Gather, GatherFault};
use sector_media::{FailingMedium, Medium, MemoryMedium};
use std::alloc::Global;
use text_fields::{push_counted, push_hex};

pub fn push_state(alloc: Global, text: &mut Bytes) -> Result<(), Memory> {
    push_dirty_list(alloc, text)?;
    push_medium(alloc, text)?;
    push_failing_medium(alloc, text)?;
    push_gathering(alloc, text)?;
    push_missing(alloc, text)
}

/// The first command that lists a stripe stays; then the stripe is cleared.
fn push_dirty_list(alloc: Global, text: &mut Bytes) -> Result<(), Memory> {
    let mut list = DirtyList::new(alloc);
    list.list(7, 3)?;
    list.list(2, 4)?;
    list.list(7, 5)?;
    text.push_slice(b"listed")?;
    push_found(text, list.find(7))?;
    push_counted(text, b" of", u64::from(list.len()))?;
    list.clear(7);
    push_found(text, list.find(7))?;
    push_found(text, list.find(2))?;
    text.push_slice(b"\n")
}

fn push_found(text: &mut Bytes, command: Option<u32>) -> Result<(), Memory> {
    match command {
        Some(command) => push_counted(text, b"", u64::from(command)),
        None => text.push_slice(b" none"),
    }
}

/// Three rows of two bytes: the last two are written, the last is read, and all are made zeros.
fn push_medium(alloc: Global, text: &mut Bytes) -> Result<(), Memory> {
    let mut medium = MemoryMedium::new(alloc, 2, 3)?;
    let mut row = [0; 2];
    text.push_slice(b"medium")?;
    push_done(text, medium.write(1, &[1, 2, 3, 4]))?;
    push_done(text, medium.read(2, &mut row))?;
    text.push_slice(b" ")?;
    push_hex(text, &row)?;
    text.push_slice(b" ")?;
    push_hex(text, medium.as_slice())?;
    push_done(text, medium.renew())?;
    text.push_slice(b" ")?;
    push_hex(text, medium.as_slice())?;
    text.push_slice(b"\n")
}

/// The same of a medium of which the second and the fourth call fail.
fn push_failing_medium(alloc: Global, text: &mut Bytes) -> Result<(), Memory> {
    let mut fails = vec![in alloc; 2]?;
    fails.push(4)?;
    let mut medium = FailingMedium::new(MemoryMedium::new(alloc, 2, 3)?, fails);
    let mut row = [0; 2];
    text.push_slice(b"failing medium")?;
    push_done(text, medium.write(1, &[1, 2, 3, 4]))?;
    push_done(text, medium.write(0, &[5, 6]))?;
    push_done(text, medium.read(2, &mut row))?;
    text.push_slice(b" ")?;
    push_hex(text, &row)?;
    push_done(text, medium.renew())?;
    text.push_slice(b" ")?;
    push_hex(text, medium.as_slice())?;
    text.push_slice(b"\n")
}

fn push_done(text: &mut Bytes, done: Result<(), Failed>) -> Result<(), Memory> {
    match done {
        Ok(()) => text.push_slice(b" done"),
        Err(Failed) => text.push_slice(b" failed"),
    }
}

/// One block of two bytes from each of two sources, the second first, with a fault of each kind between.
fn push_gathering(alloc: Global, text: &mut Bytes) -> Result<(), Memory> {
    let mut gather = Gather::new(alloc, 2, 1, 2)?;
    text.push_slice(b"gathering")?;
    push_accepted(text, gather.accept(1, &[1, 2]))?;
    push_accepted(text, gather.accept(1, &[1, 2]))?;
    push_accepted(text, gather.accept(2, &[1, 2]))?;
    push_accepted(text, gather.accept(0, &[4]))?;
    push_counted(text, b" left", u64::from(gather.left()))?;
    push_accepted(text, gather.accept(0, &[4, 8]))?;
    push_result(text, gather)
}

/// A gathering that has none of its two sources, and one that has no sources.
fn push_missing(alloc: Global, text: &mut Bytes) -> Result<(), Memory> {
    text.push_slice(b"no source")?;
    push_result(text, Gather::new(alloc, 2, 1, 2)?)?;
    text.push_slice(b"no sources")?;
    push_result(text, Gather::new(alloc, 2, 1, 0)?)
}

fn push_accepted(text: &mut Bytes, accepted: Result<(), GatherFault>) -> Result<(), Memory> {
    match accepted {
        Ok(()) => text.push_slice(b" accepted"),
        Err(GatherFault::Stranger { source }) => {
            push_counted(text, b" stranger", u64::from(source))
        }
        Err(GatherFault::Double { source }) => push_counted(text, b" double", u64::from(source)),
        Err(GatherFault::Size { want, got }) => {
            push_counted(text, b" size", want)?;
            push_counted(text, b"", got)
        }
    }
}

fn push_result(text: &mut Bytes, gather: Gather) -> Result<(), Memory> {
    match gather.result() {
        Ok(bytes) => {
            text.push_slice(b" result ")?;
            push_hex(text, bytes.as_slice())?;
        }
        Err(missing) => push_counted(text, b" missing", u64::from(missing.source))?,
    }
    text.push_slice(b"\n")
}
