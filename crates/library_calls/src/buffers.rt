//! `xor_buffers`: what a target's buffer holds, in the target's own form and in the judge's. Blocks of one byte.

ghost use Rattle.std.specs.Prelude.{◌≡◌, ◌≤◌, length, OnOk};

use blocks_core::{Bytes, Memory};
use std::alloc::Global;
use text_fields::{push_counted, push_hex};
use xor_buffers::{Held, HeldList, HoldFault, NoMatch, Rows};

pub fn push_buffers(alloc: Global, text: &mut Bytes) -> Result<(), Memory> {
    push_list_taken(alloc, text)?;
    push_list_wiped(alloc, text)?;
    push_held(alloc, text)
}

/// Two runs of blocks, for two owners.
fn two_runs(alloc: Global) -> Result<HeldList, Memory> {
    let mut list = HeldList::new(alloc);
    list.hold(9, 5, Bytes::from_slice(alloc, b"abcd")?)?;
    list.hold(3, 1, Bytes::from_slice(alloc, b"xy")?)?;
    Ok(list)
}

/// Rows in the midst of a run, before they are taken and after, and the row behind them.
fn push_list_taken(alloc: Global, text: &mut Bytes) -> Result<(), Memory> {
    let mut list = two_runs(alloc)?;
    let rows = Rows {
        row: 6,
        len: 2,
        block: 1,
    };
    text.push_slice(b"buffer list")?;
    push_rows(text, list.rows_of(9, rows))?;
    list.take(alloc, rows)?;
    text.push_slice(b" taken")?;
    push_rows(text, list.rows_of(9, rows))?;
    let behind = Rows {
        row: 8,
        len: 1,
        block: 1,
    };
    push_rows(text, list.rows_of(9, behind))?;
    text.push_slice(b"\n")
}

fn push_rows(text: &mut Bytes, rows: Option<&[u8]>) -> Result<(), Memory> {
    match rows {
        Some(bytes) => {
            text.push_slice(b" ")?;
            push_hex(text, bytes)
        }
        None => text.push_slice(b" none"),
    }
}

/// The owners of all, then without those of one owner, then of nothing.
fn push_list_wiped(alloc: Global, text: &mut Bytes) -> Result<(), Memory> {
    let mut list = two_runs(alloc)?;
    text.push_slice(b"buffer list")?;
    push_owners(text, list.owners(alloc)?.as_slice())?;
    list.wipe_owner(9);
    push_owners(text, list.owners(alloc)?.as_slice())?;
    list.wipe();
    push_owners(text, list.owners(alloc)?.as_slice())?;
    text.push_slice(b"\n")
}

fn push_owners(text: &mut Bytes, owners: &[u32]) -> Result<(), Memory> {
    text.push_slice(b" owners")?;
    for owner in owners {
        push_counted(text, b"", u64::from(*owner))?;
    }
    Ok(())
}

/// A target's buffer of eight blocks, with slots for six at first.
fn push_held(alloc: Global, text: &mut Bytes) -> Result<(), Memory> {
    let mut held = Held::new(alloc, 1, 8)?;
    held.reserve(6)?;
    text.push_slice(b"buffer")?;
    push_counts(text, &held)?;
    push_hold(text, &mut held, 9, 5, b"abcd")?;
    push_hold(text, &mut held, 3, 1, b"xy")?;
    push_counts(text, &held)?;
    push_owners(text, held.owners(alloc)?.as_slice())?;
    text.push_slice(b"\nbuffer")?;
    push_owner(text, held.overlap(8, 2))?;
    push_owner(text, held.overlap(9, 2))?;
    push_takes(text, &mut held)?;
    push_refused(text, &mut held)?;
    push_wiped(alloc, text, held)
}

/// How many blocks there is room for, and how many slots for them.
fn push_counts(text: &mut Bytes, held: &Held) -> Result<(), Memory> {
    push_counted(text, b" room", u64::from(held.room()))?;
    push_counted(text, b" spare", u64::from(held.spare()))
}

fn push_owner(text: &mut Bytes, owner: Option<u32>) -> Result<(), Memory> {
    match owner {
        Some(owner) => push_counted(text, b" of", u64::from(owner)),
        None => text.push_slice(b" none"),
    }
}

/// Holds bytes, with the slots for them, and tells how that went.
fn push_hold(
    text: &mut Bytes,
    held: &mut Held,
    owner: u32,
    row: u32,
    bytes: &[u8],
) -> Result<(), Memory>
    requires block { held.old.block ≡ 1 }
    requires some { 1 ≤ length bytes.now }
    requires few { length bytes.now ≤ 8 }
    requires row { row ≤ 100 }
    ensures { OnOk result (held.new.block ≡ 1) }
{
    held.reserve(bytes.len() as u32)?;
    match held.hold(owner, row, bytes) {
        Ok(()) => text.push_slice(b" held"),
        Err(HoldFault::Overlap { owner }) => push_counted(text, b" overlap", u64::from(owner)),
        Err(HoldFault::Full { room }) => push_counted(text, b" full", u64::from(room)),
    }
}

/// Rows in the midst of a run, which are taken once and are then no more there.
fn push_takes(text: &mut Bytes, held: &mut Held) -> Result<(), Memory>
    requires { held.old.block ≡ 1 }
    ensures { OnOk result (held.new.block ≡ 1) }
{
    text.push_slice(b"\nbuffer")?;
    push_take(text, held)?;
    push_counts(text, held)?;
    push_take(text, held)
}

fn push_take(text: &mut Bytes, held: &mut Held) -> Result<(), Memory>
    requires { held.old.block ≡ 1 }
    ensures { OnOk result (held.new.block ≡ 1) }
{
    let mut rows = [0; 2];
    match held.take(6, &mut rows) {
        Ok(owner) => {
            push_counted(text, b" of", u64::from(owner))?;
            text.push_slice(b" ")?;
            push_hex(text, &rows)
        }
        Err(NoMatch) => text.push_slice(b" none"),
    }
}

/// A row that is free now, a row that is held, and more blocks than there is room for.
fn push_refused(text: &mut Bytes, held: &mut Held) -> Result<(), Memory>
    requires { held.old.block ≡ 1 }
    ensures { OnOk result (held.new.block ≡ 1) }
{
    text.push_slice(b"\nbuffer")?;
    push_hold(text, held, 7, 6, b"e")?;
    push_hold(text, held, 7, 8, b"f")?;
    push_hold(text, held, 7, 20, b"wxyz")
}

/// What is left without one owner, and without all.
fn push_wiped(alloc: Global, text: &mut Bytes, mut held: Held) -> Result<(), Memory> {
    text.push_slice(b"\nbuffer")?;
    push_owners(text, held.owners(alloc)?.as_slice())?;
    held.wipe_owner(9);
    push_owners(text, held.owners(alloc)?.as_slice())?;
    push_counted(text, b" room", u64::from(held.room()))?;
    held.wipe();
    push_owners(text, held.owners(alloc)?.as_slice())?;
    push_counted(text, b" room", u64::from(held.room()))?;
    text.push_slice(b"\n")
}
