//! Blocks that a buffer holds.

ghost use Rattle.std.specs.Prelude.{◌≡◌, ◌==◌, ◌*◌, ◌-◌, ◌+◌, ◌++◌, ◌≤◌, [], ◌∷◌, MatchOption, OnOk, IfOk, length, take, drop, true, false, if◌then◌else◌};
ghost use Rattle.xor_buffers.specs.Held.{holds_rows, rest_of};

use blocks_core::{Bytes, Memory};
use std::alloc::Global;

/// Blocks that a buffer holds: whose they are, from which row on, and the bytes.
#[derive(Debug, Drop)]
pub struct HeldBlocks {
    pub owner: u32,
    pub row: u64,
    pub bytes: Bytes,
}

/// Rows of a buffer: the first, how many bytes they are, and the bytes of a block.
#[derive(Clone, Copy, Debug)]
pub struct Rows {
    pub row: u32,
    pub len: usize,
    pub block: u32,
}

/// Where rows begin in held blocks, in bytes, if these contain them.
pub fn place_in(held: &HeldBlocks, rows: Rows) -> Option<usize>
    ensures { MatchOption result
        (holds_rows rows.block rows.row rows.len held.now ≡ false)
        (λ start. (holds_rows rows.block rows.row rows.len held.now ≡ true) × ((start ≡ (rows.row - held.now.row) * rows.block) × (start + rows.len ≤ length held.now.bytes))) }
{
    let row = u64::from(rows.row);
    if row < held.row {
        return None;
    }
    let start = (row - held.row) as usize * rows.block as usize;
    let len = held.bytes.len();
    if rows.len <= len && start <= len - rows.len {
        Some(start)
    } else {
        None
    }
}

/// The front of held blocks, before the rows that are taken out.
fn front(alloc: Global, held: &HeldBlocks, start: usize) -> Result<HeldBlocks, Memory>
    requires { start ≤ length held.now.bytes }
    ensures { IfOk result (λ h. h ≡ record { owner = held.now.owner; row = held.now.row; bytes = take start held.now.bytes }) }
{
    Ok(HeldBlocks {
        owner: held.owner,
        row: held.row,
        bytes: Bytes::from_slice(alloc, &held.bytes.as_slice()[..start])?,
    })
}

/// The back of held blocks, behind the rows that are taken out.
fn back(alloc: Global, held: &HeldBlocks, row: u64, end: usize) -> Result<HeldBlocks, Memory>
    requires { end ≤ length held.now.bytes }
    ensures { IfOk result (λ h. h ≡ record { owner = held.now.owner; row = row; bytes = drop end held.now.bytes }) }
{
    Ok(HeldBlocks {
        owner: held.owner,
        row,
        bytes: Bytes::from_slice(alloc, &held.bytes.as_slice()[end..])?,
    })
}

/// Puts the front of held blocks behind others, if rows are taken out from further on.
fn push_front(
    alloc: Global,
    kept: &mut Vec<HeldBlocks>,
    held: &HeldBlocks,
    row: u32,
    start: usize,
) -> Result<(), Memory>
    requires { start ≤ length held.now.bytes }
    ensures { OnOk result (kept.new.items ≡ kept.old.items
        ++ (if row == held.now.row then [] else record { owner = held.now.owner; row = held.now.row; bytes = take start held.now.bytes } ∷ [])) }
{
    if u64::from(row) != held.row {
        kept.push(front(alloc, held, start)?)?;
    }
    Ok(())
}

/// Puts the back of held blocks behind others, if they reach past the rows that are taken out.
fn push_back(
    alloc: Global,
    kept: &mut Vec<HeldBlocks>,
    held: &HeldBlocks,
    row: u64,
    end: usize,
) -> Result<(), Memory>
    requires { end ≤ length held.now.bytes }
    ensures { OnOk result (kept.new.items ≡ kept.old.items
        ++ (if end == length held.now.bytes then [] else record { owner = held.now.owner; row = row; bytes = drop end held.now.bytes } ∷ [])) }
{
    if end != held.bytes.len() {
        kept.push(back(alloc, held, row, end)?)?;
    }
    Ok(())
}

/// Puts what is left of held blocks, once rows are taken out, behind others.
pub fn push_rest(
    alloc: Global,
    kept: &mut Vec<HeldBlocks>,
    held: &HeldBlocks,
    rows: Rows,
    start: usize,
) -> Result<(), Memory>
    requires block { 1 ≤ rows.block }
    requires start { start ≡ (rows.row - held.now.row) * rows.block }
    requires fits { start + rows.len ≤ length held.now.bytes }
    ensures { OnOk result (kept.new.items ≡ kept.old.items ++ rest_of rows.block rows.row rows.len held.now) }
{
    let next = u64::from(rows.row)
        .checked_add(rows.len as u64 / u64::from(rows.block))
        .ok_or(Memory)?;
    let end = start + rows.len.min(held.bytes.len() - start);
    push_front(alloc, kept, held, rows.row, start)?;
    push_back(alloc, kept, held, next, end)
}
