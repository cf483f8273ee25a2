//! The pieces of a run of blocks, and the task and the bytes of a request.

ghost use Rattle.std.specs.Prelude.{◌≡◌, ◌≤◌};
ghost use Rattle.stripe_layout.specs.Layout.{IsArray, capacity_of};

use array_book::Aim as Rows;
use array_journal::{Kind, Task, Want};
use blocks_core::{Bytes, Memory};
use host_requests::{Aim, Payload};
use std::alloc::Global;
use stripe_layout::{Area, Areas, Geometry, Piece};
use text_fields::{push_counted, push_hex};

pub fn push_requests(alloc: Global, text: &mut Bytes) -> Result<(), Memory> {
    push_pieces(alloc, text)?;
    push_task(alloc, text)?;
    push_repeated(alloc, text)
}

/// Three targets, units of two blocks, two stripes.
fn small_array() -> Geometry
    ensures array { IsArray result }
    ensures capacity { 8 ≤ capacity_of result }
{
    let area = Area {
        unit: 2,
        stripes: 2,
    };
    Geometry {
        targets: 3,
        block: 8,
        areas: Areas::new(area),
    }
}

/// Four blocks that begin and end within a unit.
fn push_pieces(alloc: Global, text: &mut Bytes) -> Result<(), Memory> {
    let pieces = small_array().pieces(alloc, 1, 4, 2)?;
    for piece in pieces.as_slice() {
        push_piece(text, piece)?;
    }
    Ok(())
}

fn push_piece(text: &mut Bytes, piece: &Piece) -> Result<(), Memory> {
    push_counted(text, b"piece", u64::from(piece.first))?;
    push_counted(text, b" count", u64::from(piece.count))?;
    push_counted(text, b" stripe", u64::from(piece.place.stripe))?;
    push_counted(text, b" target", u64::from(piece.place.target))?;
    push_counted(text, b" parity", u64::from(piece.place.parity))?;
    push_counted(text, b" row", u64::from(piece.place.row))?;
    text.push_slice(b"\n")
}

/// An update of one block in the second stripe, for the third piece of the fifth call.
fn push_task(alloc: Global, text: &mut Bytes) -> Result<(), Memory> {
    let rows = Rows {
        want: Want::Write,
        stripe: 1,
        target: 0,
        row: 2,
        count: 1,
    };
    let bytes = Payload::Given(&[1, 2, 3, 4, 5, 6, 7, 8]);
    let aim = Aim { rows, bytes };
    let task = aim.task(alloc, &small_array(), 5, 2, Kind::Update)?;
    push_numbers(text, &task)?;
    if task.kind == Kind::Update {
        text.push_slice(b" update ")?;
    }
    push_hex(text, task.bytes.as_slice())?;
    text.push_slice(b"\n")
}

fn push_numbers(text: &mut Bytes, task: &Task) -> Result<(), Memory> {
    push_counted(text, b"task call", u64::from(task.call))?;
    push_counted(text, b" piece", u64::from(task.piece))?;
    push_counted(text, b" stripe", u64::from(task.stripe))?;
    push_counted(text, b" target", u64::from(task.target))?;
    push_counted(text, b" parity", u64::from(task.parity))?;
    push_counted(text, b" row", u64::from(task.row))?;
    push_counted(text, b" count", u64::from(task.count))
}

/// Bytes that are told by one of them and their number.
fn push_repeated(alloc: Global, text: &mut Bytes) -> Result<(), Memory> {
    let payload = Payload::Repeated { byte: 171, len: 3 };
    text.push_slice(b"payload ")?;
    push_hex(text, payload.copy(alloc)?.as_slice())?;
    text.push_slice(b"\n")
}
