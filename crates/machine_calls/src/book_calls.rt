//! Single calls of a book, each with what it answers.

ghost use Rattle.std.specs.Prelude.{◌≡◌, ◌<◌, length, IfOk};
ghost use Rattle.array_book.specs.Asks.{IsPiece, IsWant};
ghost use Rattle.machine_calls.specs.Shapes.{IsSmall};

use array_book::{Ask, Begun, Book, End, Noted, Swapped, Want};
use array_journal::{At, Kind, Names, Setting, Why};
use blocks_core::{Bytes, Memory};
use std::alloc::Global;
use stripe_layout::Piece;
use text_fields::push_counted;

fn block_at(setting: &Setting, lba: u32) -> Piece
    requires small { IsSmall setting.now }
    requires in_array { lba < 8 }
    ensures piece { IsPiece setting.now result }
    ensures one { result.count ≡ 1 }
{
    let room = setting.geometry.room_in_unit(lba);
    Piece {
        place: setting.geometry.place(lba),
        first: lba,
        count: room.min(1),
    }
}

/// To read a block.
pub fn read_at(setting: &Setting, lba: u32) -> Want
    requires small { IsSmall setting.now }
    requires in_array { lba < 8 }
    ensures { IsWant setting.now result }
{
    Want::Read {
        piece: block_at(setting, lba),
    }
}

fn eight_bytes(alloc: Global) -> Result<Bytes, Memory>
    ensures { IfOk result (λ bytes. length bytes ≡ 8) }
{
    Bytes::from_slice(alloc, b"contents")
}

/// The bytes of one block.
fn block_bytes(alloc: Global, setting: &Setting) -> Result<Bytes, Memory>
    requires { IsSmall setting.now }
    ensures { IfOk result (λ bytes. length bytes ≡ setting.now.geometry.block) }
{
    eight_bytes(alloc)
}

/// To write a block.
pub fn write_at(alloc: Global, setting: &Setting, lba: u32) -> Result<Want, Memory>
    requires small { IsSmall setting.now }
    requires in_array { lba < 8 }
    ensures { IfOk result (λ want. IsWant setting.now want) }
{
    Ok(Want::Write {
        piece: block_at(setting, lba),
        bytes: block_bytes(alloc, setting)?,
    })
}

fn push_at(text: &mut Bytes, at: At) -> Result<(), Memory> {
    push_counted(text, b" at", at.stamp)
}

fn push_by(text: &mut Bytes, name: &[u8], by: Option<u32>) -> Result<(), Memory> {
    match by {
        Some(by) => push_counted(text, name, u64::from(by)),
        None => {
            text.push_slice(name)?;
            text.push_slice(b" none")
        }
    }
}

fn push_kind(text: &mut Bytes, kind: Kind) -> Result<(), Memory> {
    let name: &[u8] = match kind {
        Kind::Read => b" read",
        Kind::Update => b" update",
        Kind::DataOnly => b" data only",
        Kind::DegradedRead => b" degraded read",
        Kind::DegradedWrite => b" degraded write",
        Kind::Rebuild => b" rebuild",
        Kind::Resync => b" resync",
    };
    text.push_slice(name)
}

fn push_why(text: &mut Bytes, why: Why) -> Result<(), Memory> {
    let name: &[u8] = match why {
        Why::Medium => b" medium",
        Why::NotLost => b" notlost",
        Why::Listed => b" listed",
        Why::Clean => b" clean",
        Why::Illegal { .. } => b" illegal",
        _ => b" other",
    };
    text.push_slice(name)
}

fn push_begun(text: &mut Bytes, begun: Begun) -> Result<(), Memory> {
    match begun {
        Begun::Opened { at, command, task } => {
            push_kind(text, task.kind)?;
            push_counted(text, b"", u64::from(command))?;
            push_at(text, at)
        }
        Begun::Again { by } => push_counted(text, b" again", u64::from(by)),
        Begun::Refused { at, why } => {
            push_why(text, why)?;
            push_at(text, at)
        }
        Begun::Memory => Err(Memory),
    }
}

/// Begins a piece, under the least stamp that the book may give.
pub fn push_begin(text: &mut Bytes, book: &mut Book, want: Want) -> Result<(), Memory>
    requires { IsWant book.old.setting want }
    ensures { book.new.setting ≡ book.old.setting }
{
    let ask = Ask {
        call: 1,
        piece: 0,
        want,
    };
    let begun = book.begin(&ask, 0);
    push_begun(text, begun)
}

pub fn push_look(text: &mut Bytes, book: &Book, want: Want) -> Result<(), Memory>
    requires { IsWant book.now.setting want }
{
    let ask = Ask {
        call: 1,
        piece: 0,
        want,
    };
    push_by(text, b" look", book.look(&ask))
}

/// Ends a command as done, behind a stamp.
pub fn push_end(
    alloc: Global,
    text: &mut Bytes,
    book: &mut Book,
    command: u32,
    stamp: u64,
) -> Result<(), Memory>
    ensures { book.new.setting ≡ book.old.setting }
{
    let end = End {
        done: true,
        names: Names::new(alloc),
        cause: None,
        bytes: Bytes::new(alloc),
    };
    let at = book.close(command, end, stamp)?;
    push_at(text, at)
}

/// Ends a command whose delta was lost.
pub fn push_spoil(text: &mut Bytes, book: &mut Book, command: u32) -> Result<(), Memory>
    ensures { book.new.setting ≡ book.old.setting }
{
    let diff = At { stamp: 3, lock: 1 };
    let loss = At { stamp: 4, lock: 1 };
    let shut = At { stamp: 5, lock: 3 };
    let at = book.spoil(command, diff, loss, shut, 0)?;
    push_at(text, at)
}

/// Notes the loss of a life of a slot's disk.
pub fn push_note(text: &mut Bytes, book: &mut Book, slot: u8, life: u32) -> Result<(), Memory>
    ensures { book.new.setting ≡ book.old.setting }
{
    let gone = At { stamp: 4, lock: 1 };
    match book.note(slot, gone, life, 0) {
        Noted::Made { at } => push_at(text, at),
        Noted::Already => text.push_slice(b" already"),
        Noted::Stale { swaps } => push_counted(text, b" stale", u64::from(swaps)),
        Noted::Memory => Err(Memory),
    }
}

pub fn push_look_swap(text: &mut Bytes, book: &Book, slot: u8) -> Result<(), Memory> {
    push_by(text, b" look", book.look_swap(slot))
}

/// Puts a new disk into a slot.
pub fn push_swap(text: &mut Bytes, book: &mut Book, slot: u8) -> Result<(), Memory>
    ensures { book.new.setting ≡ book.old.setting }
{
    match book.swap(slot, 9, 0) {
        Swapped::Made { at } => push_at(text, at),
        Swapped::Again { by } => push_counted(text, b" again", u64::from(by)),
        Swapped::Refused { at, why } => {
            push_why(text, why)?;
            push_at(text, at)
        }
        Swapped::Memory => Err(Memory),
    }
}
