//! `array_book`: the book of a small array, whose pieces are one block each.

ghost use Rattle.std.specs.Prelude.{◌≡◌, ◌<◌, IfOk};
ghost use Rattle.array_book.specs.Asks.{IsWant};
ghost use Rattle.machine_calls.specs.Shapes.{IsSmall};

use crate::book_calls::{
    push_begin, push_end, push_look, push_look_swap, push_note, push_spoil, push_swap, read_at,
    write_at,
};
use array_book::{Book, Want};
use array_journal::Setting;
use blocks_core::{Bytes, Memory};
use sense_data::Sense;
use std::alloc::Global;
use stripe_layout::{Area, Areas, Geometry, Mode};
use text_fields::push_counted;

/// Three targets, two stripes of two blocks a unit, and room for two blocks in each buffer. Parity is at target 2 in the
/// first stripe, and at target 1 in the second.
fn small_setting() -> Setting
    ensures { IsSmall result }
{
    Setting {
        geometry: Geometry {
            targets: 3,
            block: 8,
            areas: Areas::new(Area {
                unit: 2,
                stripes: 2,
            }),
        },
        buffer: 2,
        mode: Mode::Supervised,
    }
}

fn book_of(alloc: Global, setting: &Setting) -> Result<Book, Memory>
    requires { IsSmall setting.now }
    ensures { IfOk result (λ book. book.setting ≡ setting.now) }
{
    Book::new(alloc, setting.geometry, setting.mode, setting.buffer)
}

pub fn push_book(alloc: Global, text: &mut Bytes) -> Result<(), Memory> {
    let setting = small_setting();
    let mut book = book_of(alloc, &setting)?;
    push_calls(alloc, text, &mut book, &setting)?;
    push_counts(text, book)
}

/// How many entries were made.
fn push_counts(text: &mut Bytes, book: Book) -> Result<(), Memory> {
    push_counted(text, b"book entries", book.entries().len() as u64)?;
    push_counted(text, b" owned", book.into_entries().len() as u64)?;
    text.push_slice(b"\n")
}

fn push_calls(
    alloc: Global,
    text: &mut Bytes,
    book: &mut Book,
    setting: &Setting,
) -> Result<(), Memory>
    requires small { IsSmall setting.now }
    requires same { book.old.setting ≡ setting.now }
{
    push_hosts(alloc, text, book, setting)?;
    push_disk(alloc, text, book, setting)?;
    push_parity(alloc, text, book, setting)
}

/// Updates, a spoilt one, and what becomes of blocks whose target is lost.
fn push_hosts(
    alloc: Global,
    text: &mut Bytes,
    book: &mut Book,
    setting: &Setting,
) -> Result<(), Memory>
    requires small { IsSmall setting.now }
    requires same { book.old.setting ≡ setting.now }
    ensures { book.new.setting ≡ book.old.setting }
{
    push_updates(alloc, text, book, setting)?;
    push_spoilt(alloc, text, book, setting)?;
    push_lost(text, book, setting)?;
    push_waits(alloc, text, book, setting)?;
    push_degraded(alloc, text, book, setting)
}

/// A new disk, and what is rebuilt of it.
fn push_disk(
    alloc: Global,
    text: &mut Bytes,
    book: &mut Book,
    setting: &Setting,
) -> Result<(), Memory>
    requires small { IsSmall setting.now }
    requires same { book.old.setting ≡ setting.now }
    ensures { book.new.setting ≡ book.old.setting }
{
    push_new_disk(text, book, setting)?;
    push_rebuilt(alloc, text, book, setting)
}

/// Parity is made anew, and is lost.
fn push_parity(
    alloc: Global,
    text: &mut Bytes,
    book: &mut Book,
    setting: &Setting,
) -> Result<(), Memory>
    requires small { IsSmall setting.now }
    requires same { book.old.setting ≡ setting.now }
    ensures { book.new.setting ≡ book.old.setting }
{
    push_resync(alloc, text, book, setting)?;
    push_alone(alloc, text, book, setting)
}

/// Two updates at a target, one that lacks room beside them, and one of a block that is being written.
fn push_updates(
    alloc: Global,
    text: &mut Bytes,
    book: &mut Book,
    setting: &Setting,
) -> Result<(), Memory>
    requires small { IsSmall setting.now }
    requires same { book.old.setting ≡ setting.now }
    ensures { book.new.setting ≡ book.old.setting }
{
    text.push_slice(b"book")?;
    push_begin(text, book, write_at(alloc, setting, 0)?)?;
    push_begin(text, book, write_at(alloc, setting, 1)?)?;
    push_look(text, book, write_at(alloc, setting, 4)?)?;
    push_begin(text, book, write_at(alloc, setting, 4)?)?;
    push_begin(text, book, write_at(alloc, setting, 1)?)?;
    text.push_slice(b"\n")
}

/// The first ends, so that there is room; the second is spoilt. The other stripe isn't listed.
fn push_spoilt(
    alloc: Global,
    text: &mut Bytes,
    book: &mut Book,
    setting: &Setting,
) -> Result<(), Memory>
    requires small { IsSmall setting.now }
    requires same { book.old.setting ≡ setting.now }
    ensures { book.new.setting ≡ book.old.setting }
{
    text.push_slice(b"book")?;
    push_end(alloc, text, book, 0, 5)?;
    push_begin(text, book, write_at(alloc, setting, 4)?)?;
    push_spoil(text, book, 1)?;
    push_begin(text, book, Want::Resync { stripe: 1 })?;
    text.push_slice(b"\n")
}

/// A loss is noted, and is known then; another is of a later disk. A block of the listed stripe can't be read.
fn push_lost(text: &mut Bytes, book: &mut Book, setting: &Setting) -> Result<(), Memory>
    requires small { IsSmall setting.now }
    requires same { book.old.setting ≡ setting.now }
    ensures { book.new.setting ≡ book.old.setting }
{
    text.push_slice(b"book")?;
    push_note(text, book, 0, 0)?;
    push_note(text, book, 0, 0)?;
    push_note(text, book, 2, 1)?;
    push_begin(text, book, read_at(setting, 0))?;
    text.push_slice(b"\n")
}

/// A degraded read and a new disk both wait for the update that is open.
fn push_waits(
    alloc: Global,
    text: &mut Bytes,
    book: &mut Book,
    setting: &Setting,
) -> Result<(), Memory>
    requires small { IsSmall setting.now }
    requires same { book.old.setting ≡ setting.now }
    ensures { book.new.setting ≡ book.old.setting }
{
    text.push_slice(b"book")?;
    push_begin(text, book, read_at(setting, 4))?;
    push_look_swap(text, book, 0)?;
    push_swap(text, book, 0)?;
    push_end(alloc, text, book, 2, 0)?;
    text.push_slice(b"\n")
}

/// Without it, blocks of the lost target are read and written by the other targets.
fn push_degraded(
    alloc: Global,
    text: &mut Bytes,
    book: &mut Book,
    setting: &Setting,
) -> Result<(), Memory>
    requires small { IsSmall setting.now }
    requires same { book.old.setting ≡ setting.now }
    ensures { book.new.setting ≡ book.old.setting }
{
    text.push_slice(b"book")?;
    push_begin(text, book, read_at(setting, 4))?;
    push_end(alloc, text, book, 3, 0)?;
    push_begin(text, book, write_at(alloc, setting, 4)?)?;
    push_end(alloc, text, book, 4, 0)?;
    text.push_slice(b"\n")
}

/// A new disk comes once. The listed stripe can't be rebuilt on it.
fn push_new_disk(text: &mut Bytes, book: &mut Book, setting: &Setting) -> Result<(), Memory>
    requires small { IsSmall setting.now }
    requires same { book.old.setting ≡ setting.now }
    ensures { book.new.setting ≡ book.old.setting }
{
    text.push_slice(b"book")?;
    push_swap(text, book, 0)?;
    push_swap(text, book, 0)?;
    push_look_swap(text, book, 0)?;
    push_begin(text, book, Want::Rebuild { slot: 0, stripe: 0 })?;
    text.push_slice(b"\n")
}

/// The other stripe can: its blocks are then read from the disk.
fn push_rebuilt(
    alloc: Global,
    text: &mut Bytes,
    book: &mut Book,
    setting: &Setting,
) -> Result<(), Memory>
    requires small { IsSmall setting.now }
    requires same { book.old.setting ≡ setting.now }
    ensures { book.new.setting ≡ book.old.setting }
{
    text.push_slice(b"book")?;
    push_rebuild(alloc, text, book, setting)?;
    push_begin(text, book, read_at(setting, 4))?;
    push_end(alloc, text, book, 6, 0)?;
    text.push_slice(b"\n")
}

fn push_rebuild(
    alloc: Global,
    text: &mut Bytes,
    book: &mut Book,
    setting: &Setting,
) -> Result<(), Memory>
    requires small { IsSmall setting.now }
    requires same { book.old.setting ≡ setting.now }
    ensures { book.new.setting ≡ book.old.setting }
{
    push_begin(text, book, Want::Rebuild { slot: 0, stripe: 1 })?;
    push_end(alloc, text, book, 5, 0)
}

/// A stripe is listed, and its parity made anew.
fn push_resync(
    alloc: Global,
    text: &mut Bytes,
    book: &mut Book,
    setting: &Setting,
) -> Result<(), Memory>
    requires small { IsSmall setting.now }
    requires same { book.old.setting ≡ setting.now }
    ensures { book.new.setting ≡ book.old.setting }
{
    text.push_slice(b"book")?;
    push_begin(text, book, write_at(alloc, setting, 6)?)?;
    push_spoil(text, book, 7)?;
    push_begin(text, book, Want::Resync { stripe: 1 })?;
    push_end(alloc, text, book, 8, 0)?;
    text.push_slice(b"\n")
}

/// With parity lost, blocks are written to their unit alone. A stripe that isn't listed needs no parity, and a call that
/// failed a test is only written down.
fn push_alone(
    alloc: Global,
    text: &mut Bytes,
    book: &mut Book,
    setting: &Setting,
) -> Result<(), Memory>
    requires small { IsSmall setting.now }
    requires same { book.old.setting ≡ setting.now }
    ensures { book.new.setting ≡ book.old.setting }
{
    text.push_slice(b"book")?;
    push_note(text, book, 1, 0)?;
    push_begin(text, book, write_at(alloc, setting, 4)?)?;
    push_begin(text, book, Want::Resync { stripe: 1 })?;
    let sense = Sense::illegal(0x24, 0, None);
    push_begin(text, book, Want::Illegal { sense })?;
    text.push_slice(b"\n")
}
