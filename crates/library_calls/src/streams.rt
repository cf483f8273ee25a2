//! `target_frames`: streams of an opening and a frame, whole and in pieces.

ghost use Rattle.std.specs.Prelude.{◌≡◌, ◌≤◌, ◌<◌, ◌+◌, ℕ, length};
ghost use Rattle.target_frames.specs.State.{HasRoom};

use blocks_core::{Bytes, Memory};
use std::alloc::Global;
use target_frames::{FrameFault, Frames, Item, Items};
use text_fields::{push_counted, push_hex};

/// One target with blocks of 8 bytes, a buffer of 4 and a medium of 16.
const OPENING: [u8; 16] = [0x58, 0x4f, 0x52, 0x54, 1, 1, 0, 0, 0, 8, 0, 4, 0, 0, 0, 16];

/// A READ(10) without data.
const READ: [u8; 18] = [1, 0, 10, 0, 0, 0, 0, 0, 0x28, 0, 0, 0, 0, 0, 0, 0, 1, 0];

/// The same for a target that isn't there.
const OF_NO_TARGET: [u8; 18] = [1, 1, 10, 0, 0, 0, 0, 0, 0x28, 0, 0, 0, 0, 0, 0, 0, 1, 0];

/// An XPWRITE with eight bytes of data, of which one is wanting.
const CUT_OFF: [u8; 25] = [
    1, 0, 10, 0, 0, 0, 0, 8, 0x51, 0, 0, 0, 0, 0, 0, 0, 1, 0, 1, 2, 3, 4, 5, 6, 7,
];

pub fn push_streams(alloc: Global, text: &mut Bytes) -> Result<(), Memory> {
    push_stream(alloc, text, &READ)?;
    push_stream(alloc, text, &OF_NO_TARGET)?;
    push_stream(alloc, text, &CUT_OFF)
}

/// What is read of a stream whole; then of how many ways to cut it in two the same is read, and whether it is
/// byte by byte.
fn push_stream(alloc: Global, text: &mut Bytes, frame: &[u8]) -> Result<(), Memory>
    requires { length frame.now ≤ 25 }
{
    let mut stream = Bytes::from_slice(alloc, &OPENING)?;
    stream.push_slice(frame)?;
    let whole = read_in_two(alloc, stream.as_slice(), 0)?;
    text.push_slice(b"stream")?;
    text.push_slice(whole.as_slice())?;
    let mut alike = 0;
    for cut in 0..stream.len() + 1 {
        let read = read_in_two(alloc, stream.as_slice(), cut)?;
        if read.as_slice() == whole.as_slice() {
            alike += 1;
        }
    }
    push_counted(text, b" alike", alike)?;
    if read_by_bytes(alloc, stream.as_slice())?.as_slice() == whole.as_slice() {
        text.push_slice(b" by bytes")?;
    }
    text.push_slice(b"\n")
}

/// What is read where a stream is cut at a place.
fn read_in_two(alloc: Global, stream: &[u8], cut: usize) -> Result<Bytes, Memory>
    requires cut { cut ≤ length stream.now }
    requires short { length stream.now ≤ 100 }
{
    let (front, back) = stream.split_at(cut);
    let mut text = Bytes::new(alloc);
    let mut frames = Frames::new(alloc);
    push_fed(alloc, &mut text, &mut frames, front)?;
    push_fed(alloc, &mut text, &mut frames, back)?;
    push_end(alloc, &mut text, &mut frames)?;
    Ok(text)
}

/// What is read where it comes byte by byte.
fn read_by_bytes(alloc: Global, stream: &[u8]) -> Result<Bytes, Memory>
    requires { length stream.now ≤ 100 }
{
    let mut text = Bytes::new(alloc);
    let mut frames = Frames::new(alloc);
    for byte in stream {
        push_fed(alloc, &mut text, &mut frames, &[*byte])?;
    }
    push_end(alloc, &mut text, &mut frames)?;
    Ok(text)
}

/// The items that a piece makes whole, those before a refused field among them.
fn push_fed(
    alloc: Global,
    text: &mut Bytes,
    frames: &mut Frames,
    piece: &[u8],
) -> Result<(), Memory>
    requires { HasRoom frames.old (length piece.now) }
    ensures { (n : ℕ) → HasRoom frames.old (length piece.now + n) → HasRoom frames.new n }
{
    match frames.feed(alloc, piece) {
        Ok(items) => push_items(text, &items),
        Err(FrameFault::Field { .. }) => push_items(text, &frames.take(alloc)),
        Err(FrameFault::Memory) => Err(Memory),
    }
}

/// The place of the refused field, or how many bytes came of an item that isn't whole.
fn push_end(alloc: Global, text: &mut Bytes, frames: &mut Frames) -> Result<(), Memory>
    requires { HasRoom frames.old 0 }
{
    match frames.feed(alloc, &[]) {
        Ok(_) => push_counted(text, b" rest", frames.rest()),
        Err(FrameFault::Field { byte }) => push_counted(text, b" refused", byte),
        Err(FrameFault::Memory) => Err(Memory),
    }
}

fn push_items(text: &mut Bytes, items: &Items) -> Result<(), Memory> {
    for place in 0..items.len() {
        if let Some(item) = items.get(place) {
            push_item(text, item)?;
        }
    }
    Ok(())
}

fn push_item(text: &mut Bytes, item: &Item) -> Result<(), Memory> {
    match item {
        Item::Opening {
            targets,
            block,
            buffer,
            rows,
        } => {
            push_counted(text, b" opening", u64::from(*targets))?;
            push_counted(text, b"", u64::from(*block))?;
            push_counted(text, b"", u64::from(*buffer))?;
            push_counted(text, b"", u64::from(*rows))
        }
        Item::Frame {
            kind,
            target,
            cdb,
            bytes,
        } => {
            push_counted(text, b" frame", u64::from(*kind))?;
            push_counted(text, b"", u64::from(*target))?;
            text.push_slice(b" ")?;
            push_hex(text, cdb.as_slice())?;
            push_counted(text, b" bytes", bytes.len() as u64)
        }
    }
}
