//! The item that bytes begin with.

ghost use Rattle.std.specs.Prelude.{◌≡◌, ◌≤◌, None, Some, IfOk, length};
ghost use Rattle.target_frames.specs.Heads.{BeginsWith, frame_length, frame_of};

use crate::heads::{FrameHead, HEAD, OPENING, OpeningHead};
use crate::items::Item;
use blocks_core::{Bytes, Memory};
use std::alloc::Global;

/// What stands at the front of bytes where an item is to begin.
#[derive(Debug, Drop)]
pub enum Front {
    /// The head isn't there yet, or it is right and its item isn't whole yet.
    Unfinished,
    /// This is the first field of the head that isn't right.
    Wrong { field: u8 },
    /// An item of so many bytes.
    Whole { item: Item, len: usize },
}

/// What bytes begin with: an opening as long as the number of targets isn't known, a frame afterwards. The
/// bytes of an unfinished frame are looked at no further than its head.
pub fn front_of(alloc: Global, targets: Option<u8>, bytes: &[u8]) -> Result<Front, Memory>
    ensures { IfOk result (BeginsWith targets bytes.now) }
{
    match targets {
        None => Ok(opening_front(bytes)),
        Some(targets) => frame_front(alloc, targets, bytes),
    }
}

fn opening_front(bytes: &[u8]) -> Front
    ensures { BeginsWith None bytes.now result }
{
    let Some(head) = bytes.first_chunk::<16>() else {
        return Front::Unfinished;
    };
    let head = OpeningHead::of(head);
    match head.wrong() {
        Some(field) => Front::Wrong { field },
        None => Front::Whole {
            item: Item::Opening {
                targets: head.targets,
                block: head.block,
                buffer: head.buffer,
                rows: head.rows,
            },
            len: OPENING,
        },
    }
}

fn frame_front(alloc: Global, targets: u8, bytes: &[u8]) -> Result<Front, Memory>
    ensures { IfOk result (BeginsWith (Some targets) bytes.now) }
{
    let Some(head) = bytes.first_chunk::<8>() else {
        return Ok(Front::Unfinished);
    };
    let head = FrameHead::of(head);
    if let Some(field) = head.wrong(targets) {
        return Ok(Front::Wrong { field });
    }
    if bytes.len() < head.len() {
        return Ok(Front::Unfinished);
    }
    let item = frame_of(alloc, &head, bytes)?;
    Ok(Front::Whole {
        item,
        len: head.len(),
    })
}

/// The frame with this head.
fn frame_of(alloc: Global, head: &FrameHead, bytes: &[u8]) -> Result<Item, Memory>
    requires { frame_length head.now ≤ length bytes.now }
    ensures { IfOk result (λ item. item ≡ frame_of head.now bytes.now) }
{
    let data = HEAD + usize::from(head.cdb_len);
    Ok(Item::Frame {
        kind: head.kind,
        target: head.target,
        cdb: Bytes::from_slice(alloc, &bytes[HEAD..data])?,
        bytes: Bytes::from_slice(alloc, &bytes[data..head.len()])?,
    })
}
