//! The items that bytes begin with.

ghost use Rattle.std.specs.Prelude.{◌≡◌, IfOk};
ghost use Rattle.target_frames.specs.Frames.{told};
ghost use Rattle.target_frames.specs.Splits.{Splits};

use crate::front::{Front, front_of};
use crate::items::{Item, Items};
use blocks_core::Memory;
use std::alloc::Global;

/// The items that bytes begin with, and what stands behind them.
#[derive(Debug, Drop)]
pub struct Split {
    pub items: Items,
    /// The number of targets, as soon as an opening told it.
    pub targets: Option<u8>,
    /// How many bytes the items have.
    pub used: usize,
    /// The first field behind them that isn't right, where there is one.
    pub wrong: Option<u8>,
}

/// Cuts bytes into items as far as they go.
pub fn cut(alloc: Global, targets: Option<u8>, bytes: &[u8]) -> Result<Split, Memory>
    ensures { IfOk result (Splits targets bytes.now) }
{
    let mut items = Items::new(alloc);
    let mut known = targets;
    let mut rest = bytes;
    'items: loop {
        let wrong = match front_of(alloc, known, rest)? {
            Front::Whole { item, len } => {
                known = told(known, &item);
                items.push(item)?;
                rest = &rest[len..];
                continue;
            }
            Front::Unfinished => None,
            Front::Wrong { field } => Some(field),
        };
        return Ok(Split {
            items,
            targets: known,
            used: bytes.len() - rest.len(),
            wrong,
        });
    }
}

/// The number of targets that is known behind an item.
fn told(targets: Option<u8>, item: &Item) -> Option<u8>
    ensures { result ≡ told targets item.now }
{
    match item {
        Item::Opening { targets, .. } => Some(*targets),
        Item::Frame { .. } => targets,
    }
}
