ghost use Rattle.std.specs.Prelude.{◌≡◌, [], ◌∷◌, ◌++◌, length, OnOk, OnErr, slice_get};
ghost use Rattle.std.specs.Option.{option_copied};

use blocks_core::{Bytes, Memory};
use std::alloc::Global;
use std::marker::Model;

/// A part of the stream that came whole.
#[derive(Debug, Drop)]
pub enum Item {
    /// How many targets there are, the bytes of a block, the blocks of a buffer and the rows of a medium.
    Opening {
        targets: u8,
        block: u16,
        buffer: u16,
        rows: u32,
    },
    /// What is asked of a target: 1 a command, 2 that it loses its disk, 3 that it is reset, 4 that it drops
    /// a request, 5 that it gets a fresh disk. Only a command has a CDB and data.
    Frame {
        kind: u8,
        target: u8,
        cdb: Bytes,
        bytes: Bytes,
    },
}

/// Items in the order in which they came.
#[derive(Debug, Drop)]
pub struct Items {
    kept: Vec<Item>,
}

impl Model for Items {
    ghost use Rattle.std.specs.Prelude.{List};
    ghost use Rattle.target_frames.specs.declared.items.Item.{Item};

    ghost Value = { List Item };

    ghost view = { λ i. i.kept.items };
}

impl Items {
    /// No items. Takes no memory.
    pub fn new(alloc: Global) -> Items
        ensures { result ≡ [] }
    {
        Items {
            kept: Vec::new(alloc),
        }
    }

    /// Puts one item at the end.
    pub fn push(&mut self, item: Item) -> Result<(), Memory>
        ensures ok { OnOk result (self.new ≡ self.old ++ item ∷ []) }
        ensures err { OnErr result (self.new ≡ self.old) }
    {
        self.kept.push(item)?;
        Ok(())
    }

    pub fn len(&self) -> usize
        ensures { result ≡ length self.now }
    {
        self.kept.len()
    }

    pub fn get(&self, place: usize) -> Option<&Item>
        ensures { option_copied result ≡ slice_get self.now place }
    {
        self.kept.get(place)
    }

    pub fn as_slice(&self) -> &[Item]
        ensures { result.now ≡ self.now }
    {
        self.kept.as_slice()
    }

    /// The items themselves. No memory is taken.
    pub fn into_vec(self) -> Vec<Item>
        ensures { result.items ≡ self }
    {
        self.kept
    }
}
