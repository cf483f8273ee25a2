//! The book itself: what it is set to, and its entries.

ghost use Rattle.std.specs.Prelude.{◌≡◌, [], IfOk, reverse};
ghost use Rattle.array_journal.specs.Run.{IsSetting};
ghost use Rattle.array_book.specs.Ledgers.{AreInOrder, AreNumbered, AreSound};

use crate::open_index::OpenIndex;
use crate::records::Records;
use array_journal::{Entries, Setting};
use blocks_core::Memory;
use std::alloc::Global;
use std::marker::Model;
use stripe_layout::{Geometry, Mode};

/// The book of an array: the one place that opens and ends commands, notes losses and swaps disks. It decides by its
/// entries alone, whose state it keeps at hand, with indexes of the open commands; so no call goes through the entries,
/// and `begin` and `look` go through the commands that are open on the stripe alone.
#[derive(Debug, Drop)]
pub struct Book {
    pub(crate) alloc: Global,
    pub(crate) setting: Setting,
    pub(crate) records: Records,
    pub(crate) index: OpenIndex,
}

impl Model for Book {
    ghost use Rattle.array_book.specs.Ledgers.{Ledger};

    ghost Value = { Ledger };

    ghost use Rattle.array_book.specs.Kept.{IsKept};

    ghost view = { λ b. record { setting = b.setting; past = b.records } };

    ghost invariant = { λ b. IsKept b.setting b.records b.index };
}

impl Book {
    /// A book with no entries. Its array and its buffers, in blocks of each target, are in their ranges.
    pub fn new(alloc: Global, geometry: Geometry, mode: Mode, buffer: u32) -> Result<Book, Memory>
        requires { IsSetting (record { geometry = geometry; buffer = buffer; mode = mode }) }
        ensures { IfOk result (λ book. book ≡ record { setting = record { geometry = geometry; buffer = buffer; mode = mode }; past = [] }) }
    {
        Ok(Book {
            alloc,
            setting: Setting {
                geometry,
                buffer,
                mode,
            },
            records: Records::new(alloc),
            index: OpenIndex::new(alloc),
        })
    }

    /// The entries, the oldest first. They are the book's own, under stamps that rise, and commands are numbered
    /// as they were opened, each with a sound task.
    pub fn entries(&self) -> &Entries
        ensures entries { result.now.list ≡ reverse self.now.past }
        ensures setting { IsSetting self.now.setting }
        ensures in_order { AreInOrder self.now.past }
        ensures numbered { AreNumbered self.now.past }
        ensures sound { AreSound self.now.setting self.now.past }
    {
        self.records.entries()
    }

    /// The entries, the oldest first. Takes no memory.
    pub fn into_entries(self) -> Entries
        ensures { result.list ≡ reverse self.past }
    {
        let Book { records, index, .. } = self;
        drop(index);
        records.into_entries()
    }
}
