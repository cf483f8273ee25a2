//! What is kept of the entries so far.

ghost use Rattle.std.specs.Prelude.{◌≡◌, ◌<◌, [], ◌∷◌, OnOk, length, reverse};
ghost use Rattle.journal_index.specs.Indexes.{IsIndexOf};

use crate::command_acts::CommandActs;
use crate::disks::Disks;
use crate::names::NameIndex;
use crate::stamps::Stamps;
use array_book::BookState;
use array_journal::Entry;
use blocks_core::Memory;
use std::alloc::Global;

/// What is asked of entries, kept at hand.
#[derive(Debug, Drop)]
pub struct Index {
    pub(crate) names: NameIndex,
    pub(crate) stamps: Stamps,
    pub(crate) disks: Disks,
    pub(crate) book: BookState,
    pub(crate) acts: CommandActs,
}

/// The place of the entry after these: a function of its own for the second clause, as entries that lie in
/// memory are fewer than 2^63.
fn place_after(past: &[Entry]) -> usize
    ensures place { result ≡ length past.now }
    ensures small { result < 9223372036854775808 }
{
    past.len()
}

impl Index {
    /// That of no entries. Takes no memory.
    pub fn new(alloc: Global) -> Index
        ensures { IsIndexOf [] result }
    {
        Index {
            names: NameIndex::new(alloc),
            stamps: Stamps::new(alloc),
            disks: Disks::new(alloc),
            book: BookState::new(alloc),
            acts: CommandActs::new(alloc),
        }
    }

    /// Takes one more entry in, after the ones so far. Takes memory for what the entry adds. Costs a few
    /// lookups in the number of entries; the end of a command also goes through the openings that stand.
    /// After want of memory the index is of no list any more.
    pub fn add(&mut self, alloc: Global, past: &[Entry], entry: &Entry) -> Result<(), Memory>
        requires { IsIndexOf (reverse past.now) self.old }
        ensures { OnOk result (IsIndexOf (entry.now ∷ reverse past.now) self.new) }
    {
        let place = place_after(past);
        self.names.add(place, entry)?;
        self.stamps.add(entry)?;
        self.disks.add(entry)?;
        self.book.add(alloc, past, entry)?;
        self.acts.add(entry)?;
        Ok(())
    }
}
