//! How late each lock's entries are.

ghost use Rattle.std.specs.Prelude.{◌≡◌, ◌∷◌, [], List, OnOk};
ghost use Rattle.array_journal.specs.declared.entry.Entry.{Entry};
ghost use Rattle.array_journal.specs.Entries.{stamps_below};
ghost use Rattle.journal_index.specs.Stamps.{KeepsStamps, greater_of, is_above};

use array_journal::Entry;
use blocks_core::Memory;
use std::alloc::Global;
use std::collections::BTreeMap;

/// The greatest stamp of each lock.
#[derive(Debug, Drop)]
pub struct Stamps {
    greatest: BTreeMap<u8, u64>,
}

/// The greater of a stamp and the one so far, if there is one.
pub fn greater_of(old: Option<u64>, stamp: u64) -> u64
    ensures { result ≡ greater_of old stamp }
{
    match old {
        Some(greatest) => { if greatest < stamp { stamp } else { greatest } }
        None => stamp,
    }
}

/// Whether a stamp is above the greatest, if there is one.
fn is_above(greatest: Option<u64>, stamp: u64) -> bool
    ensures { result ≡ is_above greatest stamp }
{
    match greatest {
        Some(greatest) => greatest < stamp,
        None => true,
    }
}

impl Stamps {
    /// The stamps of no entries. Takes no memory.
    pub fn new(alloc: Global) -> Stamps
        ensures { KeepsStamps [] result }
    {
        Stamps {
            greatest: BTreeMap::new(alloc),
        }
    }

    /// One more entry.
    pub fn add(&mut self, entry: &Entry) -> Result<(), Memory>
        ensures { OnOk result ((past : List Entry) → KeepsStamps past self.old → KeepsStamps (entry.now ∷ past) self.new) }
    {
        let old = self.greatest.get(&entry.lock).copied();
        self.greatest
            .insert(entry.lock, greater_of(old, entry.stamp))?;
        Ok(())
    }

    /// Whether each entry of a lock has a smaller stamp.
    pub fn are_below(&self, lock: u8, stamp: u64) -> bool
        ensures { (past : List Entry) → KeepsStamps past self.now → result ≡ stamps_below lock stamp past }
    {
        is_above(self.greatest.get(&lock).copied(), stamp)
    }
}
