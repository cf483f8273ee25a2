//! Where the entry of a name stands.

ghost use Rattle.std.specs.Prelude.{◌≡◌, ◌<◌, ◌^◌, ◌∷◌, [], List, length, reverse, OnOk};
ghost use Rattle.std.specs.Option.{option_copied};
ghost use Rattle.array_journal.specs.declared.entry.Entry.{Entry};
ghost use Rattle.array_journal.specs.Entries.{entry_at};
ghost use Rattle.journal_index.specs.Names.{KeepsNames, place_of, event_at, key_of};

use crate::rising::RisingPlaces;
use array_journal::{At, Entry, Event};
use blocks_core::Memory;
use std::alloc::Global;

/// The place of the newest entry of each name. A name is a stamp and a lock, and places count from the
/// oldest entry. In a printed journal names rise, so that most are put behind the others.
#[derive(Debug, Drop)]
pub struct NameIndex {
    places: RisingPlaces,
}

/// A name as one number, in the order of a journal.
fn key_of(name: At) -> u128
    ensures key { result ≡ key_of name }
    ensures lock { name.lock < 2 ^ 8 }
    ensures small { result < 2 ^ 127 }
{
    u128::from(name.stamp) * 256 + u128::from(name.lock)
}

/// What the entry at a place says, if there is one.
fn event_at(entries: &[Entry], place: Option<usize>) -> Option<&Event>
    ensures { option_copied result ≡ event_at place entries.now }
{
    match place {
        Some(place) => match entries.get(place) {
            Some(entry) => Some(&entry.event),
            None => None,
        },
        None => None,
    }
}

impl NameIndex {
    /// The names of no entries. Takes no memory.
    pub fn new(alloc: Global) -> NameIndex
        ensures { KeepsNames [] result }
    {
        NameIndex {
            places: RisingPlaces::new(alloc),
        }
    }

    /// One more entry, at its place.
    pub fn add(&mut self, place: usize, entry: &Entry) -> Result<(), Memory>
        ensures { OnOk result ((past : List Entry) → length past ≡ place → KeepsNames past self.old → KeepsNames (entry.now ∷ past) self.new) }
    {
        let name = At {
            stamp: entry.stamp,
            lock: entry.lock,
        };
        self.places.put(key_of(name), place)?;
        Ok(())
    }

    /// The place of the newest entry of a name.
    pub fn place_of(&self, name: At) -> Option<usize>
        ensures { (past : List Entry) → KeepsNames past self.now → result ≡ place_of name past }
    {
        self.places.get(key_of(name))
    }

    /// What the entry of a name says, among the entries that these names are of, the oldest first.
    pub fn event_in<'a>(&self, entries: &'a [Entry], name: At) -> Option<&'a Event>
        ensures { KeepsNames (reverse entries.now) self.now → option_copied result ≡ entry_at name (reverse entries.now) }
    {
        event_at(entries, self.place_of(name))
    }
}
