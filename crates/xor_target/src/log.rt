//! A target's log: its entries, and what is looked up of them. No look-up goes through the entries, and what
//! an entry needs is reserved before it is made, so that an event that has happened is always written down.

ghost use Rattle.std.specs.Prelude.{◌≡◌, ◌≤◌, ◌<◌, ◌+◌, ◌-◌, ◌^◌, [], ◌∷◌, max, reverse, length, true, IfOk, OnOk, OnErr};
ghost use Rattle.std.specs.List.{AllByRecursion};
ghost use Rattle.array_journal.specs.Lives.{loss_of, life_of, is_fresh};
ghost use Rattle.array_journal.specs.Merge.{Rises};
ghost use Rattle.array_journal.specs.Owners.{has_acted, shut_at, discarded_at};
ghost use Rattle.xor_target.specs.Logs.{last_stamp, seats_of, drops_next};

mod facts;
mod owner_states;

use array_journal::{At, Entries, Entry, Event};
use blocks_core::Memory;
use facts::LogFacts;
use std::alloc::Global;
use std::marker::Model;

/// The entries of one target, in the order of their stamps, and what became of its disk and of each owner by
/// them.
#[derive(Debug, Drop)]
pub struct TargetLog {
    number: u8,
    entries: Entries,
    facts: LogFacts,
}

impl Model for TargetLog {
    ghost use Rattle.std.specs.Prelude.{reverse};
    ghost use Rattle.std.specs.HashMap.{spare};
    ghost use Rattle.xor_target.specs.Logs.{Logged};

    ghost Value = { Logged };

    ghost use Rattle.xor_target.specs.Facts.{IsLog};

    ghost view = { λ l. record { number = l.number; past = reverse l.entries.list; room = l.entries.room; seats = spare l.facts.owners.kept } };

    ghost invariant = { λ l. IsLog l.number (reverse l.entries.list) l.facts };
}

impl TargetLog {
    /// The log of target `number`, without entries. Takes no memory.
    pub fn new(alloc: Global, number: u8) -> TargetLog
        requires { number < 255 }
        ensures number { result.number ≡ number }
        ensures past { result.past ≡ [] }
    {
        TargetLog {
            number,
            entries: Entries::new(alloc),
            facts: LogFacts::new(alloc),
        }
    }

    /// Makes room for so many more entries, and seats for so many owners that they name. Asked for before a
    /// command touches the medium, since nothing may fail once it has.
    pub fn reserve(&mut self, entries: usize, owners: usize) -> Result<(), Memory>
        ensures room { OnOk result (entries ≤ self.new.room) }
        ensures seats { OnOk result (owners ≤ self.new.seats) }
        ensures number { self.new.number ≡ self.old.number }
        ensures past { self.new.past ≡ self.old.past }
        ensures more_room { self.old.room ≤ self.new.room }
        ensures more_seats { self.old.seats ≤ self.new.seats }
    {
        self.entries.reserve(entries)?;
        self.facts.reserve(owners)?;
        Ok(())
    }

    /// Writes an event down under a stamp, without taking memory, and tells its name.
    pub fn append(&mut self, event: Event, stamp: u64) -> At
        requires room { 1 ≤ self.old.room }
        requires seats { seats_of event ≤ self.old.seats }
        requires later { last_stamp self.old.past < stamp }
        requires life { is_fresh event ≡ true → life_of self.old.number self.old.past + 1 < 2 ^ 32 }
        ensures at { result ≡ record { stamp = stamp; lock = self.old.number + 1 } }
        ensures past { self.new.past ≡ record { stamp = stamp; lock = self.old.number + 1; event = event } ∷ self.old.past }
        ensures few { length self.new.past < 2 ^ 63 }
        ensures number { self.new.number ≡ self.old.number }
        ensures room { self.old.room ≤ self.new.room + 1 }
        ensures seats { self.old.seats ≤ self.new.seats + seats_of event }
    {
        let at = At {
            stamp,
            lock: self.number + 1,
        };
        let entry = Entry {
            stamp,
            lock: at.lock,
            event,
        };
        self.facts.add(&entry);
        self.entries.push_within(entry);
        at
    }

    /// The target's number.
    pub fn number(&self) -> u8
        ensures number { result ≡ self.now.number }
        ensures small { result < 255 }
    {
        self.number
    }

    /// The stamp of the next entry, one more than the last here and than the one given. At the type's end
    /// there is none, which is want of memory.
    pub fn next_stamp(&self, given: u64) -> Result<u64, Memory>
        ensures ok { IfOk result (λ stamp. stamp ≡ max (last_stamp self.now.past) given + 1) }
        ensures err { OnErr result (2 ^ 64 ≤ max (last_stamp self.now.past) given + 1) }
    {
        self.newest(given).checked_add(1).ok_or(Memory)
    }

    /// The greatest stamp here, or the one given.
    pub fn newest(&self, given: u64) -> u64
        ensures { result ≡ max (last_stamp self.now.past) given }
    {
        self.facts.last.max(given)
    }

    /// The entry that shut an owner here.
    pub fn shut_at(&self, owner: u32) -> Option<At>
        ensures { result ≡ shut_at self.now.number owner self.now.past }
    {
        self.facts.owner(owner).shut
    }

    /// The newest entry that discarded what an owner held here: a loss or a reset, never a shut.
    pub fn discarded_at(&self, owner: u32) -> Option<At>
        ensures { result ≡ discarded_at self.now.number owner self.now.past }
    {
        self.facts.owner(owner).discarded
    }

    /// Whether some put, diff or fold of an owner stands here.
    pub fn acted(&self, owner: u32) -> bool
        ensures { result ≡ has_acted self.now.number owner self.now.past }
    {
        self.facts.owner(owner).acted
    }

    /// The newest loss, where the target is gone.
    pub fn gone(&self) -> Option<At>
        ensures { result ≡ loss_of self.now.number self.now.past }
    {
        self.facts.loss
    }

    /// The life of the target's disk, from 0: how many fresh disks came.
    pub fn life(&self) -> u32
        ensures { result ≡ life_of self.now.number self.now.past }
    {
        self.facts.life as u32
    }

    /// Whether the next request to a peer is to be dropped.
    pub fn drops_next(&self) -> bool
        ensures { result ≡ drops_next self.now.number self.now.past }
    {
        self.facts.drops > 0
    }

    /// The entries, the oldest first. All are of the target's lock, and their stamps rise.
    pub fn entries(&self) -> &Entries
        ensures entries { result.now.list ≡ reverse self.now.past }
        ensures of_lock { AllByRecursion (λ e. e.lock ≡ self.now.number + 1) result.now.list }
        ensures rise { Rises result.now.list }
    {
        &self.entries
    }

    /// The entries, as `entries` has them. Takes no memory.
    pub fn into_entries(self) -> Entries
        ensures entries { result.list ≡ reverse self.past }
        ensures of_lock { AllByRecursion (λ e. e.lock ≡ self.number + 1) result.list }
        ensures rise { Rises result.list }
    {
        let TargetLog { entries, .. } = self;
        entries
    }
}
