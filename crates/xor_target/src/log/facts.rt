//! What is looked up of a target's entries.

ghost use Rattle.std.specs.Prelude.{◌≡◌, ◌≤◌, ◌<◌, ◌+◌, ℕ, [], ◌∷◌, List, length, OnOk};
ghost use Rattle.std.specs.HashMap.{spare};
ghost use Rattle.array_journal.specs.declared.entry.Entry.{Entry};
ghost use Rattle.xor_target.specs.Logs.{last_stamp, seats_of};
ghost use Rattle.xor_target.specs.Facts.{KeepsFacts, state_of};

use super::owner_states::{OwnerState, OwnerStates};
use array_journal::{At, Entry};
use blocks_core::Memory;
use std::alloc::Global;

/// What a target's entries say of its disk and of owners.
#[derive(Debug, Drop)]
pub struct LogFacts {
    /// The last stamp, 0 where there is none.
    pub last: u64,
    /// The newest loss, where no fresh disk came after it.
    pub loss: Option<At>,
    /// How many fresh disks came.
    pub life: usize,
    /// How many requests to peers are still to be dropped.
    pub drops: usize,
    pub owners: OwnerStates,
}

impl LogFacts {
    /// The facts of no entries. Takes no memory.
    pub fn new(alloc: Global) -> LogFacts
        ensures { (number : ℕ) → KeepsFacts number [] result }
    {
        LogFacts {
            last: 0,
            loss: None,
            life: 0,
            drops: 0,
            owners: OwnerStates::new(alloc),
        }
    }

    /// Makes seats for so many owners more.
    pub fn reserve(&mut self, owners: usize) -> Result<(), Memory>
        ensures ok { OnOk result (owners ≤ spare self.new.owners.kept) }
        ensures more { spare self.old.owners.kept ≤ spare self.new.owners.kept }
        ensures keeps { (number : ℕ) (past : List Entry) → KeepsFacts number past self.old → KeepsFacts number past self.new }
    {
        self.owners.reserve(owners)
    }

    /// One more entry, without taking memory.
    pub fn add(&mut self, entry: &Entry)
        requires { seats_of entry.now.event ≤ spare self.old.owners.kept }
        ensures keeps { (number : ℕ) (past : List Entry) → entry.now.lock ≡ number + 1 → length past < 9223372036854775808
            → KeepsFacts number past self.old → KeepsFacts number (entry.now ∷ past) self.new }
        ensures seats { spare self.old.owners.kept ≤ spare self.new.owners.kept + seats_of entry.now.event }
    {
        let at = At {
            stamp: entry.stamp,
            lock: entry.lock,
        };
        self.last = entry.stamp;
        self.loss = entry.event.loss_after(at, self.loss);
        self.life = entry.event.life_after(self.life);
        self.drops = entry.event.drops_after(self.drops);
        self.owners.add(entry);
    }

    /// What stands of an owner.
    pub fn owner(&self, owner: u32) -> OwnerState
        ensures { result ≡ state_of self.now.owners owner }
    {
        self.owners.at(owner)
    }
}
