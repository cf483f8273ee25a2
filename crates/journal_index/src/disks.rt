//! What became of the disk at each target.

ghost use Rattle.std.specs.Prelude.{◌≡◌, ◌∷◌, ◌+◌, ◌<◌, [], List, length, OnOk, IsFalse};
ghost use Rattle.array_journal.specs.declared.at.At.{At};
ghost use Rattle.journal_index.specs.declared.disks.Disk.{Disk};
ghost use Rattle.std.specs.Ordering.{nat_cmp};
ghost use Rattle.std.specs.Option.{unwrap_or};
ghost use Rattle.std.specs.BTreeMap.{get};
ghost use Rattle.array_journal.specs.declared.entry.Entry.{Entry};
ghost use Rattle.array_journal.specs.Entries.{name_of, some_at};
ghost use Rattle.array_journal.specs.Lives.{loss_of, life_of};
ghost use Rattle.array_journal.specs.Media.{drops};
ghost use Rattle.array_journal.specs.May.{swapped_since};
ghost use Rattle.journal_index.specs.Disks.{KeepsDisks, new_disk, disk_after, swap_after, reaches};

use crate::stamps::greater_of;
use array_journal::{At, Entry, Event};
use blocks_core::Memory;
use std::alloc::Global;
use std::collections::BTreeMap;

/// What became of one target's disk.
#[derive(Clone, Copy, Debug)]
pub struct Disk {
    /// The newest loss, where no fresh disk came after it.
    loss: Option<At>,
    /// How many fresh disks came.
    life: usize,
    /// How many requests to peers are still to be dropped.
    drops: usize,
    /// The greatest stamp of the swaps that fresh disks came for.
    swap: Option<u64>,
}

/// What became of the disks, by the locks of their targets.
#[derive(Debug, Drop)]
pub struct Disks {
    disks: BTreeMap<usize, Disk>,
}

/// The greatest stamp of the swaps that fresh disks came for, after an event.
fn swap_after(event: &Event, old: Option<u64>) -> Option<u64>
    ensures { result ≡ swap_after event.now old }
{
    match event {
        Event::Fresh { swap, .. } => Some(greater_of(old, swap.stamp)),
        _ => old,
    }
}

/// What became of a disk after an entry of its target's lock.
fn disk_after(entry: &Entry, disk: Disk) -> Disk
    ensures { disk.life < 9223372036854775808 → disk.drops < 9223372036854775808 → result ≡ disk_after (name_of entry.now) entry.now.event disk }
{
    let at = At {
        stamp: entry.stamp,
        lock: entry.lock,
    };
    Disk {
        loss: entry.event.loss_after(at, disk.loss),
        life: entry.event.life_after(disk.life),
        drops: entry.event.drops_after(disk.drops),
        swap: swap_after(&entry.event, disk.swap),
    }
}

/// Whether an event may change what became of a disk. Most can't, and so cost no lookup.
fn changes_disk(event: &Event) -> bool
    ensures { IsFalse result → (at : At) (disk : Disk) → disk_after at event.now disk ≡ disk }
{
    matches!(
        event,
        Event::Gone { .. }
            | Event::Fresh { .. }
            | Event::Wiped { .. }
            | Event::Diff { .. }
            | Event::Hold { .. }
    )
}

/// Whether there is a stamp that isn't below another.
fn reaches(greatest: Option<u64>, stamp: u64) -> bool
    ensures { result ≡ reaches greatest stamp }
{
    match greatest {
        Some(greatest) => stamp <= greatest,
        None => false,
    }
}

impl Disks {
    /// The disks of no entries. Takes no memory.
    pub fn new(alloc: Global) -> Disks
        ensures { KeepsDisks [] result }
    {
        Disks {
            disks: BTreeMap::new(alloc),
        }
    }

    /// What became of the disk at a lock.
    fn at(&self, lock: usize) -> Disk
        ensures { result ≡ unwrap_or (get nat_cmp self.now.disks lock) new_disk }
    {
        match self.disks.get(&lock) {
            Some(disk) => *disk,
            None => Disk {
                loss: None,
                life: 0,
                drops: 0,
                swap: None,
            },
        }
    }

    /// One more entry.
    pub fn add(&mut self, entry: &Entry) -> Result<(), Memory>
        ensures { OnOk result ((past : List Entry) → length past < 9223372036854775808 → KeepsDisks past self.old → KeepsDisks (entry.now ∷ past) self.new) }
    {
        if changes_disk(&entry.event) {
            let lock = usize::from(entry.lock);
            let disk = disk_after(entry, self.at(lock));
            self.disks.insert(lock, disk)?;
        }
        Ok(())
    }

    /// The newest loss of a target's disk, where no fresh disk came after it.
    pub fn loss_of(&self, target: usize) -> Option<At>
        requires { target < 256 }
        ensures { (past : List Entry) → KeepsDisks past self.now → result ≡ loss_of target past }
    {
        self.at(target + 1).loss
    }

    /// How many fresh disks a target got.
    pub fn life_of(&self, target: usize) -> usize
        requires { target < 256 }
        ensures { (past : List Entry) → KeepsDisks past self.now → result ≡ life_of target past }
    {
        self.at(target + 1).life
    }

    /// How many requests to peers are still to be dropped at a target.
    pub fn drops(&self, target: usize) -> usize
        requires { target < 256 }
        ensures { (past : List Entry) → KeepsDisks past self.now → result ≡ drops target past }
    {
        self.at(target + 1).drops
    }

    /// Whether a target got a fresh disk for a swap that isn't older than an opening.
    pub fn is_swapped_since(&self, target: usize, opened: At) -> bool
        requires { target < 256 }
        ensures { (past : List Entry) → KeepsDisks past self.now → result ≡ some_at (target + 1) (swapped_since opened) past }
    {
        reaches(self.at(target + 1).swap, opened.stamp)
    }
}
