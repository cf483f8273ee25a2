//! Slots whose disks were swapped.

ghost use Rattle.std.specs.Prelude.{◌≡◌, ◌==◌, ◌∷◌, ◌++◌, [], List, ℕ, OnOk, OnErr, count_by, nat_lt, if◌then◌else◌};
ghost use Rattle.array_journal.specs.declared.entry.Entry.{Entry};
ghost use Rattle.array_journal.specs.Entries.{count_before};
ghost use Rattle.array_journal.specs.Lives.{swap_count, is_swap_of};
ghost use Rattle.array_book.specs.Slots.{KeepsSlots, stamps_at};

use blocks_core::Memory;
use std::alloc::Global;
use std::collections::BTreeMap;

/// What the book knows of swaps.
#[derive(Debug, Drop)]
pub struct Slots {
    /// The stamps of a slot's swaps, the oldest first.
    swaps: BTreeMap<usize, Vec<u64>>,
}

/// How many stamps are below another.
fn count_below(stamps: &[u64], stamp: u64) -> usize
    ensures { result ≡ count_by (λ known. nat_lt known stamp) stamps.now }
{
    stamps.iter().filter(|known| **known < stamp).count()
}

impl Slots {
    /// The slots of no entries. Takes no memory.
    pub fn new(alloc: Global) -> Slots
        ensures { KeepsSlots [] result }
    {
        Slots {
            swaps: BTreeMap::new(alloc),
        }
    }

    /// A slot gets a new disk, under a stamp.
    pub fn swap(&mut self, alloc: Global, slot: usize, stamp: u64) -> Result<(), Memory>
        ensures ok { OnOk result ((i : ℕ) → stamps_at self.new.swaps i ≡ (if slot == i then stamps_at self.old.swaps i ++ stamp ∷ [] else stamps_at self.old.swaps i)) }
        ensures err { OnErr result ((i : ℕ) → stamps_at self.new.swaps i ≡ stamps_at self.old.swaps i) }
    {
        match self.swaps.get_mut(&slot) {
            Some(stamps) => stamps.push(stamp)?,
            None => {
                let mut stamps = Vec::new(alloc);
                stamps.push(stamp)?;
                self.swaps.insert(slot, stamps)?;
            }
        }
        Ok(())
    }

    /// The stamps of a slot's swaps, the oldest first.
    fn stamps_at(&self, slot: usize) -> &[u64]
        ensures { result.now ≡ stamps_at self.now.swaps slot }
    {
        match self.swaps.get(&slot) {
            Some(stamps) => stamps.as_slice(),
            None => &[],
        }
    }

    /// How often the book swapped a slot's disk.
    pub fn swap_count(&self, slot: usize) -> usize
        ensures { (past : List Entry) → KeepsSlots past self.now → result ≡ swap_count slot past }
    {
        self.stamps_at(slot).len()
    }

    /// How often the book swapped a slot's disk under a smaller stamp.
    pub fn swaps_before(&self, slot: usize, stamp: u64) -> usize
        ensures { (past : List Entry) → KeepsSlots past self.now → result ≡ count_before 0 (is_swap_of slot) stamp past }
    {
        count_below(self.stamps_at(slot), stamp)
    }
}
