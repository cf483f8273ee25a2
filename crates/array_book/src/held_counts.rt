//! How many blocks are held at each target.

ghost use Rattle.std.specs.Prelude.{◌≡◌, ◌==◌, ◌+◌, ◌-◌, ℕ, OnOk, OnErr, if◌then◌else◌};
ghost use Rattle.array_book.specs.OpenIndexes.{held_in};

use blocks_core::Memory;
use std::alloc::Global;
use std::collections::BTreeMap;

/// Counts by target.
#[derive(Debug, Drop)]
pub struct HeldCounts {
    counts: BTreeMap<usize, u64>,
}

impl HeldCounts {
    /// No blocks. Takes no memory.
    pub fn new(alloc: Global) -> HeldCounts
        ensures { (i : ℕ) → held_in result i ≡ 0 }
    {
        HeldCounts {
            counts: BTreeMap::new(alloc),
        }
    }

    /// The count of a target.
    pub fn at(&self, target: usize) -> u64
        ensures { result ≡ held_in self.now target }
    {
        self.counts.get(&target).copied().unwrap_or(0)
    }

    /// Counts some more. A greater count than a u64 has is want of memory.
    pub fn add(&mut self, target: usize, count: u32) -> Result<(), Memory>
        ensures ok { OnOk result ((i : ℕ) → held_in self.new i ≡ held_in self.old i + (if target == i then count else 0)) }
        ensures err { OnErr result ((i : ℕ) → held_in self.new i ≡ held_in self.old i) }
    {
        let held = self.at(target).checked_add(u64::from(count)).ok_or(Memory)?;
        self.counts.insert(target, held)?;
        Ok(())
    }

    /// Counts some fewer.
    pub fn remove(&mut self, target: usize, count: u32)
        ensures { (i : ℕ) → held_in self.new i ≡ held_in self.old i - (if target == i then count else 0) }
    {
        if let Some(held) = self.counts.get_mut(&target) {
            *held = held.saturating_sub(u64::from(count));
        }
    }
}
