//! Commands in groups, each group under a number.

ghost use Rattle.std.specs.Prelude.{◌≡◌, ◌==◌, ◌≤◌, ◌&&◌, ◌||◌, not, true, false, ℕ, OnOk, OnErr, MatchOption};
ghost use Rattle.std.specs.Option.{option_copied};
ghost use Rattle.array_book.specs.OpenIndexes.{is_in, has_member};

use blocks_core::Memory;
use std::alloc::Global;
use std::collections::{BTreeMap, BTreeSet};

/// The groups.
#[derive(Debug, Drop)]
pub struct Groups {
    groups: BTreeMap<usize, BTreeSet<u32>>,
}

impl Groups {
    /// No commands. Takes no memory.
    pub fn new(alloc: Global) -> Groups
        ensures { (key c : ℕ) → is_in result key c ≡ false }
    {
        Groups {
            groups: BTreeMap::new(alloc),
        }
    }

    /// Puts a command into a group. After want of memory nothing has changed.
    pub fn add(&mut self, alloc: Global, key: usize, command: u32) -> Result<(), Memory>
        ensures ok { OnOk result ((k c : ℕ) → is_in self.new k c ≡ (((key == k) && (command == c)) || is_in self.old k c)) }
        ensures err { OnErr result ((k c : ℕ) → is_in self.new k c ≡ is_in self.old k c) }
    {
        match self.groups.get_mut(&key) {
            Some(group) => {
                group.insert(command)?;
            }
            None => {
                let mut group = BTreeSet::new(alloc);
                group.insert(command)?;
                self.groups.insert(key, group)?;
            }
        }
        Ok(())
    }

    /// Takes a command out of a group.
    pub fn remove(&mut self, key: usize, command: u32)
        ensures { (k c : ℕ) → is_in self.new k c ≡ (is_in self.old k c && not ((key == k) && (command == c))) }
    {
        if let Some(group) = self.groups.get_mut(&key) {
            group.remove(&command);
        }
    }

    /// The commands of a group, if it ever had one.
    pub fn get(&self, key: usize) -> Option<&BTreeSet<u32>>
        ensures { (c : ℕ) → has_member (option_copied result) c ≡ is_in self.now key c }
    {
        self.groups.get(&key)
    }

    /// The least command of a group.
    pub fn first(&self, key: usize) -> Option<u32>
        ensures { MatchOption result ((c : ℕ) → is_in self.now key c ≡ false) (λ by. (is_in self.now key by ≡ true) × ((c : ℕ) → is_in self.now key c ≡ true → by ≤ c)) }
    {
        match self.groups.get(&key) {
            Some(group) => group.first().copied(),
            None => None,
        }
    }
}
