//! The commands that hold blocks in the buffers of targets.

ghost use Rattle.std.specs.Prelude.{◌≡◌, ◌≤◌, true, false, ℕ, OnOk, OnErr, MatchOption};
ghost use Rattle.array_book.specs.OpenIndexes.{is_in, held_in, AddsHolder, RemovesHolder, AreSameHolders};

use crate::groups::Groups;
use crate::held_counts::HeldCounts;
use blocks_core::Memory;
use std::alloc::Global;

/// Which commands hold blocks at each target, and how many these are together.
#[derive(Debug, Drop)]
pub struct Holders {
    commands: Groups,
    counts: HeldCounts,
}

impl Holders {
    /// No commands. Takes no memory.
    pub fn new(alloc: Global) -> Holders
        ensures commands { (i c : ℕ) → is_in result.commands i c ≡ false }
        ensures counts { (i : ℕ) → held_in result.counts i ≡ 0 }
    {
        Holders {
            commands: Groups::new(alloc),
            counts: HeldCounts::new(alloc),
        }
    }

    /// A command holds so many blocks at a target, if at any. After want of memory nothing has changed.
    pub fn add(
        &mut self,
        alloc: Global,
        holder: Option<usize>,
        command: u32,
        count: u32,
    ) -> Result<(), Memory>
        ensures ok { OnOk result (AddsHolder holder command count self.old self.new) }
        ensures err { OnErr result (AreSameHolders self.old self.new) }
    {
        match holder {
            Some(target) => self.add_at(alloc, target, command, count),
            None => Ok(()),
        }
    }

    fn add_at(
        &mut self,
        alloc: Global,
        target: usize,
        command: u32,
        count: u32,
    ) -> Result<(), Memory>
        ensures ok { OnOk result (AddsHolder (Some target) command count self.old self.new) }
        ensures err { OnErr result (AreSameHolders self.old self.new) }
    {
        self.counts.add(target, count)?;
        if self.commands.add(alloc, target, command).is_err() {
            self.counts.remove(target, count);
            return Err(Memory);
        }
        Ok(())
    }

    /// A command holds them no more.
    pub fn remove(&mut self, holder: Option<usize>, command: u32, count: u32)
        ensures { RemovesHolder holder command count self.old self.new }
    {
        if let Some(target) = holder {
            self.commands.remove(target, command);
            self.counts.remove(target, count);
        }
    }

    /// The least command that holds blocks at a target.
    pub fn first(&self, target: usize) -> Option<u32>
        ensures { MatchOption result ((c : ℕ) → is_in self.now.commands target c ≡ false) (λ by. (is_in self.now.commands target by ≡ true) × ((c : ℕ) → is_in self.now.commands target c ≡ true → by ≤ c)) }
    {
        self.commands.first(target)
    }

    /// How many blocks are held at a target.
    pub fn count(&self, target: usize) -> u64
        ensures { result ≡ held_in self.now.counts target }
    {
        self.counts.at(target)
    }
}
