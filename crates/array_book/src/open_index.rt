//! Indexes of the open commands, so that a piece is begun without going through all of them.

ghost use Rattle.std.specs.Prelude.{◌≡◌, ◌≤◌, [], true, false, ℕ, OnOk, OnErr, MatchOption};
ghost use Rattle.std.specs.Option.{option_copied};
ghost use Rattle.array_journal.specs.declared.setting.Setting.{Setting};
ghost use Rattle.array_book.specs.OpenIndexes.{is_in, has_member, held_in, AddsCommand, RemovesCommand, IsSameIndex, KeepsIndex};

use crate::groups::Groups;
use crate::holders::Holders;
use crate::room::holder_of;
use array_journal::{Setting, Task};
use blocks_core::Memory;
use std::alloc::Global;
use std::collections::BTreeSet;

/// The open commands by what they can stand in the way of: those of each stripe, and those that hold blocks at each
/// target.
#[derive(Debug, Drop)]
pub struct OpenIndex {
    on_stripes: Groups,
    holders: Holders,
}

impl OpenIndex {
    /// No commands. Takes no memory.
    pub fn new(alloc: Global) -> OpenIndex
        ensures { (s : Setting) → KeepsIndex s [] result }
    {
        OpenIndex {
            on_stripes: Groups::new(alloc),
            holders: Holders::new(alloc),
        }
    }

    /// A command with this task is opened. After want of memory nothing has changed.
    pub fn open(
        &mut self,
        alloc: Global,
        setting: &Setting,
        command: u32,
        task: &Task,
    ) -> Result<(), Memory>
        requires { (i : ℕ) → is_in self.old.holders.commands i command ≡ false }
        ensures ok { OnOk result (AddsCommand setting.now command task.now self.old self.new) }
        ensures err { OnErr result (IsSameIndex self.old self.new) }
    {
        let holder = holder_of(setting, task);
        self.holders.add(alloc, holder, command, task.count)?;
        let stripe = task.stripe as usize;
        if self.on_stripes.add(alloc, stripe, command).is_err() {
            self.holders.remove(holder, command, task.count);
            return Err(Memory);
        }
        Ok(())
    }

    /// A command with this task, if it was open, is open no more.
    pub fn end(&mut self, setting: &Setting, command: u32, task: Option<&Task>)
        ensures { RemovesCommand setting.now command (option_copied task.entry) self.old self.new }
    {
        if let Some(task) = task {
            self.on_stripes.remove(task.stripe as usize, command);
            self.holders
                .remove(holder_of(setting, task), command, task.count);
        }
    }

    /// The open commands of a stripe, if it ever had one.
    pub fn on_stripe(&self, stripe: u32) -> Option<&BTreeSet<u32>>
        ensures { (c : ℕ) → has_member (option_copied result) c ≡ is_in self.now.on_stripes stripe c }
    {
        self.on_stripes.get(stripe as usize)
    }

    /// The least open command that holds blocks at a target.
    pub fn first_holder(&self, target: usize) -> Option<u32>
        ensures { MatchOption result ((c : ℕ) → is_in self.now.holders.commands target c ≡ false) (λ by. (is_in self.now.holders.commands target by ≡ true) × ((c : ℕ) → is_in self.now.holders.commands target c ≡ true → by ≤ c)) }
    {
        self.holders.first(target)
    }

    /// How many blocks open commands hold at a target.
    pub fn held_at(&self, target: usize) -> u64
        ensures { result ≡ held_in self.now.holders.counts target }
    {
        self.holders.count(target)
    }
}
