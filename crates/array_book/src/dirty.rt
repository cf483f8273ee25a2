//! The stripes that are listed dirty.

ghost use Rattle.std.specs.Prelude.{◌≡◌, ◌&&◌, [], ℕ, List, Option, Some, None, OnOk, OnErr, not, is_some, true, if◌then◌else◌};
ghost use Rattle.std.specs.Option.{option_copied};
ghost use Rattle.dirty_list.specs.Listings.{command_of};
ghost use Rattle.array_journal.specs.declared.entry.Entry.{Entry};
ghost use Rattle.array_journal.specs.Listed.{is_listed, has_stripe, renews_parity};
ghost use Rattle.array_book.specs.Dirty.{KeepsListed};

use array_journal::Task;
use blocks_core::Memory;
use dirty_list::DirtyList;
use std::alloc::Global;

/// The stripes whose parity can't be trusted.
#[derive(Debug, Drop)]
pub struct DirtyStripes {
    listed: DirtyList,
}

impl DirtyStripes {
    /// The list after no entries.
    pub fn new(alloc: Global) -> DirtyStripes
        ensures { KeepsListed [] result }
    {
        DirtyStripes {
            listed: DirtyList::new(alloc),
        }
    }

    pub fn is_listed(&self, stripe: u32) -> bool
        ensures { (past : List Entry) → KeepsListed past self.now → result ≡ is_listed stripe past }
    {
        self.listed.find(stripe).is_some()
    }

    /// Whether the stripe of a task is listed.
    pub fn is_task_listed(&self, task: Option<&Task>) -> bool
        ensures { (s : ℕ) → has_stripe s (option_copied task.entry) ≡ true → result ≡ is_some (command_of s self.now.listed) }
    {
        match task {
            Some(task) => self.listed.find(task.stripe).is_some(),
            None => false,
        }
    }

    /// A command with this task is spoilt.
    pub fn spoil(&mut self, command: u32, task: Option<&Task>) -> Result<(), Memory>
        ensures ok { OnOk result ((s : ℕ) → command_of s self.new.listed ≡ (if has_stripe s (option_copied task.entry) && not (is_some (command_of s self.old.listed)) then Some command else command_of s self.old.listed)) }
        ensures err { OnErr result ((s : ℕ) → command_of s self.new.listed ≡ command_of s self.old.listed) }
    {
        if let Some(task) = task {
            self.listed.list(task.stripe, command)?;
        }
        Ok(())
    }

    /// Takes such a spoil, the newest entry, out again. Whether its stripe was listed before is handed in.
    pub fn take_back(&mut self, task: Option<&Task>, was_listed: bool)
        ensures { (s command : ℕ) (before : Option ℕ) → (has_stripe s (option_copied task.entry) ≡ true → was_listed ≡ is_some before)
            → command_of s self.old.listed ≡ (if has_stripe s (option_copied task.entry) && not (is_some before) then Some command else before)
            → command_of s self.new.listed ≡ before }
    {
        if let Some(task) = task {
            if !was_listed {
                self.listed.clear(task.stripe);
            }
        }
    }

    /// A command with this task is closed.
    pub fn close(&mut self, done: bool, task: Option<&Task>)
        ensures { (s : ℕ) → command_of s self.new.listed ≡ (if done && renews_parity s (option_copied task.entry) then None else command_of s self.old.listed) }
    {
        if let Some(task) = task {
            if done && task.makes_parity() {
                self.listed.clear(task.stripe);
            }
        }
    }
}
