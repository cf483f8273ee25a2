//! The entries so far, with their index.

ghost use Rattle.std.specs.Prelude.{◌≡◌, ◌+◌, ◌<◌, is_some, length, reverse, slice_get};
ghost use Rattle.std.specs.Option.{option_copied};
ghost use Rattle.array_journal.specs.Commands.{open_count, is_open, task_of, tasks_conflict};
ghost use Rattle.array_journal.specs.Decision.{opens_conflict, has_room};
ghost use Rattle.array_journal.specs.Entries.{entry_at, some_at, count_before, stamps_below};
ghost use Rattle.array_journal.specs.Listed.{is_listed};
ghost use Rattle.array_journal.specs.Lives.{loss_of, is_gone, life_of, swap_count, is_unfitted, is_missing, is_swap_of, closes_done};
ghost use Rattle.array_journal.specs.May.{swapped_since};
ghost use Rattle.array_journal.specs.Media.{drops};
ghost use Rattle.array_journal.specs.Run.{IsSetting};
ghost use Rattle.array_book.specs.Decisions.{facts_of};
ghost use Rattle.array_book.specs.OpenCommands.{open_tasks};
ghost use Rattle.array_book.specs.OpenTasks.{first_open};
ghost use Rattle.journal_index.specs.ActsDone.{acts_done};
ghost use Rattle.journal_index.specs.Indexes.{IsIndexOf};

use crate::acts_done::ActsDone;
use crate::index::Index;
use array_book::Facts;
use array_journal::{At, Entry, Event, Setting, Task};
use std::marker::Model;

/// The entries so far with their index. A contract sees the newest first, as definitions have it.
#[derive(Debug, Drop)]
pub struct Past<'a> {
    entries: &'a [Entry],
    index: &'a Index,
}

impl<'a> Model for Past<'a> {
    ghost use Rattle.std.specs.Prelude.{List, reverse};
    ghost use Rattle.array_journal.specs.declared.entry.Entry.{Entry};
    ghost use Rattle.journal_index.specs.Indexes.{IsIndexOf};

    ghost Value = { List Entry };

    ghost view = { λ p. reverse p.entries.now };

    ghost invariant = { λ p. IsIndexOf (reverse p.entries.now) p.index.now };
}

impl<'a> Past<'a> {
    /// Entries with their index.
    pub fn new(entries: &'a [Entry], index: &'a Index) -> Past<'a>
        requires { IsIndexOf (reverse entries.now) index.now }
        ensures { result ≡ reverse entries.now }
    {
        Past { entries, index }
    }

    /// The entries themselves, the oldest first.
    pub fn entries(&self) -> &'a [Entry]
        ensures { self.now ≡ reverse result.now }
    {
        self.entries
    }

    /// What the entry of a name says.
    pub fn entry_at(&self, name: At) -> Option<&'a Event>
        ensures { option_copied result ≡ entry_at name self.now }
    {
        self.index.names.event_in(self.entries, name)
    }

    /// Whether each entry of a lock has a smaller stamp.
    pub fn are_stamps_below(&self, lock: u8, stamp: u64) -> bool
        ensures { result ≡ stamps_below lock stamp self.now }
    {
        self.index.stamps.are_below(lock, stamp)
    }

    /// How many commands were opened.
    pub fn open_count(&self) -> usize
        ensures { result ≡ open_count self.now }
    {
        self.index.book.open_count()
    }

    /// Whether a command was opened and not ended.
    pub fn is_open(&self, command: u32) -> bool
        ensures { result ≡ is_open command self.now }
    {
        self.index.book.is_open(command)
    }

    /// The task of a command, that of its opening.
    pub fn task_of(&self, command: u32) -> Option<&'a Task>
        ensures { option_copied result ≡ task_of command self.now }
    {
        self.index.book.task_of(self.entries, command)
    }

    /// Whether a command is closed as done.
    pub fn closes_done(&self, command: u32) -> bool
        ensures { result ≡ some_at 0 (closes_done command) self.now }
    {
        self.index.book.closes_done(command)
    }

    /// How many openings have their command open.
    pub fn open_len(&self) -> usize
        ensures { result ≡ length (open_tasks self.now) }
    {
        self.index.book.open_len()
    }

    /// The task of an opening whose command is open. The place counts these openings from 0, the oldest
    /// first; there is none behind the last.
    pub fn open_task(&self, place: usize) -> Option<&'a Task>
        ensures { option_copied result ≡ slice_get (open_tasks self.now) place }
    {
        self.index.book.open_task(self.entries, place)
    }

    /// What a command did under a lock.
    pub fn acts_done(&self, lock: u8, command: u32) -> ActsDone
        ensures { result ≡ acts_done lock command self.now }
    {
        self.index.acts.acts_done(lock, command)
    }

    /// The newest loss of a target, where no fresh disk came after it.
    pub fn loss_of(&self, target: usize) -> Option<At>
        requires { target < 256 }
        ensures { result ≡ loss_of target self.now }
    {
        self.index.disks.loss_of(target)
    }

    /// Whether a target has no disk that works.
    pub fn is_gone(&self, target: usize) -> bool
        requires { target < 256 }
        ensures { result ≡ is_gone target self.now }
    {
        self.loss_of(target).is_some()
    }

    /// How many fresh disks a target got.
    pub fn life_of(&self, target: usize) -> usize
        requires { target < 256 }
        ensures { result ≡ life_of target self.now }
    {
        self.index.disks.life_of(target)
    }

    /// How many requests to peers are still to be dropped at a target.
    pub fn drops(&self, target: usize) -> usize
        requires { target < 256 }
        ensures { result ≡ drops target self.now }
    {
        self.index.disks.drops(target)
    }

    /// Whether a target got a disk for a swap that isn't older than an opening.
    pub fn is_swapped_since(&self, target: usize, opened: At) -> bool
        requires { target < 256 }
        ensures { result ≡ some_at (target + 1) (swapped_since opened) self.now }
    {
        self.index.disks.is_swapped_since(target, opened)
    }

    /// How often the book swapped a slot's disk.
    pub fn swap_count(&self, slot: usize) -> usize
        ensures { result ≡ swap_count slot self.now }
    {
        self.index.book.swap_count(slot)
    }

    /// Whether the newest note or swap of a slot is a note.
    pub fn is_unfitted(&self, slot: usize) -> bool
        ensures { result ≡ is_unfitted slot self.now }
    {
        self.index.book.is_unfitted(slot)
    }

    /// How often the book swapped a slot's disk before a stamp.
    pub fn swaps_before(&self, slot: usize, stamp: u64) -> usize
        ensures { result ≡ count_before 0 (is_swap_of slot) stamp self.now }
    {
        self.index.book.swaps_before(slot, stamp)
    }

    /// Whether a stripe is listed.
    pub fn is_listed(&self, stripe: u32) -> bool
        ensures { result ≡ is_listed stripe self.now }
    {
        self.index.book.is_listed(stripe)
    }

    /// Whether the book knows that a target's disk was lost, and of no rebuild of its unit since.
    pub fn is_missing(&self, target: usize, stripe: u32) -> bool
        ensures { result ≡ is_missing target stripe self.now }
    {
        self.index.book.is_missing(self.entries, target, stripe)
    }
    /// The facts on which the book decides a piece at a target of a stripe.
    pub fn facts(&self, setting: &Setting, stripe: u32, target: usize) -> Facts
        requires { IsSetting setting.now }
        ensures { result ≡ facts_of setting.now stripe target self.now }
    {
        self.index.book.facts(setting, self.entries, stripe, target)
    }

    /// The open command that a task conflicts with, of several the one that was opened first.
    pub fn first_in_way(&self, task: &Task) -> Option<u32>
        ensures found { is_some result ≡ some_at 0 (opens_conflict self.now task.now) self.now }
        ensures first { result ≡ first_open (tasks_conflict task.now) self.now }
    {
        self.index.book.first_in_way(self.entries, task)
    }

    /// Whether the buffer has room for what a command of a task will hold.
    pub fn has_room(&self, setting: &Setting, task: &Task) -> bool
        ensures { result ≡ has_room setting.now task.now self.now }
    {
        self.index.book.has_room(setting, self.entries, task)
    }
}
