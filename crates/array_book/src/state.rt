//! The state of the book: what its entries so far say.

ghost use Rattle.std.specs.Prelude.{◌≡◌, List, [], length, reverse, slice_get, option_map};
ghost use Rattle.std.specs.Option.{option_copied};
ghost use Rattle.array_journal.specs.declared.entry.Entry.{Entry};
ghost use Rattle.array_journal.specs.Commands.{is_open, ends_command, open_count, task_of};
ghost use Rattle.array_journal.specs.Entries.{some_at, count_before};
ghost use Rattle.array_journal.specs.Listed.{is_listed};
ghost use Rattle.array_journal.specs.Lives.{closes_done, swap_count, is_unfitted, is_swap_of};
ghost use Rattle.array_book.specs.BookStates.{KeepsBook};
ghost use Rattle.array_book.specs.OpenCommands.{open_commands, open_tasks};

use crate::commands::Commands;
use crate::dirty::DirtyStripes;
use crate::noted_slots::NotedSlots;
use crate::slots::Slots;
use array_journal::{Entry, Task};
use std::alloc::Global;

/// What the book's entries so far say of commands, slots and units. Entries of other locks change
/// nothing of it, so the state of the book's own entries and that of a whole journal are one.
///
/// The tasks of commands aren't copied: they are looked up in the entries, which whoever keeps the
/// state hands in again, the oldest first.
#[derive(Debug, Drop)]
pub struct BookState {
    pub(crate) commands: Commands,
    pub(crate) slots: Slots,
    pub(crate) noted: NotedSlots,
    pub(crate) dirty: DirtyStripes,
}

impl BookState {
    /// The state of no entries. Takes no memory.
    pub fn new(alloc: Global) -> BookState
        ensures { KeepsBook [] result }
    {
        BookState {
            commands: Commands::new(alloc),
            slots: Slots::new(alloc),
            noted: NotedSlots::new(alloc),
            dirty: DirtyStripes::new(alloc),
        }
    }

    /// How many commands were opened.
    pub fn open_count(&self) -> usize
        ensures { (past : List Entry) → KeepsBook past self.now → result ≡ open_count past }
    {
        self.commands.open_count()
    }

    /// Whether a command was opened and not ended.
    pub fn is_open(&self, command: u32) -> bool
        ensures { (past : List Entry) → KeepsBook past self.now → result ≡ is_open command past }
    {
        self.commands.is_open(command)
    }

    /// Whether a command ended.
    pub(crate) fn has_ended(&self, command: u32) -> bool
        ensures { (past : List Entry) → KeepsBook past self.now → result ≡ some_at 0 (ends_command command) past }
    {
        self.commands.has_ended(command)
    }

    /// Whether a command is closed as done.
    pub fn closes_done(&self, command: u32) -> bool
        ensures { (past : List Entry) → KeepsBook past self.now → result ≡ some_at 0 (closes_done command) past }
    {
        self.commands.closes_done(command)
    }

    /// The task of a command, that of its opening, out of the entries.
    pub fn task_of<'a>(&self, entries: &'a [Entry], command: u32) -> Option<&'a Task>
        requires { KeepsBook (reverse entries.now) self.now }
        ensures { option_copied result ≡ task_of command (reverse entries.now) }
    {
        self.commands.task_of(entries, command)
    }

    /// How many openings have their command open.
    pub fn open_len(&self) -> usize
        ensures { (past : List Entry) → KeepsBook past self.now → result ≡ length (open_tasks past) }
    {
        self.commands.open_len()
    }

    /// The command of an opening whose command is open. The place counts these openings from 0, the
    /// oldest first.
    pub fn open_command(&self, place: usize) -> Option<u32>
        ensures { (past : List Entry) → KeepsBook past self.now → result ≡ option_map (λ c. c.command) (slice_get (open_commands past) place) }
    {
        self.commands.open_command(place)
    }

    /// The task of an opening whose command is open, out of the entries. The place counts these openings
    /// from 0, the oldest first; there is none behind the last.
    pub fn open_task<'a>(&self, entries: &'a [Entry], place: usize) -> Option<&'a Task>
        requires { KeepsBook (reverse entries.now) self.now }
        ensures { option_copied result ≡ slice_get (open_tasks (reverse entries.now)) place }
    {
        self.commands.open_task(entries, place)
    }

    /// Whether a stripe is listed.
    pub fn is_listed(&self, stripe: u32) -> bool
        ensures { (past : List Entry) → KeepsBook past self.now → result ≡ is_listed stripe past }
    {
        self.dirty.is_listed(stripe)
    }

    /// How often a slot's disk was swapped: the life that its next disk has.
    pub fn swap_count(&self, slot: usize) -> usize
        ensures { (past : List Entry) → KeepsBook past self.now → result ≡ swap_count slot past }
    {
        self.slots.swap_count(slot)
    }

    /// Whether the newest note or swap of a slot is a note.
    pub fn is_unfitted(&self, slot: usize) -> bool
        ensures { (past : List Entry) → KeepsBook past self.now → result ≡ is_unfitted slot past }
    {
        self.noted.is_unfitted(slot)
    }

    /// How often a slot's disk was swapped under a smaller stamp.
    pub fn swaps_before(&self, slot: usize, stamp: u64) -> usize
        ensures { (past : List Entry) → KeepsBook past self.now → result ≡ count_before 0 (is_swap_of slot) stamp past }
    {
        self.slots.swaps_before(slot, stamp)
    }
}
