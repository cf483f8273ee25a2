//! How the state goes over one more entry. Each step takes its memory before it changes anything, or takes back
//! what it changed: else a call that wanted memory would leave a state that is that of no entries.

ghost use Rattle.std.specs.Prelude.{◌≡◌, ◌∷◌, ℕ, List, Option, OnOk, OnErr, length, reverse};
ghost use Rattle.std.specs.Option.{option_copied};
ghost use Rattle.array_journal.specs.declared.at.At.{At};
ghost use Rattle.array_journal.specs.declared.entry.Entry.{Entry};
ghost use Rattle.array_journal.specs.declared.event.Event.TheVariants as events;
ghost use Rattle.array_journal.specs.Commands.{task_of};
ghost use Rattle.array_book.specs.BookStates.{KeepsBook};
ghost use Rattle.array_book.specs.Ledgers.{book_entry};

use crate::state::BookState;
use array_journal::{Entry, Event, Task};
use blocks_core::Memory;
use std::alloc::Global;

impl BookState {
    /// A command is opened by the entry at a place.
    fn open(&mut self, alloc: Global, place: usize, command: u32, task: &Task) -> Result<(), Memory>
        ensures ok { OnOk result ((past : List Entry) (stamp : ℕ) → length past ≡ place → KeepsBook past self.old → KeepsBook (book_entry stamp (events.Open command task.now) ∷ past) self.new) }
        ensures err { OnErr result ((past : List Entry) → KeepsBook past self.old → KeepsBook past self.new) }
    {
        self.noted.open(alloc, command, task)?;
        if self.commands.open(command, place).is_err() {
            self.noted.take_back(task);
            return Err(Memory);
        }
        Ok(())
    }

    /// A command with this task is closed.
    fn close(&mut self, command: u32, done: bool, task: Option<&Task>) -> Result<(), Memory>
        ensures ok { OnOk result ((past : List Entry) (stamp : ℕ) (names : List At) (cause : Option At) (bytes : List ℕ) → option_copied task.entry ≡ task_of command past → KeepsBook past self.old → KeepsBook (book_entry stamp (events.Close command done names cause bytes) ∷ past) self.new) }
        ensures err { OnErr result ((past : List Entry) → KeepsBook past self.old → KeepsBook past self.new) }
    {
        self.commands.end(command, done)?;
        self.dirty.close(done, task);
        Ok(())
    }

    /// A command with this task is spoilt.
    fn spoil(&mut self, command: u32, task: Option<&Task>) -> Result<(), Memory>
        ensures ok { OnOk result ((past : List Entry) (stamp : ℕ) (diff loss shut : At) → option_copied task.entry ≡ task_of command past → KeepsBook past self.old → KeepsBook (book_entry stamp (events.Spoil command diff loss shut) ∷ past) self.new) }
        ensures err { OnErr result ((past : List Entry) → KeepsBook past self.old → KeepsBook past self.new) }
    {
        let was_listed = self.dirty.is_task_listed(task);
        self.dirty.spoil(command, task)?;
        if self.commands.end(command, false).is_err() {
            self.dirty.take_back(task, was_listed);
            return Err(Memory);
        }
        Ok(())
    }

    /// The loss of a slot is noted.
    fn note(&mut self, alloc: Global, slot: u8) -> Result<(), Memory>
        ensures ok { OnOk result ((past : List Entry) (stamp : ℕ) (gone : At) → KeepsBook past self.old → KeepsBook (book_entry stamp (events.Note slot gone) ∷ past) self.new) }
        ensures err { OnErr result ((past : List Entry) → KeepsBook past self.old → KeepsBook past self.new) }
    {
        self.noted.note(alloc, usize::from(slot))
    }

    /// A slot gets a new disk, under a stamp.
    fn swap(&mut self, alloc: Global, slot: u8, stamp: u64) -> Result<(), Memory>
        ensures ok { OnOk result ((past : List Entry) (call : ℕ) → KeepsBook past self.old → KeepsBook (book_entry stamp (events.Swap slot call) ∷ past) self.new) }
        ensures err { OnErr result ((past : List Entry) → KeepsBook past self.old → KeepsBook past self.new) }
    {
        self.slots.swap(alloc, usize::from(slot), stamp)?;
        self.noted.fit(usize::from(slot));
        Ok(())
    }

    /// One more event of the book, after some entries.
    fn add_event(
        &mut self,
        alloc: Global,
        past: &[Entry],
        stamp: u64,
        event: &Event,
    ) -> Result<(), Memory>
        requires { KeepsBook (reverse past.now) self.old }
        ensures ok { OnOk result (KeepsBook (book_entry stamp event.now ∷ reverse past.now) self.new) }
        ensures err { OnErr result (KeepsBook (reverse past.now) self.new) }
    {
        match event {
            Event::Open { command, task } => self.open(alloc, past.len(), *command, task),
            Event::Close { command, done, .. } => {
                let task = self.commands.task_of(past, *command);
                self.close(*command, *done, task)
            }
            Event::Spoil { command, .. } => {
                let task = self.commands.task_of(past, *command);
                self.spoil(*command, task)
            }
            Event::Note { slot, .. } => self.note(alloc, *slot),
            Event::Swap { slot, .. } => self.swap(alloc, *slot, stamp),
            _ => Ok(()),
        }
    }

    /// Takes one more entry in, after the ones so far, which are handed in again. After want of memory the
    /// state is as it was.
    pub fn add(&mut self, alloc: Global, past: &[Entry], entry: &Entry) -> Result<(), Memory>
        requires { KeepsBook (reverse past.now) self.old }
        ensures ok { OnOk result (KeepsBook (entry.now ∷ reverse past.now) self.new) }
        ensures err { OnErr result (KeepsBook (reverse past.now) self.new) }
    {
        if entry.lock != 0 {
            return Ok(());
        }
        self.add_event(alloc, past, entry.stamp, &entry.event)
    }
}
