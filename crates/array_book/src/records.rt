//! The book's entries, with the state that they come to.

ghost use Rattle.std.specs.Prelude.{◌≡◌, [], ◌∷◌, None, OnOk, OnErr, reverse, if◌then◌else◌};
ghost use Rattle.std.specs.Option.{option_copied};
ghost use Rattle.array_journal.specs.Acts.{is_target};
ghost use Rattle.array_journal.specs.Commands.{is_open, ends_command, open_count, task_of};
ghost use Rattle.array_journal.specs.Entries.{some_at};
ghost use Rattle.array_journal.specs.Lives.{swap_count, is_unfitted};
ghost use Rattle.array_journal.specs.Run.{IsSetting};
ghost use Rattle.array_book.specs.BookStates.{KeepsBook};
ghost use Rattle.array_book.specs.Decisions.{facts_of};
ghost use Rattle.array_book.specs.Ledgers.{newest_stamp};
ghost use Rattle.array_book.specs.OpenTasks.{first_open};

use crate::decision::Facts;
use crate::state::BookState;
use array_journal::{Entries, Entry, Setting, Task};
use blocks_core::Memory;
use std::alloc::Global;
use std::marker::Model;

/// The entries, with their state. A contract sees the newest entry first, as definitions have it.
#[derive(Debug, Drop)]
pub(crate) struct Records {
    entries: Entries,
    state: BookState,
}

impl Model for Records {
    ghost use Rattle.std.specs.Prelude.{List, reverse};
    ghost use Rattle.array_journal.specs.declared.entry.Entry.{Entry};
    ghost use Rattle.array_book.specs.BookStates.{KeepsBook};

    ghost Value = { List Entry };

    ghost view = { λ r. reverse r.entries.list };

    ghost invariant = { λ r. KeepsBook (reverse r.entries.list) r.state };
}

impl Records {
    /// No entries. Takes no memory.
    pub fn new(alloc: Global) -> Records
        ensures { result ≡ [] }
    {
        Records {
            entries: Entries::new(alloc),
            state: BookState::new(alloc),
        }
    }

    /// Puts one entry behind the others. After want of memory nothing has changed.
    pub fn append(&mut self, alloc: Global, entry: Entry) -> Result<(), Memory>
        ensures ok { OnOk result (self.new ≡ entry ∷ self.old) }
        ensures err { OnErr result (self.new ≡ self.old) }
    {
        // The room first: once the state has taken the entry in, nothing may fail.
        self.entries.reserve(1)?;
        self.state.add(alloc, self.entries.as_slice(), &entry)?;
        self.entries.push_within(entry);
        Ok(())
    }

    /// The entries themselves, the oldest first.
    pub fn entries(&self) -> &Entries
        ensures { result.now.list ≡ reverse self.now }
    {
        &self.entries
    }

    pub fn into_entries(self) -> Entries
        ensures { result.list ≡ reverse self }
    {
        let Records { entries, state } = self;
        drop(state);
        entries
    }

    /// The stamp of the newest entry, or 0.
    pub fn newest_stamp(&self) -> u64
        ensures { result ≡ newest_stamp self.now }
    {
        match self.entries.as_slice().last() {
            Some(entry) => entry.stamp,
            None => 0,
        }
    }

    /// How many commands were opened.
    pub fn open_count(&self) -> usize
        ensures { result ≡ open_count self.now }
    {
        self.state.open_count()
    }

    /// Whether the newest note or swap of a slot is a note.
    pub fn is_unfitted(&self, slot: u8) -> bool
        ensures { result ≡ is_unfitted slot self.now }
    {
        self.state.is_unfitted(usize::from(slot))
    }

    /// How often a slot's disk was swapped.
    pub fn swap_count(&self, slot: u8) -> usize
        ensures { result ≡ swap_count slot self.now }
    {
        self.state.swap_count(usize::from(slot))
    }

    /// The facts about a target of a stripe.
    pub fn facts(&self, setting: &Setting, stripe: u32, target: u8) -> Facts
        requires { IsSetting setting.now }
        ensures { result ≡ facts_of setting.now stripe target self.now }
    {
        self.state.facts(
            setting,
            self.entries.as_slice(),
            stripe,
            usize::from(target),
        )
    }

    /// Whether a command was opened and not ended.
    pub fn is_open(&self, command: u32) -> bool
        ensures { result ≡ is_open command self.now }
    {
        self.state.is_open(command)
    }

    /// Whether a command ended.
    pub fn has_ended(&self, command: u32) -> bool
        ensures { result ≡ some_at 0 (ends_command command) self.now }
    {
        self.state.has_ended(command)
    }

    /// The task of a command, where it is asked for.
    pub fn task_if(&self, command: u32, asked: bool) -> Option<&Task>
        ensures { option_copied result ≡ (if asked then task_of command self.now else None) }
    {
        if asked { self.task_of(command) } else { None }
    }

    /// The task of a command, that of its opening.
    pub fn task_of(&self, command: u32) -> Option<&Task>
        ensures { option_copied result ≡ task_of command self.now }
    {
        self.state.task_of(self.entries.as_slice(), command)
    }

    /// Of the open commands that act at a target, the one that was opened first.
    pub fn first_acting(&self, setting: &Setting, target: usize) -> Option<u32>
        ensures { result ≡ first_open (λ task. is_target setting.now task target) self.now }
    {
        self.state
            .first_acting(setting, self.entries.as_slice(), target)
    }
}
