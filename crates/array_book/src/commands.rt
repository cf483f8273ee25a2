//! Commands: which were opened, which are open, and where their openings stand.

ghost use Rattle.std.specs.Prelude.{◌≡◌, List, OnOk, OnErr, [], ◌∷◌, length, reverse, slice_get, option_map};
ghost use Rattle.std.specs.Option.{option_copied};
ghost use Rattle.array_journal.specs.declared.entry.Entry.{Entry};
ghost use Rattle.array_journal.specs.Commands.{is_open, ends_command, open_count, task_of};
ghost use Rattle.array_journal.specs.Entries.{some_at};
ghost use Rattle.array_journal.specs.Lives.{closes_done};
ghost use Rattle.array_book.specs.CommandSteps.{Opens, Ends};
ghost use Rattle.array_book.specs.CommandSteps.{step_of};
ghost use Rattle.array_book.specs.KnownCommands.{KeepsCommands};
ghost use Rattle.array_book.specs.Openings.{opened_task};
ghost use Rattle.array_book.specs.OpenCommands.{open_commands, open_tasks};

mod by_number;
mod endings;
mod open_commands;
mod openings;

use crate::commands::endings::Endings;
use crate::commands::open_commands::{OpenCommand, OpenCommands};
use crate::commands::openings::Openings;
use array_journal::{Entry, Event, Task};
use blocks_core::Memory;
use std::alloc::Global;

/// What the entries so far say of commands.
#[derive(Debug, Drop)]
pub struct Commands {
    openings: Openings,
    endings: Endings,
    open_commands: OpenCommands,
}

/// The task of the opening at a place of some entries.
fn task_at(entries: &[Entry], place: usize) -> Option<&Task>
    ensures { option_copied result ≡ opened_task (slice_get entries.now place) }
{
    match entries.get(place) {
        Some(entry) => match &entry.event {
            Event::Open { task, .. } => Some(task),
            _ => None,
        },
        None => None,
    }
}

impl Commands {
    /// No entries. Takes no memory.
    pub fn new(alloc: Global) -> Commands
        ensures { KeepsCommands [] result }
    {
        Commands {
            openings: Openings::new(alloc),
            endings: Endings::new(alloc),
            open_commands: OpenCommands::new(alloc),
        }
    }

    /// A command is opened by the entry at a place. After want of memory what is known is as it was.
    pub fn open(&mut self, command: u32, place: usize) -> Result<(), Memory>
        ensures ok { OnOk result ((past : List Entry) (e : Entry) → step_of e ≡ Opens command → length past ≡ place
            → KeepsCommands past self.old → KeepsCommands (e ∷ past) self.new) }
        ensures err { OnErr result ((past : List Entry) → KeepsCommands past self.old → KeepsCommands past self.new) }
    {
        let ended = self.endings.has_ended(command);
        self.open_commands.reserve()?;
        self.endings.expect(command)?;
        self.openings.add(command, place)?;
        self.open_commands
            .add(OpenCommand { command, place }, ended);
        Ok(())
    }

    /// A command ends. After want of memory what is known is as it was.
    pub fn end(&mut self, command: u32, done: bool) -> Result<(), Memory>
        ensures ok { OnOk result ((past : List Entry) (e : Entry) → step_of e ≡ Ends command done
            → KeepsCommands past self.old → KeepsCommands (e ∷ past) self.new) }
        ensures err { OnErr result ((past : List Entry) → KeepsCommands past self.old → KeepsCommands past self.new) }
    {
        self.endings.add(command, done)?;
        self.open_commands.end(command);
        Ok(())
    }

    /// How many commands were opened.
    pub fn open_count(&self) -> usize
        ensures { (past : List Entry) → KeepsCommands past self.now → result ≡ open_count past }
    {
        self.openings.count()
    }

    /// Whether a command was opened and not ended.
    pub fn is_open(&self, command: u32) -> bool
        ensures { (past : List Entry) → KeepsCommands past self.now → result ≡ is_open command past }
    {
        let opened = self.openings.place_of(command).is_some();
        let ended = self.endings.has_ended(command);
        opened && !ended
    }

    /// Whether a command ended.
    pub fn has_ended(&self, command: u32) -> bool
        ensures { (past : List Entry) → KeepsCommands past self.now → result ≡ some_at 0 (ends_command command) past }
    {
        self.endings.has_ended(command)
    }

    /// Whether a command is closed as done.
    pub fn closes_done(&self, command: u32) -> bool
        ensures { (past : List Entry) → KeepsCommands past self.now → result ≡ some_at 0 (closes_done command) past }
    {
        self.endings.is_done(command)
    }

    /// The task of a command, that of its newest opening, out of the entries.
    pub fn task_of<'a>(&self, entries: &'a [Entry], command: u32) -> Option<&'a Task>
        ensures { (past : List Entry) → entries.now ≡ reverse past → KeepsCommands past self.now
            → option_copied result ≡ task_of command past }
    {
        match self.openings.place_of(command) {
            Some(place) => task_at(entries, place),
            None => None,
        }
    }

    /// How many openings have their command open.
    pub fn open_len(&self) -> usize
        ensures { (past : List Entry) → KeepsCommands past self.now → result ≡ length (open_tasks past) }
    {
        self.open_commands.len()
    }

    /// The number of the command that such an opening opens. The oldest comes first.
    pub fn open_command(&self, k: usize) -> Option<u32>
        ensures { (past : List Entry) → KeepsCommands past self.now
            → result ≡ option_map (λ c. c.command) (slice_get (open_commands past) k) }
    {
        match self.open_commands.get(k) {
            Some(opening) => Some(opening.command),
            None => None,
        }
    }

    /// The task of an opening whose command is open, out of the entries. The oldest comes first.
    pub fn open_task<'a>(&self, entries: &'a [Entry], k: usize) -> Option<&'a Task>
        ensures { (past : List Entry) → entries.now ≡ reverse past → KeepsCommands past self.now
            → option_copied result ≡ slice_get (open_tasks past) k }
    {
        match self.open_commands.get(k) {
            Some(opening) => task_at(entries, opening.place),
            None => None,
        }
    }
}
