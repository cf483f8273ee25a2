//! What each command did at each target.

ghost use Rattle.std.specs.Prelude.{◌≡◌, [], ◌∷◌, List, OnOk};
ghost use Rattle.array_journal.specs.declared.entry.Entry.{Entry};
ghost use Rattle.journal_index.specs.CommandActs.{KeepsActs, with_act, none_done};
ghost use Rattle.journal_index.specs.ActsDone.{acts_done};

use crate::acts_done::ActsDone;
use array_journal::{Entry, Event};
use blocks_core::Memory;
use std::alloc::Global;
use std::collections::BTreeMap;

/// The acts of a command that did nothing.
fn no_acts() -> ActsDone
    ensures { result ≡ none_done }
{
    ActsDone {
        fetched: false,
        put: false,
        diffed: false,
        taken: false,
        folded: false,
        held: false,
        shut: false,
    }
}

/// The acts done before an event, and that of the event.
fn with_act(event: &Event, before: ActsDone) -> ActsDone
    ensures { result ≡ with_act event.now before }
{
    let mut acts = before;
    match event {
        Event::Fetch { .. } => acts.fetched = true,
        Event::Put { .. } => acts.put = true,
        Event::Diff { .. } => acts.diffed = true,
        Event::Take { .. } => acts.taken = true,
        Event::Fold { .. } => acts.folded = true,
        Event::Hold { .. } => acts.held = true,
        Event::Shut { .. } => acts.shut = true,
        _ => {}
    }
    acts
}

/// The acts of commands, by the lock that their entries stand at and the command.
#[derive(Debug, Drop)]
pub struct CommandActs {
    kept: BTreeMap<(u8, u32), ActsDone>,
}

impl CommandActs {
    /// The acts in no entries.
    pub fn new(alloc: Global) -> CommandActs
        ensures { KeepsActs [] result }
    {
        CommandActs {
            kept: BTreeMap::new(alloc),
        }
    }

    /// What a command did at a lock.
    pub fn acts_done(&self, lock: u8, command: u32) -> ActsDone
        ensures { (past : List Entry) → KeepsActs past self.now → result ≡ acts_done lock command past }
    {
        match self.kept.get(&(lock, command)) {
            Some(acts) => *acts,
            None => no_acts(),
        }
    }

    /// Takes one more entry in.
    pub fn add(&mut self, entry: &Entry) -> Result<(), Memory>
        ensures { OnOk result ((past : List Entry) → KeepsActs past self.old → KeepsActs (entry.now ∷ past) self.new) }
    {
        if let Some(command) = entry.event.actor() {
            let before = self.acts_done(entry.lock, command);
            let acts = with_act(&entry.event, before);
            self.kept.insert((entry.lock, command), acts)?;
        }
        Ok(())
    }
}
