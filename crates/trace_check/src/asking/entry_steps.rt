//! The call that each entry of a journal belongs to, and the step that it is.

ghost use Rattle.std.specs.Prelude.{◌≡◌, reverse, option_map};
ghost use Rattle.array_journal.specs.Entries.{name_of};
ghost use Rattle.stripe_check.specs.Steps.{call_of, call_of_command, step_by};
ghost use Rattle.trace_check.specs.EntrySteps.{step_of, IsStepOf};

use array_journal::{At, Entry, Event, What, Why};
use journal_index::Past;

/// How a command ends.
#[derive(Clone, Copy, Debug, PartialEq, Eq)]
pub enum CommandEnd {
    Done,
    GivenUp,
    Spoilt,
}

/// What an entry tells of how far its call is.
#[derive(Clone, Copy, Debug)]
pub enum Step {
    Begins { piece: u32, command: u32 },
    Ends { command: u32, ending: CommandEnd },
    Refused { piece: u32, why: Why },
    Lost { lock: u8, life: u32 },
    WipedAt { lock: u8, what: What },
    Swapped { slot: u8, name: At },
    Renewed { lock: u8, swap: At },
}

/// The call that an entry belongs to, and its step, where it has one.
#[derive(Clone, Copy, Debug)]
pub struct EntryStep {
    pub call: Option<u32>,
    pub step: Option<Step>,
}

/// The call for which a command was opened.
fn call_of_command(past: &Past, command: u32) -> Option<u32>
    ensures { result ≡ call_of_command command past.now }
{
    match past.task_of(command) {
        Some(task) => Some(task.call),
        None => None,
    }
}

/// The call that an event belongs to, over the entries before it.
fn call_of(past: &Past, event: &Event) -> Option<u32>
    ensures { result ≡ call_of event.now past.now }
{
    match event {
        Event::Shut { command, .. } => call_of_command(past, *command),
        Event::Close { command, .. } => call_of_command(past, *command),
        Event::Spoil { command, .. } => call_of_command(past, *command),
        Event::Gone { call, .. } => Some(*call),
        Event::Wiped { call, .. } => Some(*call),
        Event::Fresh { call, .. } => Some(*call),
        Event::Swap { call, .. } => Some(*call),
        Event::Refuse { call, .. } => Some(*call),
        Event::Open { task, .. } => Some(task.call),
        _ => call_of_command(past, event.act()?.command),
    }
}

fn step_by(entry: &Entry) -> Option<Step>
    ensures { option_map step_of result ≡ step_by entry.now.event entry.now.lock (name_of entry.now) }
{
    let name = At {
        stamp: entry.stamp,
        lock: entry.lock,
    };
    let lock = entry.lock;
    match &entry.event {
        Event::Gone { life, .. } => Some(Step::Lost { lock, life: *life }),
        Event::Wiped { what, .. } => Some(Step::WipedAt { lock, what: *what }),
        Event::Fresh { swap, .. } => Some(Step::Renewed { lock, swap: *swap }),
        Event::Open { command, task } => Some(Step::Begins {
            piece: task.piece,
            command: *command,
        }),
        Event::Close {
            command,
            done: true,
            ..
        } => Some(Step::Ends {
            command: *command,
            ending: CommandEnd::Done,
        }),
        Event::Close {
            command,
            done: false,
            ..
        } => Some(Step::Ends {
            command: *command,
            ending: CommandEnd::GivenUp,
        }),
        Event::Spoil { command, .. } => Some(Step::Ends {
            command: *command,
            ending: CommandEnd::Spoilt,
        }),
        Event::Swap { slot, .. } => Some(Step::Swapped { slot: *slot, name }),
        Event::Refuse { piece, why, .. } => Some(Step::Refused {
            piece: *piece,
            why: *why,
        }),
        _ => None,
    }
}

/// The step of an entry, over the entries before it.
pub fn entry_step_of(past: &Past, entry: &Entry) -> EntryStep
    ensures { IsStepOf result entry.now past.now }
{
    EntryStep {
        call: call_of(past, &entry.event),
        step: step_by(entry),
    }
}
