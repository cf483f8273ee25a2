//! What an event can be asked.

ghost use Rattle.std.specs.Prelude.{◌≡◌, ◌==◌};
ghost use Rattle.std.specs.List.{list_any};
ghost use Rattle.array_journal.specs.May.{is_loss_in, shuts_idle, is_wipe_of, is_dropped_diff, discards};
ghost use Rattle.run_check.specs.Questions.{test_of};

use array_journal::{Act, Event, What};
use blocks_core::Owners;

/// A question that an event answers by yes or no.
#[derive(Clone, Copy, Debug)]
pub enum Question {
    IsAct { act: Act, command: u32 },
    /// Does it shut the command where nothing changed the medium?
    ShutsIdle { command: u32 },
    IsLossIn { life: usize },
    IsWipeOf { command: u32 },
    Discards { command: u32 },
    IsDroppedDiff { command: u32 },
}

fn shuts_idle(event: &Event, wanted: u32) -> bool
    ensures { result ≡ shuts_idle wanted event.now }
{
    match event {
        Event::Shut { command, acted, .. } => !*acted && *command == wanted,
        _ => false,
    }
}

fn is_loss_in(event: &Event, wanted: usize) -> bool
    ensures { result ≡ is_loss_in wanted event.now }
{
    match event {
        Event::Gone { life, .. } => *life as usize == wanted,
        _ => false,
    }
}

fn has_owner(owners: &Owners, wanted: u32) -> bool
    ensures { result ≡ list_any (λ x. x == wanted) owners.now }
{
    owners.as_slice().iter().any(|owner| *owner == wanted)
}

fn is_wipe_of(event: &Event, wanted: u32) -> bool
    ensures { result ≡ is_wipe_of wanted event.now }
{
    match event {
        Event::Wiped {
            what: What::Buffers,
            commands,
            ..
        } => has_owner(commands, wanted),
        _ => false,
    }
}

fn discards(event: &Event, wanted: u32) -> bool
    ensures { result ≡ discards wanted event.now }
{
    match event {
        Event::Gone { commands, .. } => has_owner(commands, wanted),
        _ => is_wipe_of(event, wanted),
    }
}

fn is_dropped_diff(event: &Event, wanted: u32) -> bool
    ensures { result ≡ is_dropped_diff wanted event.now }
{
    match event {
        Event::Diff {
            command,
            dropped,
            ..
        } => *dropped && *command == wanted,
        _ => false,
    }
}

/// An event's answer.
pub fn answer(question: Question, event: &Event) -> bool
    ensures { result ≡ test_of question event.now }
{
    match question {
        Question::IsAct { act, command } => event.is_act(act, command),
        Question::ShutsIdle { command } => shuts_idle(event, command),
        Question::IsLossIn { life } => is_loss_in(event, life),
        Question::IsWipeOf { command } => is_wipe_of(event, command),
        Question::Discards { command } => discards(event, command),
        Question::IsDroppedDiff { command } => is_dropped_diff(event, command),
    }
}
