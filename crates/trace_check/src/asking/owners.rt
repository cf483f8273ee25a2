//! Whether each entry belongs to a call, and whether each command is ended.

ghost use Rattle.std.specs.Prelude.{◌≡◌, ◌↔◌, IsTrue, List};
ghost use Rattle.array_journal.specs.declared.entry.Entry.{Entry};
ghost use Rattle.array_journal.specs.Run.{NoneOpen};
ghost use Rattle.stripe_check.specs.Asked.{is_call_of, is_owned};
ghost use Rattle.stripe_check.specs.Steps.{call_of};

use array_journal::Event;
use host_scripts::Script;
use journal_index::Past;

fn is_call_of(script: &Script, call: Option<u32>) -> bool
    ensures { result ≡ is_call_of script.now call }
{
    match call {
        Some(number) => 1 <= number && number as usize <= script.calls.len(),
        None => false,
    }
}

/// Whether an event, which belongs to this call, if to any, belongs to a call of the script, or is of a kind
/// that may belong to none.
pub fn is_owned(script: &Script, event: &Event, call: Option<u32>) -> bool
    ensures { (past : List Entry) → call ≡ call_of event.now past → result ≡ is_owned script.now event.now past }
{
    match event {
        Event::Note { .. } => true,
        Event::Gone { call, .. } => *call == 0 || is_call_of(script, Some(*call)),
        _ => is_call_of(script, call),
    }
}

/// Whether each command is ended.
pub fn is_none_open(past: &Past) -> bool
    ensures { IsTrue result ↔ NoneOpen past.now }
{
    past.open_len() == 0
}
