//! How many pieces of each call were closed as done, and how many were refused and left as they are.

ghost use Rattle.std.specs.Prelude.{◌≡◌, ◌==◌, ◌+◌, ◌<◌, ℕ, ◌∷◌, List, length, get_or, OnOk, IfOk, if◌then◌else◌};
ghost use Rattle.array_journal.specs.declared.entry.Entry.{Entry};
ghost use Rattle.stripe_check.specs.Folds.{AreCommands, AreTallies};
ghost use Rattle.stripe_check.specs.Tallies.{is_left, untold, more_done, more_left};

use crate::call_places::place_of_call;
use crate::command_summary::{CommandSummary, Tally};
use crate::commands::command_at;
use array_journal::{Entry, Event, Why};
use blocks_core::Memory;

/// A count that is one higher. One beyond its type would be want of memory.
fn one_more(count: u64) -> Result<u64, Memory>
    ensures { IfOk result (λ more. more ≡ count + 1) }
{
    count.checked_add(1).ok_or(Memory)
}

/// One more piece of a call is closed as done.
fn add_done(tallies: &mut [Tally], call: u32) -> Result<(), Memory>
    ensures { OnOk result ((n : ℕ) → n < length tallies.old → get_or tallies.new n untold ≡ (if call == n + 1 then more_done (get_or tallies.old n untold) else get_or tallies.old n untold)) }
{
    if let Some(place) = place_of_call(call, tallies.len()) {
        tallies[place].done = one_more(tallies[place].done)?;
    }
    Ok(())
}

/// One more piece of a call is left as it is.
fn add_left(tallies: &mut [Tally], call: u32) -> Result<(), Memory>
    ensures { OnOk result ((n : ℕ) → n < length tallies.old → get_or tallies.new n untold ≡ (if call == n + 1 then more_left (get_or tallies.old n untold) else get_or tallies.old n untold)) }
{
    if let Some(place) = place_of_call(call, tallies.len()) {
        tallies[place].left = one_more(tallies[place].left)?;
    }
    Ok(())
}

/// Whether a stripe that is refused for this reason is left as it is, and not in order already.
fn is_left(why: &Why) -> bool
    ensures { result ≡ is_left why.now }
{
    matches!(why, Why::Unfitted | Why::Listed | Why::Second | Why::Absent)
}

/// What an entry adds to the tallies of calls.
pub fn keep_tally(
    tallies: &mut [Tally],
    commands: &[CommandSummary],
    entry: &Entry,
) -> Result<(), Memory>
    ensures { OnOk result ((past : List Entry) → AreCommands past commands.now → AreTallies past tallies.old → AreTallies (entry.now ∷ past) tallies.new) }
{
    match &entry.event {
        Event::Close { command, done, .. } => {
            if *done {
                match command_at(commands, *command).brief {
                    Some(brief) => add_done(tallies, brief.call),
                    None => Ok(()),
                }
            } else {
                Ok(())
            }
        }
        Event::Refuse { call, why, .. } => {
            if is_left(why) {
                add_left(tallies, *call)
            } else {
                Ok(())
            }
        }
        _ => Ok(()),
    }
}
