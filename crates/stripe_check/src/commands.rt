//! The commands of a journal, by their numbers.

ghost use Rattle.std.specs.Prelude.{◌≡◌, ◌+◌, ◌≤◌, ◌<◌, ℕ, ◌∷◌, List, length, get_or, OnOk, IfOk, reverse};
ghost use Rattle.array_journal.specs.declared.entry.Entry.{Entry};
ghost use Rattle.stripe_check.specs.Folds.{brief_of, unknown, opened_at, closed_at, AreCommands};

use crate::command_summary::{Brief, CommandSummary};
use array_journal::{Entry, Event, Task};
use blocks_core::Memory;

/// A command of which nothing is known.
const UNKNOWN: CommandSummary = CommandSummary {
    brief: None,
    done: false,
};

fn brief_of(task: &Task) -> Brief
    ensures { result ≡ brief_of task.now }
{
    Brief {
        call: task.call,
        piece: task.piece,
        kind: task.kind,
        stripe: task.stripe,
        target: task.target,
        renews: task.makes_parity(),
    }
}

/// What is known of a command: nothing of one that no entry tells of.
pub fn command_at(commands: &[CommandSummary], number: u32) -> CommandSummary
    ensures { result ≡ get_or commands.now number unknown }
{
    commands.get(number as usize).copied().unwrap_or(UNKNOWN)
}

/// Makes room for a command, of which nothing is known yet. In a run numbers go up by one, and this adds
/// one place. A journal that is no run may name any number: the table is then as long as that, or memory
/// runs out.
fn reach(commands: &mut Vec<CommandSummary>, number: usize) -> Result<(), Memory>
    requires { number < 4294967296 }
    ensures same { OnOk result ((c : ℕ) → get_or commands.new.items c unknown ≡ get_or commands.old.items c unknown) }
    ensures room { OnOk result (number < length commands.new.items) }
{
    for _ in commands.len()..number + 1 {
        commands.push(UNKNOWN)?;
    }
    Ok(())
}

fn open(commands: &mut Vec<CommandSummary>, number: u32, brief: Brief) -> Result<(), Memory>
    ensures { OnOk result ((c : ℕ) → get_or commands.new.items c unknown ≡ opened_at number brief c (get_or commands.old.items c unknown)) }
{
    let place = number as usize;
    reach(commands, place)?;
    commands[place].brief = Some(brief);
    Ok(())
}

fn close(commands: &mut Vec<CommandSummary>, number: u32) -> Result<(), Memory>
    ensures { OnOk result ((c : ℕ) → get_or commands.new.items c unknown ≡ closed_at number c (get_or commands.old.items c unknown)) }
{
    let place = number as usize;
    reach(commands, place)?;
    commands[place].done = true;
    Ok(())
}

/// What an entry tells of commands.
pub fn keep_command(commands: &mut Vec<CommandSummary>, entry: &Entry) -> Result<(), Memory>
    ensures { OnOk result ((past : List Entry) → AreCommands past commands.old.items → AreCommands (entry.now ∷ past) commands.new.items) }
{
    if entry.lock != 0 {
        return Ok(());
    }
    match &entry.event {
        Event::Open { command, task } => open(commands, *command, brief_of(task)),
        Event::Close { command, done, .. } => {
            if *done {
                close(commands, *command)
            } else {
                Ok(())
            }
        }
        _ => Ok(()),
    }
}
