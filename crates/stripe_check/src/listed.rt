//! The stripes that are listed.

ghost use Rattle.std.specs.Prelude.{◌∷◌, List, OnOk};
ghost use Rattle.array_journal.specs.declared.entry.Entry.{Entry};
ghost use Rattle.stripe_check.specs.Folds.{AreCommands, AreListed};

use crate::command_summary::CommandSummary;
use crate::commands::command_at;
use array_journal::{Entry, Event};
use blocks_core::Memory;
use dirty_list::DirtyList;

/// What an entry does to the list.
pub fn keep_listed(
    listed: &mut DirtyList,
    commands: &[CommandSummary],
    entry: &Entry,
) -> Result<(), Memory>
    ensures { OnOk result ((past : List Entry) → AreCommands past commands.now → AreListed past listed.old → AreListed (entry.now ∷ past) listed.new) }
{
    if entry.lock != 0 {
        return Ok(());
    }
    match &entry.event {
        Event::Spoil { command, .. } => {
            if let Some(brief) = command_at(commands, *command).brief {
                listed.list(brief.stripe, *command)?;
            }
        }
        Event::Close { command, done, .. } => {
            if let Some(brief) = command_at(commands, *command).brief {
                if *done && brief.renews {
                    listed.clear(brief.stripe);
                }
            }
        }
        _ => {}
    }
    Ok(())
}
