//! Which units of the targets are absent.

ghost use Rattle.std.specs.Prelude.{◌≡◌, ◌+◌, ◌≤◌, ◌<◌, nat_lt, ℕ, [], ◌∷◌, List, length, get_or, slice_set, OnOk, IfOk, reverse};
ghost use Rattle.std.specs.List.{list_any};
ghost use Rattle.stripe_layout.specs.Layout.{IsArray};
ghost use Rattle.array_journal.specs.declared.entry.Entry.{Entry};
ghost use Rattle.array_journal.specs.declared.setting.Setting.{Setting};
ghost use Rattle.stripe_check.specs.Folds.{AreCommands, briefly_rebuilt};
ghost use Rattle.stripe_check.specs.AbsentUnits.{AreLosses, is_lost};

use crate::command_summary::CommandSummary;
use crate::commands::command_at;
use crate::places::Places;
use array_journal::{Entry, Event, Journal, Kind};
use blocks_core::Memory;
use std::alloc::Global;
use stripe_layout::Geometry;

/// For each target, where in the journal its disk was lost last, and where each of its units was made
/// anew last. Places are counted from 1, and 0 is nowhere.
#[derive(Drop)]
pub struct Losses {
    pub lost: Vec<usize>,
    pub made: Vec<Places>,
}

/// Before any entry nothing is lost.
fn first_losses(alloc: Global, geometry: &Geometry) -> Result<Losses, Memory>
    requires { IsArray geometry.now }
    ensures { IfOk result (λ l. (s : Setting) (whole : List Entry) → s.geometry ≡ geometry.now → AreLosses s whole [] l.lost.items l.made.items) }
{
    let mut lost = Vec::new(alloc);
    let mut made = Vec::new(alloc);
    for _ in 0..geometry.targets {
        lost.push(0)?;
        made.push(Places::nowhere(alloc, geometry.stripes() as usize)?)?;
    }
    Ok(Losses { lost, made })
}

/// The stripe whose unit at a target a command rebuilt, where it did and is closed as done.
fn has_rebuilt(command: &CommandSummary, target: usize) -> Option<u32>
    ensures { result ≡ briefly_rebuilt command.now target }
{
    match command.brief {
        Some(brief)
            if command.done
                && matches!(brief.kind, Kind::Rebuild)
                && usize::from(brief.target) == target => { Some(brief.stripe) }
        _ => None,
    }
}

/// What the entry at a place tells of losses, over what all entries tell of commands.
fn keep_loss(losses: &mut Losses, commands: &[CommandSummary], entry: &Entry, place: usize)
    ensures { (s : Setting) (whole past : List Entry) → AreCommands whole commands.now → place ≡ length past + 1 → AreLosses s whole past losses.old.lost.items losses.old.made.items → AreLosses s whole (entry.now ∷ past) losses.new.lost.items losses.new.made.items }
{
    let lock = usize::from(entry.lock);
    // A journal that is no run may name any lock.
    if lock == 0 || lock > losses.lost.len() || lock > losses.made.len() {
        return;
    }
    match &entry.event {
        Event::Gone { .. } => losses.lost[lock - 1] = place,
        Event::Put { command, .. } => {
            if let Some(stripe) = has_rebuilt(&command_at(commands, *command), lock - 1) {
                losses.made[lock - 1].set(stripe as usize, place);
            }
        }
        _ => {}
    }
}

/// The losses after all entries, over what these tell of commands. A second walk, since whether the command
/// of a put is closed as done is known only at the end of the journal.
pub fn losses_of(
    alloc: Global,
    geometry: &Geometry,
    commands: &[CommandSummary],
    journal: &Journal,
) -> Result<Losses, Memory>
    requires { IsArray geometry.now }
    ensures { IfOk result (λ l. (s : Setting) → s.geometry ≡ geometry.now → AreCommands (reverse journal.now) commands.now → AreLosses s (reverse journal.now) (reverse journal.now) l.lost.items l.made.items) }
{
    let mut losses = first_losses(alloc, geometry)?;
    for (place, entry) in journal.as_slice().iter().enumerate() {
        keep_loss(&mut losses, commands, entry, place + 1);
    }
    Ok(losses)
}

impl Losses {
    /// Whether a target's unit of a stripe is absent: its disk was lost after the unit was made.
    pub fn is_absent(&self, target: usize, stripe: usize) -> bool
        ensures { result ≡ is_lost self.now.lost.items self.now.made.items target stripe }
    {
        let lost = self.lost.get(target).copied().unwrap_or(0);
        let made = match self.made.get(target) {
            Some(units) => units.at(stripe),
            None => 0,
        };
        made < lost
    }
}
