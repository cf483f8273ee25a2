//! What a journal tells of the calls, commands and stripes.

ghost use Rattle.std.specs.Prelude.{◌≡◌, ℕ, [], ◌∷◌, List, length, reverse, OnOk, IfOk};
ghost use Rattle.array_journal.specs.declared.entry.Entry.{Entry};
ghost use Rattle.stripe_check.specs.CallOutcomes.{Tells};

use crate::answers::{keep_failure, keep_read};
use crate::command_summary::{CommandSummary, Tally};
use crate::commands::keep_command;
use crate::failure::Failure;
use crate::listed::keep_listed;
use crate::tallies::keep_tally;
use array_journal::{Entry, Journal};
use blocks_core::{Bytes, Memory};
use dirty_list::DirtyList;
use std::alloc::Global;

/// What the entries so far tell: of each command; to each call, why it failed, and the tally of its
/// pieces; and which stripes are listed, with their commands.
#[derive(Drop)]
pub struct Story {
    pub commands: Vec<CommandSummary>,
    pub reads: Vec<Bytes>,
    pub failures: Vec<Option<Failure>>,
    pub tallies: Vec<Tally>,
    pub listed: DirtyList,
}

/// Nothing is told yet, of so many calls.
fn first_story(alloc: Global, calls: usize) -> Result<Story, Memory>
    ensures { IfOk result (λ story. Tells calls [] story.commands.items story.reads.items story.failures.items story.tallies.items story.listed) }
{
    let mut reads = Vec::new(alloc);
    for _ in 0..calls {
        reads.push(Bytes::new(alloc))?;
    }
    Ok(Story {
        commands: Vec::new(alloc),
        reads,
        failures: vec![in alloc; None; calls]?,
        tallies: vec![in alloc; Tally { done: 0, left: 0 }; calls]?,
        listed: DirtyList::new(alloc),
    })
}

/// What one more entry tells.
fn tell(story: &mut Story, entry: &Entry) -> Result<(), Memory>
    ensures { OnOk result ((calls : ℕ) (past : List Entry) → Tells calls past story.old.commands.items story.old.reads.items story.old.failures.items story.old.tallies.items story.old.listed
        → Tells calls (entry.now ∷ past) story.new.commands.items story.new.reads.items story.new.failures.items story.new.tallies.items story.new.listed) }
{
    keep_read(&mut story.reads, &story.commands, entry)?;
    keep_failure(&mut story.failures, &story.commands, entry);
    keep_tally(&mut story.tallies, &story.commands, entry)?;
    keep_listed(&mut story.listed, &story.commands, entry)?;
    keep_command(&mut story.commands, entry)
}

/// What a journal tells of so many calls.
pub fn story_of(alloc: Global, calls: usize, journal: &Journal) -> Result<Story, Memory>
    ensures { IfOk result (λ story. Tells calls (reverse journal.now) story.commands.items story.reads.items story.failures.items story.tallies.items story.listed) }
{
    let mut story = first_story(alloc, calls)?;
    for entry in journal.as_slice() {
        tell(&mut story, entry)?;
    }
    Ok(story)
}
