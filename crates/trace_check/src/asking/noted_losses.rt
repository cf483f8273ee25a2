//! The losses that a journal notes, so that the call that loses a disk finds the note of it by one lookup.

ghost use Rattle.std.specs.Prelude.{◌≡◌, ◌==◌, ◌&&◌, ◌||◌, ◌+◌, [], ℕ, List, IfOk, OnOk, reverse};
ghost use Rattle.std.specs.BTreeSet.{contains};
ghost use Rattle.std.specs.Option.{option_copied};
ghost use Rattle.array_journal.specs.declared.entry.Entry.{Entry};
ghost use Rattle.array_journal.specs.Entries.{entry_at, some_at};
ghost use Rattle.journal_index.specs.Keys.{pair_cmp};
ghost use Rattle.stripe_check.specs.Asked.{is_loss_in, notes_life};
ghost use Rattle.trace_check.specs.NotedLosses.{is_life, is_life_of, KeepsLives};

use array_journal::{At, Entry, Event};
use blocks_core::Memory;
use journal_index::Past;
use std::alloc::Global;
use std::collections::BTreeSet;
use std::marker::Model;

/// The lives whose loss is noted, each with its target.
#[derive(Debug, Drop)]
struct Lives {
    kept: BTreeSet<(u8, u32)>,
}

/// The entries of a journal, and which losses they note.
#[derive(Debug, Drop)]
pub struct NotedLosses<'a> {
    entries: &'a [Entry],
    lives: Lives,
}

impl<'a> Model for NotedLosses<'a> {
    ghost use Rattle.std.specs.Prelude.{List, reverse};
    ghost use Rattle.array_journal.specs.declared.entry.Entry.{Entry};
    ghost use Rattle.trace_check.specs.NotedLosses.{KeepsLives};

    ghost Value = { List Entry };

    ghost view = { λ n. reverse n.entries.now };

    ghost invariant = { λ n. KeepsLives (reverse n.entries.now) (reverse n.entries.now) n.lives };
}

fn life_lost(event: Option<&Event>) -> Option<u32>
    ensures { (life : ℕ) → is_life life result ≡ is_loss_in life (option_copied event.entry) }
{
    match event {
        Some(Event::Gone { life, .. }) => Some(*life),
        _ => None,
    }
}

/// The life of a slot's disk that the entry of a name loses.
fn life_noted(past: &Past, slot: u8, gone: At) -> Option<u32>
    ensures { (life : ℕ) → is_life life result ≡ ((gone.lock == slot + 1) && is_loss_in life (entry_at gone past.now)) }
{
    if u16::from(gone.lock) == u16::from(slot) + 1 {
        life_lost(past.entry_at(gone))
    } else {
        None
    }
}

/// A slot with a life of its disk, if there is one.
fn with_slot(slot: u8, life: Option<u32>) -> Option<(u8, u32)>
    ensures { (target other : ℕ) → is_life_of target other result ≡ ((slot == target) && is_life other life) }
{
    match life {
        Some(life) => Some((slot, life)),
        None => None,
    }
}

/// The target and the life whose loss an entry notes.
fn noted_by(past: &Past, entry: &Entry) -> Option<(u8, u32)>
    ensures { (target life : ℕ) → is_life_of target life result ≡ ((entry.now.lock == 0) && notes_life past.now target life entry.now.event) }
{
    if entry.lock != 0 {
        return None;
    }
    match &entry.event {
        Event::Note { slot, gone } => with_slot(*slot, life_noted(past, *slot, *gone)),
        _ => None,
    }
}

impl Lives {
    fn new(alloc: Global) -> Lives
        ensures { (whole : List Entry) → KeepsLives whole [] result }
    {
        Lives {
            kept: BTreeSet::new(alloc),
        }
    }

    /// One more of them, if there is one.
    fn add(&mut self, life: Option<(u8, u32)>) -> Result<(), Memory>
        ensures { OnOk result ((target other : ℕ) → contains pair_cmp self.new.kept (target, other) ≡ (is_life_of target other life || contains pair_cmp self.old.kept (target, other))) }
    {
        if let Some(life) = life {
            self.kept.insert(life)?;
        }
        Ok(())
    }

    fn has(&self, target: u8, life: u32) -> bool
        ensures { result ≡ contains pair_cmp self.now.kept (target, life) }
    {
        self.kept.contains(&(target, life))
    }
}

impl<'a> NotedLosses<'a> {
    /// What the entries of a journal note.
    pub fn new(alloc: Global, past: &Past<'a>) -> Result<NotedLosses<'a>, Memory>
        ensures { IfOk result (λ noted. noted ≡ past.now) }
    {
        let entries = past.entries();
        let mut lives = Lives::new(alloc);
        for entry in entries {
            lives.add(noted_by(past, entry))?;
        }
        Ok(NotedLosses { entries, lives })
    }

    /// Whether somewhere a loss of the target in this life is noted.
    pub fn is_noted(&self, target: u8, life: u32) -> bool
        ensures { result ≡ some_at 0 (notes_life self.now target life) self.now }
    {
        self.lives.has(target, life)
    }
}
