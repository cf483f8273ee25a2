//! What stands at a target of each owner.

ghost use Rattle.std.specs.Prelude.{◌≡◌, ◌==◌, ◌≤◌, ◌+◌, ℕ, length, OnOk, if◌then◌else◌};
ghost use Rattle.std.specs.List.{list_any};
ghost use Rattle.std.specs.HashMap.{spare};
ghost use Rattle.array_journal.specs.ActEvents.{actor};
ghost use Rattle.array_journal.specs.Entries.{name_of};
ghost use Rattle.xor_target.specs.Logs.{seats_of};
ghost use Rattle.xor_target.specs.Facts.{no_state, state_of, acted_after, owner_after, discarded_by};

use array_journal::{At, Entry, Event, What};
use blocks_core::Memory;
use std::alloc::Global;
use std::collections::HashMap;

/// What stands of one owner: whether it changed the medium, where it was shut, and the newest entry that
/// discarded what it held.
#[derive(Clone, Copy, Debug)]
pub struct OwnerState {
    pub acted: bool,
    pub shut: Option<At>,
    pub discarded: Option<At>,
}

/// The states of owners. Those that no entry speaks of have none.
#[derive(Debug, Drop)]
pub struct OwnerStates {
    pub kept: HashMap<u32, OwnerState>,
}

/// The state of the owner of an act or a shut, after it.
fn acted_after(event: &Event, at: At, state: OwnerState) -> OwnerState
    ensures { result ≡ acted_after at event.now state }
{
    match event {
        Event::Put { .. } | Event::Diff { .. } | Event::Fold { .. } => OwnerState {
            acted: true,
            ..state
        },
        Event::Shut { .. } => OwnerState {
            shut: Some(at),
            ..state
        },
        _ => state,
    }
}

impl OwnerStates {
    /// No owners. Takes no memory.
    pub fn new(alloc: Global) -> OwnerStates
        ensures { (c : ℕ) → state_of result c ≡ no_state }
    {
        OwnerStates {
            kept: HashMap::new(alloc),
        }
    }

    /// Makes seats for so many owners more.
    pub fn reserve(&mut self, owners: usize) -> Result<(), Memory>
        ensures ok { OnOk result (owners ≤ spare self.new.kept) }
        ensures more { spare self.old.kept ≤ spare self.new.kept }
        ensures same { (c : ℕ) → state_of self.new c ≡ state_of self.old c }
    {
        self.kept.reserve(owners)?;
        Ok(())
    }

    /// What stands of an owner.
    pub fn at(&self, owner: u32) -> OwnerState
        ensures { result ≡ state_of self.now owner }
    {
        match self.kept.get(&owner) {
            Some(state) => *state,
            None => OwnerState {
                acted: false,
                shut: None,
                discarded: None,
            },
        }
    }

    /// Puts the state of an owner in the place of the one before.
    fn put(&mut self, owner: u32, state: OwnerState)
        requires { 1 ≤ spare self.old.kept }
        ensures state { (c : ℕ) → state_of self.new c ≡ (if owner == c then state else state_of self.old c) }
        ensures seats { spare self.old.kept ≤ spare self.new.kept + 1 }
    {
        // There is a seat, so this can't want memory.
        let put: Result<_, _> = self.kept.insert(owner, state);
        put.unwrap();
    }

    /// What these owners held is discarded by an entry.
    fn discard(&mut self, owners: &[u32], at: At)
        requires { length owners.now ≤ spare self.old.kept }
        ensures states { (c : ℕ) → state_of self.new c ≡ discarded_by at (list_any (λ x. x == c) owners.now) (state_of self.old c) }
        ensures seats { spare self.old.kept ≤ spare self.new.kept + length owners.now }
    {
        for owner in owners {
            let state = self.at(*owner);
            self.put(
                *owner,
                OwnerState {
                    discarded: Some(at),
                    ..state
                },
            );
        }
    }

    /// One more entry, without taking memory.
    pub fn add(&mut self, entry: &Entry)
        requires { seats_of entry.now.event ≤ spare self.old.kept }
        ensures states { (c : ℕ) → state_of self.new c ≡ owner_after (name_of entry.now) c entry.now.event (state_of self.old c) }
        ensures seats { spare self.old.kept ≤ spare self.new.kept + seats_of entry.now.event }
    {
        let at = At {
            stamp: entry.stamp,
            lock: entry.lock,
        };
        match &entry.event {
            Event::Gone { commands, .. }
            | Event::Wiped {
                what: What::Buffers,
                commands,
                ..
            } => self.discard(commands.as_slice(), at),
            event => {
                if let Some(owner) = event.actor() {
                    let state = acted_after(event, at, self.at(owner));
                    self.put(owner, state);
                }
            }
        }
    }
}
