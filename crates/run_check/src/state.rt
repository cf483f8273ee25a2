//! A run so far, to which entry after entry is put.

ghost use Rattle.std.specs.Prelude.{◌≡◌, ◌↔◌, [], ◌∷◌, IsTrue, IfOk, reverse};
ghost use Rattle.array_journal.specs.May.{May};
ghost use Rattle.array_journal.specs.Run.{IsSetting};
ghost use Rattle.run_check.specs.RunStates.{IsRunState};

use crate::entry::may_follow;
use crate::targets::TargetStates;
use array_journal::{Entry, Setting};
use blocks_core::Memory;
use journal_index::{Index, Past};
use std::alloc::Global;

/// What is kept of the entries of a run so far. Whoever asks something else of each entry asks it over this
/// index too: to build one of its own would cost as much again as judging the run.
#[derive(Drop)]
pub struct RunState {
    states: TargetStates,
    pub index: Index,
}

impl RunState {
    /// What is kept before any entry. Takes memory for the media and the buffers of all targets.
    pub fn new(alloc: Global, setting: &Setting) -> Result<RunState, Memory>
        requires { IsSetting setting.now }
        ensures { IfOk result (λ state. IsRunState setting.now [] state) }
    {
        Ok(RunState {
            states: TargetStates::new(alloc, setting)?,
            index: Index::new(alloc),
        })
    }

    /// Whether an entry may follow the ones so far. One that may is taken in. Takes memory for what the entry
    /// adds; after want of memory the state is of no entries any more.
    pub fn follow(
        &mut self,
        alloc: Global,
        setting: &Setting,
        past: &[Entry],
        entry: &Entry,
    ) -> Result<bool, Memory>
        requires in_range { IsSetting setting.now }
        requires state { IsRunState setting.now (reverse past.now) self.old }
        ensures may { IfOk result (λ follows. IsTrue follows ↔ May setting.now (reverse past.now) entry.now) }
        ensures kept { IfOk result (λ follows. IsTrue follows → IsRunState setting.now (entry.now ∷ reverse past.now) self.new) }
    {
        let before = Past::new(past, &self.index);
        let follows = may_follow(alloc, setting, &before, &self.states, entry)?;
        if follows {
            self.states.apply(alloc, setting, entry)?;
            self.index.add(alloc, past, entry)?;
        }
        Ok(follows)
    }

    /// The index of the entries so far.
    pub fn into_index(self) -> Index
        ensures { result ≡ self.index }
    {
        self.index
    }
}
