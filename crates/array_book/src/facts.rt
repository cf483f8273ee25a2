//! The facts on which a piece is decided, from the state.

ghost use Rattle.std.specs.Prelude.{◌≡◌, reverse};
ghost use Rattle.array_journal.specs.Decision.{missing_count};
ghost use Rattle.array_journal.specs.Run.{IsSetting};
ghost use Rattle.array_book.specs.BookStates.{KeepsBook};
ghost use Rattle.array_book.specs.Decisions.{facts_of};

use crate::decision::Facts;
use crate::state::BookState;
use array_journal::{Entry, Setting};

impl BookState {
    /// How many units of a stripe are missing.
    pub fn missing_count(&self, setting: &Setting, entries: &[Entry], stripe: u32) -> usize
        requires { KeepsBook (reverse entries.now) self.now }
        ensures { result ≡ missing_count setting.now stripe (reverse entries.now) }
    {
        let mut count = 0;
        for target in 0..setting.geometry.targets {
            if self.is_missing(entries, usize::from(target), stripe) {
                count += 1;
            }
        }
        count
    }

    /// The facts about a target of a stripe.
    pub fn facts(&self, setting: &Setting, entries: &[Entry], stripe: u32, target: usize) -> Facts
        requires setting { IsSetting setting.now }
        requires state { KeepsBook (reverse entries.now) self.now }
        ensures { result ≡ facts_of setting.now stripe target (reverse entries.now) }
    {
        let parity = usize::from(setting.geometry.parity(stripe));
        let missing = self.is_missing(entries, target, stripe);
        let missing_count = self.missing_count(setting, entries, stripe);
        let parity_missing = self.is_missing(entries, parity, stripe);
        let listed = self.is_listed(stripe);
        let unfitted = self.is_unfitted(target);
        Facts {
            missing,
            listed,
            missing_count,
            parity_missing,
            unfitted,
            at_parity: target == parity,
        }
    }
}
