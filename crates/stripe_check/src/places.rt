//! Places in a journal, one for each stripe.

ghost use Rattle.std.specs.Prelude.{◌≡◌, ◌<◌, get_or, slice_set, length, replicate, IfOk};

use blocks_core::Memory;
use std::alloc::Global;
use std::marker::Model;

/// For each stripe a place in a journal, counted from 1. 0 is nowhere.
#[derive(Drop)]
pub struct Places {
    kept: Vec<usize>,
}

impl Model for Places {
    ghost use Rattle.std.specs.Prelude.{List, ℕ};

    ghost Value = { List ℕ };

    ghost view = { λ p. p.kept.items };
}

impl Places {
    /// No place for any of so many stripes.
    pub fn nowhere(alloc: Global, stripes: usize) -> Result<Places, Memory>
        ensures { IfOk result (λ p. p ≡ replicate stripes 0) }
    {
        Ok(Places {
            kept: vec![in alloc; 0usize; stripes]?,
        })
    }

    /// The place of a stripe.
    pub fn at(&self, stripe: usize) -> usize
        ensures { result ≡ get_or self.now stripe 0 }
    {
        self.kept.get(stripe).copied().unwrap_or(0)
    }

    /// Gives a stripe a place, if it is one of the array's.
    pub fn set(&mut self, stripe: usize, place: usize)
        ensures { self.new ≡ slice_set self.old stripe place }
    {
        if stripe < self.kept.len() {
            self.kept[stripe] = place;
        }
    }
}
