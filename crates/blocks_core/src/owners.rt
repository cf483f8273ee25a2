ghost use Rattle.std.specs.Prelude.{◌≡◌, [], ◌∷◌, ◌++◌, length, OnOk, OnErr, IfOk, slice_get};
ghost use Rattle.std.specs.Option.{option_copied};

use crate::memory::Memory;
use std::alloc::Global;
use std::marker::Model;

/// Numbers of commands that own something, as the commands whose held blocks a reset discards.
#[derive(Debug, Drop)]
pub struct Owners {
    kept: Vec<u32>,
}

impl Model for Owners {
    ghost use Rattle.std.specs.Prelude.{List, ℕ};

    ghost Value = { List ℕ };

    ghost view = { λ o. o.kept.items };
}

impl Owners {
    /// No numbers. Takes no memory.
    pub fn new(alloc: Global) -> Owners
        ensures { result ≡ [] }
    {
        Owners {
            kept: Vec::new(alloc),
        }
    }

    /// Puts one number at the end.
    pub fn push(&mut self, owner: u32) -> Result<(), Memory>
        ensures ok { OnOk result (self.new ≡ self.old ++ owner ∷ []) }
        ensures err { OnErr result (self.new ≡ self.old) }
    {
        self.kept.push(owner)?;
        Ok(())
    }

    pub fn len(&self) -> usize
        ensures { result ≡ length self.now }
    {
        self.kept.len()
    }

    pub fn get(&self, place: usize) -> Option<&u32>
        ensures { option_copied result ≡ slice_get self.now place }
    {
        self.kept.get(place)
    }

    pub fn as_slice(&self) -> &[u32]
        ensures { result.now ≡ self.now }
    {
        self.kept.as_slice()
    }

    /// A copy with memory of its own.
    pub fn copy(&self, alloc: Global) -> Result<Owners, Memory>
        ensures { IfOk result (λ copy. copy ≡ self.now) }
    {
        Ok(Owners {
            kept: Vec::from_slice(alloc, self.kept.as_slice())?,
        })
    }
}
