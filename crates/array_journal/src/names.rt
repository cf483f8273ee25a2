ghost use Rattle.std.specs.Prelude.{◌≡◌, [], ◌∷◌, ◌++◌, length, OnOk, OnErr, IfOk, slice_get};
ghost use Rattle.std.specs.Option.{option_copied};

use crate::at::At;
use blocks_core::Memory;
use std::alloc::Global;
use std::marker::Model;

/// Names of entries.
#[derive(Debug, Drop)]
pub struct Names {
    kept: Vec<At>,
}

impl Model for Names {
    ghost use Rattle.std.specs.Prelude.{List};
    ghost use Rattle.array_journal.specs.declared.at.At.{At};

    ghost Value = { List At };

    ghost view = { λ n. n.kept.items };
}

impl Names {
    /// No names. Takes no memory.
    pub fn new(alloc: Global) -> Names
        ensures { result ≡ [] }
    {
        Names {
            kept: Vec::new(alloc),
        }
    }

    /// Puts one name at the end.
    pub fn push(&mut self, name: At) -> Result<(), Memory>
        ensures ok { OnOk result (self.new ≡ self.old ++ name ∷ []) }
        ensures err { OnErr result (self.new ≡ self.old) }
    {
        self.kept.push(name)?;
        Ok(())
    }

    pub fn len(&self) -> usize
        ensures { result ≡ length self.now }
    {
        self.kept.len()
    }

    pub fn get(&self, place: usize) -> Option<&At>
        ensures { option_copied result ≡ slice_get self.now place }
    {
        self.kept.get(place)
    }

    pub fn as_slice(&self) -> &[At]
        ensures { result.now ≡ self.now }
    {
        self.kept.as_slice()
    }

    /// A copy with memory of its own.
    pub fn copy(&self, alloc: Global) -> Result<Names, Memory>
        ensures { IfOk result (λ copy. copy ≡ self.now) }
    {
        Ok(Names {
            kept: Vec::from_slice(alloc, self.kept.as_slice())?,
        })
    }
}
