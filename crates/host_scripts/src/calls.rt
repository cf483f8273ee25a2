ghost use Rattle.std.specs.Prelude.{◌≡◌, [], ◌∷◌, ◌++◌, length, OnOk, OnErr, slice_get};
ghost use Rattle.std.specs.Option.{option_copied};

use crate::script::Call;
use blocks_core::Memory;
use std::alloc::Global;
use std::marker::Model;

/// The calls of a script, in the order of their lines.
#[derive(Debug, Drop)]
pub struct Calls {
    kept: Vec<Call>,
}

impl Model for Calls {
    ghost use Rattle.std.specs.Prelude.{List};
    ghost use Rattle.host_scripts.specs.declared.script.Call.{Call};

    ghost Value = { List Call };

    ghost view = { λ c. c.kept.items };
}

impl Calls {
    /// No calls. Takes no memory.
    pub fn new(alloc: Global) -> Calls
        ensures { result ≡ [] }
    {
        Calls {
            kept: Vec::new(alloc),
        }
    }

    /// Puts one call at the end.
    pub fn push(&mut self, call: Call) -> Result<(), Memory>
        ensures ok { OnOk result (self.new ≡ self.old ++ call ∷ []) }
        ensures err { OnErr result (self.new ≡ self.old) }
    {
        self.kept.push(call)?;
        Ok(())
    }

    pub fn len(&self) -> usize
        ensures { result ≡ length self.now }
    {
        self.kept.len()
    }

    pub fn get(&self, place: usize) -> Option<&Call>
        ensures { option_copied result ≡ slice_get self.now place }
    {
        self.kept.get(place)
    }

    pub fn as_slice(&self) -> &[Call]
        ensures { result.now ≡ self.now }
    {
        self.kept.as_slice()
    }
}
