ghost use Rattle.std.specs.Prelude.{◌≡◌, [], ◌∷◌, ◌++◌, length, OnOk, OnErr, slice_get};
ghost use Rattle.std.specs.Option.{option_copied};

use crate::bench::BenchLine;
use blocks_core::Memory;
use std::alloc::Global;
use std::marker::Model;

/// The lines of a bench behind its header, in their order.
#[derive(Debug, Drop)]
pub struct BenchLines {
    kept: Vec<BenchLine>,
}

impl Model for BenchLines {
    ghost use Rattle.std.specs.Prelude.{List};
    ghost use Rattle.host_scripts.specs.declared.bench.BenchLine.{BenchLine};

    ghost Value = { List BenchLine };

    ghost view = { λ l. l.kept.items };
}

impl BenchLines {
    /// No lines. Takes no memory.
    pub fn new(alloc: Global) -> BenchLines
        ensures { result ≡ [] }
    {
        BenchLines {
            kept: Vec::new(alloc),
        }
    }

    /// Puts one line at the end.
    pub fn push(&mut self, line: BenchLine) -> Result<(), Memory>
        ensures ok { OnOk result (self.new ≡ self.old ++ line ∷ []) }
        ensures err { OnErr result (self.new ≡ self.old) }
    {
        self.kept.push(line)?;
        Ok(())
    }

    pub fn len(&self) -> usize
        ensures { result ≡ length self.now }
    {
        self.kept.len()
    }

    pub fn get(&self, place: usize) -> Option<&BenchLine>
        ensures { option_copied result ≡ slice_get self.now place }
    {
        self.kept.get(place)
    }

    pub fn as_slice(&self) -> &[BenchLine]
        ensures { result.now ≡ self.now }
    {
        self.kept.as_slice()
    }
}
