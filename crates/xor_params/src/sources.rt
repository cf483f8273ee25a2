ghost use Rattle.std.specs.Prelude.{◌≡◌, [], ◌∷◌, ◌++◌, length, OnOk, OnErr, IfOk, slice_get};
ghost use Rattle.std.specs.Option.{option_copied};

use blocks_core::Memory;
use std::alloc::Global;
use std::marker::Model;

/// A source of a REBUILD or REGENERATE: a target's number, and the logical block address at which its
/// blocks begin.
#[derive(Clone, Copy, Debug, PartialEq, Eq)]
pub struct Descriptor {
    pub target: u8,
    pub lba: u32,
}

/// The sources of a parameter list, in the order in which they stand there.
#[derive(Debug, Drop)]
pub struct Descriptors {
    kept: Vec<Descriptor>,
}

impl Model for Descriptors {
    ghost use Rattle.std.specs.Prelude.{List};
    ghost use Rattle.xor_params.specs.declared.sources.Descriptor.{Descriptor};

    ghost Value = { List Descriptor };

    ghost view = { λ d. d.kept.items };
}

impl Descriptors {
    /// No sources. Takes no memory.
    pub fn new(alloc: Global) -> Descriptors
        ensures { result ≡ [] }
    {
        Descriptors {
            kept: Vec::new(alloc),
        }
    }

    /// Puts one source at the end.
    pub fn push(&mut self, source: Descriptor) -> Result<(), Memory>
        ensures ok { OnOk result (self.new ≡ self.old ++ source ∷ []) }
        ensures err { OnErr result (self.new ≡ self.old) }
    {
        self.kept.push(source)?;
        Ok(())
    }

    pub fn len(&self) -> usize
        ensures { result ≡ length self.now }
    {
        self.kept.len()
    }

    pub fn get(&self, place: usize) -> Option<&Descriptor>
        ensures { option_copied result ≡ slice_get self.now place }
    {
        self.kept.get(place)
    }

    pub fn as_slice(&self) -> &[Descriptor]
        ensures { result.now ≡ self.now }
    {
        self.kept.as_slice()
    }
}
