ghost use Rattle.std.specs.Prelude.{◌≡◌, IfOk};
ghost use Rattle.array_journal.specs.Listed.{makes_parity};

use blocks_core::{Bytes, Memory};
use std::alloc::Global;

/// What a command does.
#[derive(Clone, Copy, Debug, PartialEq, Eq)]
pub enum Kind {
    /// Reads blocks from their own target.
    Read,
    /// Writes blocks and folds the delta into parity.
    Update,
    /// Writes blocks of a stripe whose parity unit is missing.
    DataOnly,
    /// Makes blocks of a missing unit from the other units of the stripe.
    DegradedRead,
    /// Writes blocks of a missing unit into the stripe's parity.
    DegradedWrite,
    /// Makes a missing unit anew from the other units of the stripe.
    Rebuild,
    /// Makes the parity unit anew from the data units.
    Resync,
}

/// The task of a command. `target` is the target of the blocks, or the slot of a rebuild, or the
/// parity target of a resync; `count` rows from `row` are meant; `bytes` are the blocks of a write,
/// and none for other kinds.
#[derive(Debug, Drop)]
pub struct Task {
    /// The call of the host, from 1.
    pub call: u32,
    /// The piece of the call, from 0.
    pub piece: u32,
    pub kind: Kind,
    pub stripe: u32,
    pub target: u8,
    pub parity: u8,
    pub row: u32,
    pub count: u32,
    pub bytes: Bytes,
}

impl Task {
    /// Whether its command makes the parity of its stripe anew, so that a dirty stripe is in order again.
    pub fn makes_parity(&self) -> bool
        ensures { result ≡ makes_parity self.now.kind self.now }
    {
        match self.kind {
            Kind::Resync => true,
            Kind::Rebuild => self.target == self.parity,
            _ => false,
        }
    }

    /// A copy with memory of its own.
    pub fn copy(&self, alloc: Global) -> Result<Task, Memory>
        ensures { IfOk result (λ copy. copy ≡ self.now) }
    {
        Ok(Task {
            call: self.call,
            piece: self.piece,
            kind: self.kind,
            stripe: self.stripe,
            target: self.target,
            parity: self.parity,
            row: self.row,
            count: self.count,
            bytes: self.bytes.copy(alloc)?,
        })
    }
}
