ghost use Rattle.std.specs.Prelude.{◌≡◌, IfOk};

use crate::event::Event;
use blocks_core::Memory;
use std::alloc::Global;

/// One event with its name: the stamp and the lock under which it was appended.
#[derive(Debug, Drop)]
pub struct Entry {
    pub stamp: u64,
    pub lock: u8,
    pub event: Event,
}

impl Entry {
    /// A copy with memory of its own.
    pub fn copy(&self, alloc: Global) -> Result<Entry, Memory>
        ensures { IfOk result (λ copy. copy ≡ self.now) }
    {
        Ok(Entry {
            stamp: self.stamp,
            lock: self.lock,
            event: self.event.copy(alloc)?,
        })
    }
}
