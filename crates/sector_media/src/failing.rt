ghost use Rattle.std.specs.Prelude.{◌≡◌, ◌≤◌, ◌*◌, ◌↔◌, false, length, Some, OnOk, OnErr, IsErr};
ghost use Rattle.blocks_core.specs.Lists.{slice, put};
ghost use Rattle.blocks_core.specs.Xor.{zeros};
ghost use Rattle.outer_io.specs.Outside.{FailsNext, called, raised};
ghost use Rattle.sector_media.specs.Media.{AreAllRows, AreRows};
ghost use Rattle.std.proofs.lemmas.Bool.{false≢true};

use crate::medium::Medium;
use crate::memory::MemoryMedium;
use outer_io::{Failed, FailingCalls};
use std::marker::Model;

/// A medium in memory of which some calls fail. These change nothing. Calls of all kinds but `rows` are
/// counted together.
#[derive(Drop)]
pub struct FailingMedium {
    medium: MemoryMedium,
    calls: FailingCalls,
    failures: u64,
}

impl Model for FailingMedium {
    ghost use Rattle.sector_media.specs.Media.{FailingSectors};

    ghost Value = { FailingSectors };

    ghost view = { λ m. record { medium = m.medium; calls = m.calls; faults = m.failures } };
}

impl FailingMedium {
    /// The calls that fail are given by their numbers, from 1.
    pub fn new(medium: MemoryMedium, fails: Vec<u64>) -> FailingMedium
        ensures medium { result.medium ≡ medium }
        ensures calls { result.calls ≡ record { fails = fails.items; made = 0 } }
        ensures count { result.faults ≡ 0 }
    {
        FailingMedium {
            medium,
            calls: FailingCalls::new(fails),
            failures: 0,
        }
    }

    /// The bytes of all rows.
    pub fn as_slice(&self) -> &[u8]
        ensures bytes { result.now ≡ self.now.medium.bytes }
        ensures whole { AreAllRows self.now.medium }
    {
        self.medium.as_slice()
    }

    /// Counts a call, and fails where it is one of those named.
    fn call(&mut self) -> Result<(), Failed>
        ensures medium { self.new.medium ≡ self.old.medium }
        ensures counts { self.new.calls ≡ called self.old.calls }
        ensures never_falls { self.old.faults ≤ self.new.faults }
        ensures fails { IsErr result ↔ FailsNext self.old.calls }
        ensures failed { OnErr result (self.new.faults ≡ raised self.old.faults) }
        ensures not_counted { OnOk result (self.new.faults ≡ self.old.faults) }
    {
        if self.calls.next_fails() {
            // A count at its type's end stands still, and `HasRisen` takes that for risen.
            self.failures = self.failures.saturating_add(1);
            return Err(Failed);
        }
        Ok(())
    }
}

impl Medium for FailingMedium {
    const NEVER_FAILS: bool = false;

    ghost NEVER_FAILS = { false };

    ghost faults = { λ m. m.faults };

    ghost block = { λ m. m.medium.block };

    ghost row_count = { λ m. m.medium.rows };

    ghost contents = { λ m. Some m.medium.bytes };

    fn rows(&self) -> u32
        ensures count { result ≡ self.now.medium.rows }
        ensures whole { AreAllRows self.now.medium }
    {
        self.medium.rows()
    }

    fn read(&mut self, row: u32, into: &mut [u8]) -> Result<(), Failed>
        requires rows { AreRows self.old.medium.block self.old.medium.rows row (length into.old) }
        ensures counts { self.new.calls ≡ called self.old.calls }
        ensures never_falls { self.old.faults ≤ self.new.faults }
        ensures keeps { self.new.medium ≡ self.old.medium }

        // The calls that are named fail, and no others. They are counted, and change nothing.
        ensures fails { IsErr result ↔ FailsNext self.old.calls }
        ensures failed { OnErr result ((self.new.faults ≡ raised self.old.faults) × (into.new ≡ into.old)) }

        ensures not_counted { OnOk result (self.new.faults ≡ self.old.faults) }
        ensures gives { OnOk result (into.new ≡ slice self.old.medium.bytes (row * self.old.medium.block) (length into.old)) }
    {
        self.call()?;
        self.medium.read(row, into)
    }

    fn write(&mut self, row: u32, blocks: &[u8]) -> Result<(), Failed>
        requires rows { AreRows self.old.medium.block self.old.medium.rows row (length blocks.now) }
        ensures counts { self.new.calls ≡ called self.old.calls }
        ensures never_falls { self.old.faults ≤ self.new.faults }

        // The calls that are named fail, and no others. They are counted, and change nothing.
        ensures fails { IsErr result ↔ FailsNext self.old.calls }
        ensures failed { OnErr result ((self.new.faults ≡ raised self.old.faults) × (self.new.medium ≡ self.old.medium)) }

        ensures not_counted { OnOk result (self.new.faults ≡ self.old.faults) }
        ensures replaces { OnOk result (self.new.medium ≡ record self.old.medium { bytes = put self.old.medium.bytes (row * self.old.medium.block) blocks.now }) }
    {
        self.call()?;
        self.medium.write(row, blocks)
    }

    fn renew(&mut self) -> Result<(), Failed>
        ensures counts { self.new.calls ≡ called self.old.calls }
        ensures never_falls { self.old.faults ≤ self.new.faults }

        // The calls that are named fail, and no others. They are counted, and change nothing.
        ensures fails { IsErr result ↔ FailsNext self.old.calls }
        ensures failed { OnErr result ((self.new.faults ≡ raised self.old.faults) × (self.new.medium ≡ self.old.medium)) }

        ensures not_counted { OnOk result (self.new.faults ≡ self.old.faults) }
        ensures zeros { OnOk result (self.new.medium ≡ record self.old.medium { bytes = zeros (self.old.medium.rows * self.old.medium.block) }) }
    {
        self.call()?;
        self.medium.renew()
    }

    ghost never_counts = { λ no. absurd (false≢true no) };
}
