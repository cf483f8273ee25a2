ghost use Rattle.std.specs.Prelude.{◌≡◌, ◌≤◌, ◌<◌, ◌↔◌, ◌⊎◌, [], length, Some, IfOk, OnOk, OnErr, IsErr, IsTrue};
ghost use Rattle.outer_io.specs.Outside.{Gives, Puts, MeetsFullRoom, FailsNext, called, raised, failed};

use crate::failing_calls::FailingCalls;
use crate::memory::{MemorySink, MemorySource};
use crate::traits::{Failed, Sink, Source};
use blocks_core::Memory;
use std::alloc::Global;
use std::marker::Model;

/// A source over bytes in memory of which some calls fail. These take nothing.
#[derive(Drop)]
pub struct FailingSource {
    source: MemorySource,
    calls: FailingCalls,
    failures: u64,
}

impl Model for FailingSource {
    ghost use Rattle.outer_io.specs.Outside.{FailingBytes};

    ghost Value = { FailingBytes };

    ghost view = { λ s. record { unread = s.source; calls = s.calls; faults = s.failures } };
}

impl FailingSource {
    /// The calls that fail are given by their numbers, from 1.
    pub fn new(bytes: Vec<u8>, fails: Vec<u64>) -> FailingSource
        ensures bytes { result.unread ≡ bytes.items }
        ensures calls { result.calls ≡ record { fails = fails.items; made = 0 } }
        ensures count { result.faults ≡ 0 }
    {
        FailingSource {
            source: MemorySource::new(bytes),
            calls: FailingCalls::new(fails),
            failures: 0,
        }
    }
}

impl Source for FailingSource {
    ghost faults = { λ s. s.faults };

    ghost left = { λ s. Some s.unread };

    fn read(&mut self, into: &mut [u8]) -> Result<usize, Failed>
        ensures counts { self.new.calls ≡ called self.old.calls }
        ensures never_falls { self.old.faults ≤ self.new.faults }

        // The calls that are named fail, and no others. They are counted, and take nothing.
        ensures fails { IsErr result ↔ FailsNext self.old.calls }
        ensures failed { OnErr result ((self.new.faults ≡ raised self.old.faults) × (self.new.unread ≡ self.old.unread) × (into.new ≡ into.old)) }

        // All others do what those of a source in memory do.
        ensures not_counted { OnOk result (self.new.faults ≡ self.old.faults) }
        ensures gives { IfOk result (λ count. Gives count self.old.unread self.new.unread into.old into.new) }
    {
        if self.calls.next_fails() {
            // A count at its type's end stands still, and `HasRisen` takes that for risen.
            self.failures = self.failures.saturating_add(1);
            return Err(Failed);
        }
        self.source.read(into)
    }
}

/// A sink in memory of which some calls fail, and those that meet a full room. These take nothing.
#[derive(Drop)]
pub struct FailingSink {
    sink: MemorySink,
    calls: FailingCalls,
}

impl Model for FailingSink {
    ghost use Rattle.outer_io.specs.Outside.{FailingFilling};

    ghost Value = { FailingFilling };

    ghost view = { λ s. record { sink = s.sink; calls = s.calls } };
}

impl FailingSink {
    /// The calls that fail are given by their numbers, from 1.
    pub fn new(alloc: Global, room: usize, fails: Vec<u64>) -> Result<FailingSink, Memory>
        ensures sink { IfOk result (λ made. made.sink ≡ record { bytes = []; room = room; faults = 0 }) }
        ensures calls { IfOk result (λ made. made.calls ≡ record { fails = fails.items; made = 0 }) }
    {
        Ok(FailingSink {
            sink: MemorySink::new(alloc, room)?,
            calls: FailingCalls::new(fails),
        })
    }

    /// The bytes written.
    pub fn bytes(&self) -> &[u8]
        ensures { result.now ≡ self.now.sink.bytes }
    {
        self.sink.bytes()
    }
}

impl Sink for FailingSink {
    ghost faults = { λ s. s.sink.faults };

    ghost written = { λ s. Some s.sink.bytes };

    fn write(&mut self, piece: &[u8]) -> Result<usize, Failed>
        ensures counts { self.new.calls ≡ called self.old.calls }
        ensures never_falls { self.old.sink.faults ≤ self.new.sink.faults }

        // The calls that are named fail, and those that meet a full room. They are counted, and take nothing.
        ensures fails { IsErr result ↔ FailsNext self.old.calls ⊎ MeetsFullRoom self.old.sink piece.now }
        ensures failed { OnErr result (self.new.sink ≡ failed self.old.sink) }

        // All others do what those of a sink in memory do.
        ensures goes_on { IfOk result (λ count. 0 < length piece.now → 0 < count) }
        ensures puts { IfOk result (λ count. Puts count self.old.sink self.new.sink piece.now) }
    {
        if self.calls.next_fails() {
            return Err(self.sink.fail());
        }
        self.sink.write(piece)
    }
}
