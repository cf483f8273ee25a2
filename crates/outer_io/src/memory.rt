ghost use Rattle.std.specs.Prelude.{◌≡◌, ◌≤◌, ◌<◌, ◌↔◌, ◌++◌, [], drop, take, min, length, Some, IfOk, OnErr, IsOk, IsErr};
ghost use Rattle.outer_io.specs.Outside.{Gives, Puts, MeetsFullRoom, failed};

use crate::traits::{Failed, Sink, Source};
use blocks_core::Memory;
use std::alloc::Global;
use std::marker::Model;

/// A source over bytes in memory, seen as the bytes that are left. It never fails.
#[derive(Drop)]
pub struct MemorySource {
    bytes: Vec<u8>,
    taken: usize,
}

impl Model for MemorySource {
    ghost use Rattle.std.specs.Prelude.{◌≤◌, ℕ, List, drop, length};

    ghost Value = { List ℕ };

    ghost view = { λ s. drop s.taken s.bytes.items };

    ghost invariant = { λ s. s.taken ≤ length s.bytes.items };
}

impl MemorySource {
    pub fn new(bytes: Vec<u8>) -> MemorySource
        ensures { result ≡ bytes.items }
    {
        MemorySource { bytes, taken: 0 }
    }
}

impl Source for MemorySource {
    ghost faults = { λ s. 0 };

    ghost left = { λ s. Some s };

    fn read(&mut self, into: &mut [u8]) -> Result<usize, Failed>
        ensures never_fails { IsOk result }
        ensures gives { IfOk result (λ count. Gives count self.old self.new into.old into.new) }
    {
        let count = copy_front(&self.bytes[self.taken..], into);
        self.taken += count;
        Ok(count)
    }
}

/// Copies as many bytes as both have room for, and says how many.
fn copy_front(from: &[u8], into: &mut [u8]) -> usize
    ensures count { result ≡ min (length from.now) (length into.old) }
    ensures bytes { into.new ≡ take result from.now ++ drop result into.old }
{
    let count = from.len().min(into.len());
    into[..count].copy_from_slice(&from[..count]);
    count
}

/// A sink in memory with room for so many bytes, taken when it is made. It fails where a piece that
/// isn't empty meets a full room.
#[derive(Drop)]
pub struct MemorySink {
    kept: Vec<u8>,
    limit: usize,
    failures: u64,
}

impl Model for MemorySink {
    ghost use Rattle.std.specs.Prelude.{◌≤◌, length, vec_capacity};
    ghost use Rattle.outer_io.specs.Outside.{Filling};

    ghost Value = { Filling };

    ghost view = { λ s. record { bytes = s.kept.items; room = s.limit; faults = s.failures } };

    ghost invariant = { λ s. (length s.kept.items ≤ s.limit) × (s.limit ≤ vec_capacity s.kept) };
}

impl MemorySink {
    pub fn new(alloc: Global, room: usize) -> Result<MemorySink, Memory>
        ensures { IfOk result (λ sink. sink ≡ record { bytes = []; room = room; faults = 0 }) }
    {
        Ok(MemorySink {
            kept: Vec::with_capacity(alloc, room)?,
            limit: room,
            failures: 0,
        })
    }

    /// The bytes written.
    pub fn bytes(&self) -> &[u8]
        ensures { result.now ≡ self.now.bytes }
    {
        self.kept.as_slice()
    }

    /// Counts a failure. A count at its type's end stands still, which `HasRisen` takes for risen: so a
    /// failure is never told without its cause.
    pub(crate) fn fail(&mut self) -> Failed
        ensures counts { self.new ≡ failed self.old }
        ensures never_falls { self.old.faults ≤ self.new.faults }
    {
        self.failures = self.failures.saturating_add(1);
        Failed
    }
}

impl Sink for MemorySink {
    ghost faults = { λ s. s.faults };

    ghost written = { λ s. Some s.bytes };

    /// Takes as many bytes of a piece as there is room for, without taking memory.
    fn write(&mut self, piece: &[u8]) -> Result<usize, Failed>
        ensures never_falls { self.old.faults ≤ self.new.faults }
        ensures fails { IsErr result ↔ MeetsFullRoom self.old piece.now }
        ensures failed { OnErr result (self.new ≡ failed self.old) }
        ensures goes_on { IfOk result (λ count. 0 < length piece.now → 0 < count) }
        ensures puts { IfOk result (λ count. Puts count self.old self.new piece.now) }
    {
        let count = piece.len().min(self.limit - self.kept.len());
        if count == 0 && !piece.is_empty() {
            return Err(self.fail());
        }
        // The room was taken when the sink was made, and no more than that is ever put in: so this can't
        // want memory.
        self.kept.extend_from_slice(&piece[..count]).unwrap();
        Ok(count)
    }
}
