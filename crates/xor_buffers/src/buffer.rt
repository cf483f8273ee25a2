//! A target's own buffer: blocks in one region of slots, and a table of whose they are.

ghost use Rattle.std.specs.Prelude.{◌≡◌, ◌≤◌, ◌<◌, ◌+◌, ◌-◌, ◌*◌, ◌/◌, ◌%◌, ◌^◌, ◌++◌, [], ◌∷◌, length, IfOk, OnOk, OnErr, MatchResult, None, Some};
ghost use Rattle.xor_buffers.specs.Held.{take_rows, rows_held, holder_of, overlap_of, held_blocks};
ghost use Rattle.xor_buffers.specs.Runs.{IsRun};
ghost use Rattle.xor_buffers.specs.Holding.{room_of, spare_of, hold_fault};

mod slots;
mod table;
mod wiping;

use crate::fault::{HoldFault, NoMatch};
use blocks_core::Memory;
use slots::BlockSlots;
use std::alloc::Global;
use std::marker::Model;
use table::{Run, cut, find_in, overlap_in};

/// A target's own buffer. It takes memory when slots are reserved, and never to hold, take or let go.
#[derive(Debug, Drop)]
pub struct Held {
    slots: BlockSlots,
    runs: Vec<Run>,
    used: u32,
    capacity: u32,
    first: u32,
    end: u64,
}

impl Model for Held {
    ghost use Rattle.std.specs.Prelude.{vec_capacity};
    ghost use Rattle.xor_buffers.specs.Holding.{Holding};

    ghost Value = { Holding };

    ghost use Rattle.xor_buffers.specs.Runs.{runs_of, IsTable, AreBetween};

    ghost view = { λ h. record { block = h.slots.block; capacity = h.capacity; slots = h.slots.count; list = runs_of h.slots.block h.slots.bytes h.runs.items } };

    ghost invariant = { λ h. IsTable h.slots.block h.slots.count h.slots.bytes h.capacity h.used (vec_capacity h.runs) h.runs.items × AreBetween h.first h.end h.runs.items };
}

impl Held {
    /// Nothing held, with room for so many blocks of this size. The slots come with `reserve`.
    pub fn new(alloc: Global, block: u32, room: u32) -> Result<Held, Memory>
        requires { 1 ≤ block }
        ensures { IfOk result (λ held. held ≡ record { block = block; capacity = room; slots = 0; list = [] }) }
    {
        Ok(Held {
            slots: BlockSlots::new(alloc, block),
            runs: Vec::new(alloc),
            used: 0,
            capacity: room,
            first: u32::MAX,
            end: 0,
        })
    }

    /// How many more blocks may be held.
    pub fn room(&self) -> u32
        ensures room { result ≡ room_of self.now }
        ensures within { held_blocks self.now.block self.now.list ≤ self.now.capacity }
    {
        self.capacity - self.used
    }

    /// How many more blocks there are slots for.
    pub fn spare(&self) -> u32
        ensures spare { result ≡ spare_of self.now }
        ensures within { held_blocks self.now.block self.now.list ≤ self.now.slots }
    {
        self.slots.count() - self.used
    }

    /// The owner of the first held blocks that have one of these rows.
    pub fn overlap(&self, row: u32, count: u32) -> Option<u32>
        ensures { result ≡ overlap_of self.now.block row count self.now.list }
    {
        // Rows are mostly held in rising or in falling order, and then the whole table need not be looked
        // through.
        if u64::from(row) >= self.end {
            return None;
        }
        if u64::from(row) + u64::from(count) <= u64::from(self.first) {
            return None;
        }
        overlap_in(&self.runs, row, count)
    }

    /// Makes slots, so that so many more blocks can be held without taking memory.
    pub fn reserve(&mut self, count: u32) -> Result<(), Memory>
        ensures ok { OnOk result (self.new ≡ record self.old { slots = self.old.slots + (count - spare_of self.old) }) }
        ensures spare { OnOk result (count ≤ spare_of self.new) }
        ensures err { OnErr result (self.new ≡ self.old) }
    {
        let spare = self.spare();
        if count <= spare {
            return Ok(());
        }
        self.add_slots(count - spare)
    }

    /// Makes so many slots more, and room in the table for a run in each.
    fn add_slots(&mut self, more: u32) -> Result<(), Memory>
        ensures ok { OnOk result (self.new ≡ record self.old { slots = self.old.slots + more }) }
        ensures err { OnErr result (self.new ≡ self.old) }
    {
        let count = self.slots.count() as usize + more as usize;
        self.runs.reserve(count - self.runs.len())?;
        self.slots.grow(more)?;
        Ok(())
    }

    /// How many blocks are held.
    pub fn held(&self) -> u32
        ensures { result ≡ held_blocks self.now.block self.now.list }
    {
        self.used
    }

    /// The owner of the first held blocks that contain these rows.
    pub fn holder(&self, row: u32, count: u32) -> Option<u32>
        requires { 1 ≤ count }
        ensures { result ≡ holder_of self.now.block row (count * self.now.block) self.now.list }
    {
        let Some(place) = find_in(&self.runs, self.used, row, u64::from(count)) else {
            return None;
        };
        Some(self.runs[place.index].owner)
    }

    /// Holds whole blocks from a row on for an owner, behind what is held, without taking memory.
    pub fn hold(&mut self, owner: u32, row: u32, bytes: &[u8]) -> Result<(), HoldFault>
        requires some { 1 ≤ length bytes.now }
        requires whole { length bytes.now % self.old.block ≡ 0 }
        requires spare { length bytes.now / self.old.block ≤ spare_of self.old }
        requires rows { row + length bytes.now / self.old.block ≤ 2 ^ 32 }
        ensures fault { MatchResult result (λ _. hold_fault self.old row (length bytes.now / self.old.block) ≡ None) (λ fault. hold_fault self.old row (length bytes.now / self.old.block) ≡ Some fault) }
        ensures ok { OnOk result (self.new ≡ record self.old { list = self.old.list ++ record { owner = owner; row = row; bytes = bytes.now } ∷ [] }) }
        ensures room { OnOk result (room_of self.new + length bytes.now / self.old.block ≡ room_of self.old) }
        ensures spare { OnOk result (spare_of self.new + length bytes.now / self.old.block ≡ spare_of self.old) }
        ensures err { OnErr result (self.new ≡ self.old) }
    {
        let count = (bytes.len() / self.slots.block() as usize) as u32;
        if let Some(owner) = self.overlap(row, count) {
            return Err(HoldFault::Overlap { owner });
        }
        let room = self.room();
        if room < count {
            return Err(HoldFault::Full { room });
        }
        self.append(Run { owner, row, count }, bytes);
        Ok(())
    }

    /// Holds blocks whose rows are free and for which there is room.
    fn append(&mut self, run: Run, bytes: &[u8])
        requires run { IsRun run }
        requires size { length bytes.now ≡ run.count * self.old.block }
        requires spare { run.count ≤ spare_of self.old }
        requires room { run.count ≤ room_of self.old }
        requires free { overlap_of self.old.block run.row run.count self.old.list ≡ None }
        ensures list { self.new ≡ record self.old { list = self.old.list ++ record { owner = run.owner; row = run.row; bytes = bytes.now } ∷ [] } }
        ensures room { room_of self.new + run.count ≡ room_of self.old }
        ensures spare { spare_of self.new + run.count ≡ spare_of self.old }
    {
        self.slots.write(self.used, run.count, bytes);
        // The table has room for a run in each slot, and each run has a block: so this can't want memory.
        self.runs.push(run).unwrap();
        self.used += run.count;
        self.first = nearer(self.first, run.row);
        self.end = further(self.end, u64::from(run.row) + u64::from(run.count));
    }

    /// Takes rows out of the held blocks that contain them, without taking memory, and tells whose they were.
    /// What these hold before and behind the rows stays, as one or two pieces.
    pub fn take(&mut self, row: u32, into: &mut [u8]) -> Result<u32, NoMatch>
        requires some { 1 ≤ length into.old }
        requires whole { length into.old % self.old.block ≡ 0 }
        ensures owner { MatchResult result (λ owner. holder_of self.old.block row (length into.old) self.old.list ≡ Some owner) (λ _. holder_of self.old.block row (length into.old) self.old.list ≡ None) }
        ensures bytes { IfOk result (λ owner. rows_held self.old.block owner row (length into.old) self.old.list ≡ Some into.new) }
        ensures ok { OnOk result (self.new ≡ record self.old { list = take_rows self.old.block row (length into.old) self.old.list }) }
        ensures room { OnOk result (room_of self.new ≡ room_of self.old + length into.old / self.old.block) }
        ensures spare { OnOk result (spare_of self.new ≡ spare_of self.old + length into.old / self.old.block) }
        ensures err { OnErr result ((self.new ≡ self.old) × (into.new ≡ into.old)) }
    {
        let count = into.len() / self.slots.block() as usize;
        let Some(place) = find_in(&self.runs, self.used, row, count as u64) else {
            return Err(NoMatch);
        };
        let run = self.runs[place.index];
        let start = row - run.row;
        let at = place.at + start;
        self.slots.read(at, count as u32, into);
        self.slots.release(at, count as u32, self.used);
        cut(&mut self.runs, place.index, run, start, count as u32);
        self.used -= count as u32;
        Ok(run.owner)
    }
}

/// The greater of two ends.
fn further(end: u64, other: u64) -> u64
    ensures end { end ≤ result }
    ensures other { other ≤ result }
{
    if end < other { other } else { end }
}

/// The lesser of two first rows.
fn nearer(first: u32, other: u32) -> u32
    ensures first { result ≤ first }
    ensures other { result ≤ other }
{
    if other < first { other } else { first }
}
