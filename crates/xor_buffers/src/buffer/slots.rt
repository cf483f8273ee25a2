//! One region of block slots, and the order in which they are used.

ghost use Rattle.std.specs.Prelude.{◌≡◌, ◌+◌, ◌-◌, ◌*◌, ◌≤◌, ◌<◌, ◌^◌, ◌++◌, [], length, take, slice_index, OnOk, OnErr, IfSome};
ghost use Rattle.blocks_core.specs.Lists.{slice, put, block_at};
ghost use Rattle.xor_buffers.specs.Slots.{released, turned, numbers_from};

use blocks_core::Memory;
use std::alloc::Global;
use std::marker::Model;

/// Slots of one block each in one region, seen as their bytes in the order of use. A slot whose block is
/// let go changes its place in that order; no block moves within the region.
#[derive(Debug, Drop)]
pub(crate) struct BlockSlots {
    block: u32,
    region: Vec<u8>,
    order: Vec<u32>,
}

impl Model for BlockSlots {
    ghost use Rattle.std.specs.Prelude.{◌≤◌, ◌<◌, ◌*◌, ◌^◌, length};
    ghost use Rattle.xor_buffers.specs.Slots.{Slotted, gathered, IsOrder};

    ghost Value = { Slotted };

    ghost view = { λ s. record { block = s.block; count = length s.order.items; bytes = gathered s.block s.region.items s.order.items } };

    ghost invariant = { λ s. (1 ≤ s.block) × (length s.order.items < 2 ^ 32) × (length s.order.items * s.block ≤ length s.region.items) × IsOrder (length s.order.items) s.order.items };
}

impl BlockSlots {
    /// No slots. Takes no memory.
    pub(crate) fn new(alloc: Global, block: u32) -> BlockSlots
        requires { 1 ≤ block }
        ensures { result ≡ record { block = block; count = 0; bytes = [] } }
    {
        BlockSlots {
            block,
            region: Vec::new(alloc),
            order: Vec::new(alloc),
        }
    }

    /// The bytes of a block.
    pub(crate) fn block(&self) -> u32
        ensures block { result ≡ self.now.block }
        ensures some { 1 ≤ self.now.block }
        ensures whole { length self.now.bytes ≡ self.now.count * self.now.block }
    {
        self.block
    }

    /// How many slots there are.
    pub(crate) fn count(&self) -> u32
        ensures count { result ≡ self.now.count }
        ensures whole { length self.now.bytes ≡ self.now.count * self.now.block }
    {
        self.order.len() as u32
    }

    /// Copies the block at a place out.
    fn read_block(&self, place: usize, into: &mut [u8])
        requires inside { place < self.now.count }
        requires size { length into.old ≡ self.now.block }
        ensures { into.new ≡ block_at self.now.block self.now.bytes place }
    {
        let start = start_of(&self.order, place, self.block);
        copy_out(&self.region, start, into);
    }

    /// Copies so many blocks out, from a place on.
    pub(crate) fn read(&self, at: u32, count: u32, into: &mut [u8])
        requires inside { at + count ≤ self.now.count }
        requires size { length into.old ≡ count * self.now.block }
        ensures { into.new ≡ slice self.now.bytes (at * self.now.block) (count * self.now.block) }
    {
        let block = self.block() as usize;
        let mut from = 0;
        for done in 0..count {
            self.read_block(at as usize + done as usize, &mut into[from..from + block]);
            from += block;
        }
    }

    /// Puts a block to a place.
    fn write_block(&mut self, place: usize, bytes: &[u8])
        requires inside { place < self.old.count }
        requires size { length bytes.now ≡ self.old.block }
        ensures { self.new ≡ record self.old { bytes = put self.old.bytes (place * self.old.block) bytes.now } }
    {
        let start = start_of(&self.order, place, self.block);
        copy_in(&mut self.region, start, bytes);
    }

    /// Puts so many blocks, from a place on.
    pub(crate) fn write(&mut self, at: u32, count: u32, bytes: &[u8])
        requires inside { at + count ≤ self.old.count }
        requires size { length bytes.now ≡ count * self.old.block }
        ensures { self.new ≡ record self.old { bytes = put self.old.bytes (at * self.old.block) bytes.now } }
    {
        let block = self.block() as usize;
        let mut from = 0;
        for done in 0..count {
            self.write_block(at as usize + done as usize, &bytes[from..from + block]);
            from += block;
        }
    }

    /// Lets so many blocks go, from a place on: they come behind the last block in use.
    pub(crate) fn release(&mut self, at: u32, count: u32, used: u32)
        requires within { at + count ≤ used }
        requires inside { used ≤ self.old.count }
        ensures { self.new ≡ record self.old { bytes = released (at * self.old.block) (count * self.old.block) (used * self.old.block) self.old.bytes } }
    {
        turn(&mut self.order, at as usize, count as usize, used as usize);
    }

    /// Makes more slots. Those that there were stay as they are, and all of them after want of memory.
    pub(crate) fn grow(&mut self, more: u32) -> Result<(), Memory>
        ensures count { OnOk result (self.new.count ≡ self.old.count + more) }
        ensures few { OnOk result (self.new.count < 2 ^ 32) }
        ensures block { self.new.block ≡ self.old.block }
        ensures bytes { OnOk result (take (self.old.count * self.old.block) self.new.bytes ≡ self.old.bytes) }
        ensures whole { OnOk result (length self.new.bytes ≡ self.new.count * self.new.block) }
        ensures err { OnErr result (self.new ≡ self.old) }
    {
        let Some(count) = longer_count(self.count(), more) else {
            return Err(Memory);
        };
        lengthen_region(&mut self.region, count, self.block)?;
        lengthen_order(&mut self.order, count)?;
        Ok(())
    }
}

/// The number of slots after growth, if slots can still be told apart by a `u32`.
fn longer_count(count: u32, more: u32) -> Option<usize>
    ensures { IfSome result (λ longer. (longer ≡ count + more) × (longer < 2 ^ 32)) }
{
    let longer = count.checked_add(more)?;
    Some(longer as usize)
}

/// Makes the region long enough for so many slots. What stands in it stays.
fn lengthen_region(region: &mut Vec<u8>, slots: usize, block: u32) -> Result<(), Memory>
    ensures ok { OnOk result (slots * block ≤ length region.new.items) }
    ensures kept { take (length region.old.items) region.new.items ≡ region.old.items }
{
    let len = slots.checked_mul(block as usize).ok_or(Memory)?;
    if region.len() < len {
        region.resize(len, 0)?;
    }
    Ok(())
}

/// Puts more slots behind those of an order, until there are so many.
fn lengthen_order(order: &mut Vec<u32>, slots: usize) -> Result<(), Memory>
    requires longer { length order.old.items ≤ slots }
    requires few { slots < 2 ^ 32 }
    ensures ok { OnOk result (order.new.items ≡ order.old.items ++ numbers_from (length order.old.items) (slots - length order.old.items)) }
    ensures err { OnErr result (order.new.items ≡ order.old.items) }
{
    let first = order.len();
    order.resize(slots, 0)?;
    number_from(order, first);
    Ok(())
}

/// Where the block at a place of an order begins in the region.
fn start_of(order: &[u32], place: usize, block: u32) -> usize
    requires { place < length order.now }
    ensures { result ≡ slice_index order.now place * block }
{
    order[place] as usize * block as usize
}

/// Copies bytes out of the region.
fn copy_out(region: &[u8], start: usize, into: &mut [u8])
    requires { start + length into.old ≤ length region.now }
    ensures { into.new ≡ slice region.now start (length into.old) }
{
    let end = start + into.len();
    into.copy_from_slice(&region[start..end]);
}

/// Copies bytes into the region.
fn copy_in(region: &mut [u8], start: usize, bytes: &[u8])
    requires { start + length bytes.now ≤ length region.old }
    ensures { region.new ≡ put region.old start bytes.now }
{
    region[start..start + bytes.len()].copy_from_slice(bytes);
}

/// Puts so many slots from a place on behind the others that are in use.
fn turn(order: &mut [u32], at: usize, count: usize, used: usize)
    requires within { at + count ≤ used }
    requires inside { used ≤ length order.old }
    ensures { order.new ≡ turned at count used order.old }
{
    order[at..used].rotate_left(count);
}

/// Gives the slots from one on their own numbers.
fn number_from(order: &mut [u32], first: usize)
    requires first { first ≤ length order.old }
    requires few { length order.old < 2 ^ 32 }
    ensures { order.new ≡ take first order.old ++ numbers_from first (length order.old - first) }
{
    for slot in first..order.len() {
        order[slot] = slot as u32;
    }
}
