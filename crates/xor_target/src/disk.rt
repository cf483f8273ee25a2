//! A target's disk: its medium, and the buffer of the blocks that it holds.

ghost use Rattle.std.specs.Prelude.{◌≡◌, ◌==◌, ◌≤◌, ◌<◌, ◌+◌, ◌-◌, ◌*◌, ◌/◌, ◌^◌, ◌++◌, [], ◌∷◌, not, nat_lt, false, filter, length, Some, None, option_map, IfSome, IfOk, OnOk, OnErr};
ghost use Rattle.blocks_core.specs.Lists.{slice, put};
ghost use Rattle.blocks_core.specs.Xor.{zeros};
ghost use Rattle.sector_media.specs.Media.{AreRows};
ghost use Rattle.xor_buffers.specs.Held.{owners_of, overlap_of, holder_of, held_blocks, rows_held, take_rows};
ghost use Rattle.xor_buffers.specs.Holding.{spare_of};
ghost use Rattle.xor_target.specs.Disks.{IsSameDisk, HasFailed, IsDelta};
ghost use Rattle.xor_target.specs.Effects.{rows_taken};

use blocks_core::{Memory, Owners, xor_into};
use outer_io::Failed;
use sector_media::Medium;
use std::alloc::Global;
use std::marker::Model;
use xor_buffers::Held;

/// A medium of rows of one block each, and a buffer for blocks of exclusive-or.
#[derive(Drop)]
pub struct Disk<M: Medium + Drop> {
    block: u32,
    medium: M,
    buffer: Held,
}

impl<M: Medium + Drop> Model for Disk<M> {
    ghost use Rattle.std.specs.Prelude.{◌≡◌, ◌≤◌};
    ghost use Rattle.xor_target.specs.Disks.{DiskState};

    ghost Value = { DiskState };

    ghost view = { λ d. record { block = d.block; rows = M.row_count d.medium; contents = M.contents d.medium; faults = M.faults d.medium; buffer = d.buffer } };

    ghost invariant = { λ d. (M.block d.medium ≡ d.block) × (d.buffer.block ≡ d.block) × (1 ≤ d.block) };
}

impl<M: Medium + Drop> Disk<M> {
    /// A disk that holds nothing, with room for so many blocks. The medium's block is the one given.
    pub fn new(alloc: Global, block: u32, room: u32, medium: M) -> Result<Disk<M>, Memory>
        requires some { 1 ≤ block }
        requires same { M.block medium ≡ block }
        ensures block { IfOk result (λ disk. disk.block ≡ block) }
        ensures rows { IfOk result (λ disk. disk.rows ≡ M.row_count medium) }
        ensures contents { IfOk result (λ disk. disk.contents ≡ M.contents medium) }
        ensures faults { IfOk result (λ disk. disk.faults ≡ M.faults medium) }
        ensures buffer { IfOk result (λ disk. disk.buffer ≡ record { block = block; capacity = room; slots = 0; list = [] }) }
    {
        let buffer = Held::new(alloc, block, room)?;
        Ok(Disk {
            block,
            medium,
            buffer,
        })
    }

    /// The bytes of a block.
    pub fn block(&self) -> u32
        ensures value { result ≡ self.now.block }
        ensures some { 1 ≤ result }
        ensures buffer { self.now.buffer.block ≡ self.now.block }
    {
        self.block
    }

    /// How many rows there are.
    pub fn rows(&self) -> u32
        ensures value { result ≡ self.now.rows }
        ensures whole { IfSome self.now.contents (λ told. length told ≡ self.now.rows * self.now.block) }
    {
        self.medium.rows()
    }

    /// Puts the blocks of rows from one on into a slice of whole blocks.
    pub fn read(&mut self, row: u32, into: &mut [u8]) -> Result<(), Failed>
        requires rows { AreRows self.old.block self.old.rows row (length into.old) }
        ensures same { IsSameDisk self.old self.new }
        ensures gives { OnOk result (IfSome self.old.contents (λ told. into.new ≡ slice told (row * self.old.block) (length into.old))) }
        ensures keeps { OnOk result (self.new.contents ≡ self.old.contents) }
        ensures failed { OnErr result (HasFailed M.NEVER_FAILS self.old.faults self.new.faults) }
    {
        self.medium.read(row, into)
    }

    /// Puts the blocks of rows, exclusive-or some bytes, into a slice that is as long as these.
    pub fn read_delta(&mut self, row: u32, bytes: &[u8], into: &mut [u8]) -> Result<(), Failed>
        requires rows { AreRows self.old.block self.old.rows row (length bytes.now) }
        requires same_length { length into.old ≡ length bytes.now }
        ensures same { IsSameDisk self.old self.new }
        ensures gives { OnOk result (IsDelta self.old row bytes.now into.new) }
        ensures keeps { OnOk result (self.new.contents ≡ self.old.contents) }
        ensures failed { OnErr result (HasFailed M.NEVER_FAILS self.old.faults self.new.faults) }
    {
        self.read(row, into)?;
        xor_into(into, bytes);
        Ok(())
    }

    /// Puts whole blocks over those of rows from one on.
    pub fn write(&mut self, row: u32, blocks: &[u8]) -> Result<(), Failed>
        requires rows { AreRows self.old.block self.old.rows row (length blocks.now) }
        ensures same { IsSameDisk self.old self.new }
        ensures replaces { OnOk result (self.new.contents ≡ option_map (λ told. put told (row * self.old.block) blocks.now) self.old.contents) }
        ensures failed { OnErr result (HasFailed M.NEVER_FAILS self.old.faults self.new.faults) }
    {
        self.medium.write(row, blocks)
    }

    /// Makes all rows zeros.
    pub fn renew(&mut self) -> Result<(), Failed>
        ensures same { IsSameDisk self.old self.new }
        ensures zeros { OnOk result (self.new.contents ≡ option_map (λ told. zeros (self.old.rows * self.old.block)) self.old.contents) }
        ensures failed { OnErr result (HasFailed M.NEVER_FAILS self.old.faults self.new.faults) }
    {
        self.medium.renew()
    }

    /// Makes sure that so many more blocks can be held without taking memory.
    pub fn reserve(&mut self, count: u32) -> Result<(), Memory>
        ensures spare { OnOk result (count ≤ spare_of self.new.buffer) }
        ensures same { self.new ≡ record self.old { buffer = record self.old.buffer { slots = self.new.buffer.slots } } }
    {
        self.buffer.reserve(count)
    }

    /// Holds blocks whose rows are free and for which there is room, without taking memory.
    pub fn hold(&mut self, owner: u32, row: u32, bytes: &[u8], count: u32)
        requires some { 1 ≤ count }
        requires whole { length bytes.now ≡ count * self.old.block }
        requires spare { count ≤ spare_of self.old.buffer }
        requires rows { row + count ≤ 2 ^ 32 }
        requires free { overlap_of self.old.block row count self.old.buffer.list ≡ None }
        requires room { nat_lt (self.old.buffer.capacity - held_blocks self.old.block self.old.buffer.list) count ≡ false }
        ensures held { self.new ≡ record self.old { buffer = record self.old.buffer { list = self.old.buffer.list ++ record { owner = owner; row = row; bytes = bytes.now } ∷ [] } } }
        ensures fills { held_blocks self.old.block self.new.buffer.list ≡ held_blocks self.old.block self.old.buffer.list + count }
    {
        self.buffer.hold(owner, row, bytes).unwrap();
    }

    /// Takes rows out of the held blocks that contain them, without taking memory.
    pub fn take(&mut self, row: u32, into: &mut [u8], count: u32)
        requires some { 1 ≤ count }
        requires whole { length into.old ≡ count * self.old.block }
        requires owner { holder_of self.old.block row (count * self.old.block) self.old.buffer.list ≡ None → ⊥ }
        ensures rows { rows_taken self.old.block row (count * self.old.block) self.old.buffer.list ≡ Some into.new }
        ensures rest { self.new ≡ record self.old { buffer = record self.old.buffer { list = take_rows self.old.block row (count * self.old.block) self.old.buffer.list } } }
    {
        self.buffer.take(row, into).unwrap();
    }

    /// Lets go all that is held.
    pub fn wipe(&mut self)
        ensures { self.new ≡ record self.old { buffer = record self.old.buffer { list = [] } } }
    {
        self.buffer.wipe();
    }

    /// Lets go what one owner holds.
    pub fn wipe_owner(&mut self, owner: u32)
        ensures { self.new ≡ record self.old { buffer = record self.old.buffer { list = filter (λ h. not (h.owner == owner)) self.old.buffer.list } } }
    {
        self.buffer.wipe_owner(owner);
    }

    /// The owners of what is held, rising, each once.
    pub fn owners(&self, alloc: Global) -> Result<Owners, Memory>
        ensures { IfOk result (λ owners. owners ≡ owners_of self.now.buffer.list) }
    {
        self.buffer.owners(alloc)
    }

    /// The owners that a failure of the medium would make lose what they hold: none where it never fails, so
    /// that no command there pays for a list of all that is held.
    pub fn owners_at_risk(&self, alloc: Global) -> Result<Owners, Memory>
        ensures { IfOk result (λ owners. M.NEVER_FAILS ≡ false → owners ≡ owners_of self.now.buffer.list) }
    {
        if M::NEVER_FAILS {
            Ok(Owners::new(alloc))
        } else {
            self.buffer.owners(alloc)
        }
    }

    /// The owner of the first held blocks that have one of these rows.
    pub fn overlap(&self, row: u32, count: u32) -> Option<u32>
        ensures { result ≡ overlap_of self.now.block row count self.now.buffer.list }
    {
        self.buffer.overlap(row, count)
    }

    /// How many more blocks may be held.
    pub fn room(&self) -> u32
        ensures { result ≡ self.now.buffer.capacity - held_blocks self.now.block self.now.buffer.list }
    {
        self.buffer.room()
    }

    /// The owner of the first held blocks that contain these rows.
    pub fn holder(&self, row: u32, count: u32) -> Option<u32>
        requires { 1 ≤ count }
        ensures { result ≡ holder_of self.now.block row (count * self.now.block) self.now.buffer.list }
    {
        self.buffer.holder(row, count)
    }

    /// The medium.
    pub fn into_medium(self) -> M
        ensures rows { M.row_count result ≡ self.rows }
        ensures block { M.block result ≡ self.block }
        ensures contents { M.contents result ≡ self.contents }
        ensures faults { M.faults result ≡ self.faults }
    {
        let Disk { medium, .. } = self;
        medium
    }
}
