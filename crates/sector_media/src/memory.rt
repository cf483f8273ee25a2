ghost use Rattle.std.specs.Prelude.{◌≡◌, ◌≤◌, ◌+◌, ◌*◌, true, refl, length, Some, IfOk, IsOk};
ghost use Rattle.blocks_core.specs.Lists.{slice, put};
ghost use Rattle.blocks_core.specs.Xor.{zeros};
ghost use Rattle.sector_media.specs.Media.{AreAllRows, AreRows};

use crate::medium::Medium;
use blocks_core::Memory;
use outer_io::Failed;
use std::alloc::Global;
use std::marker::Model;

/// A medium in memory. It never fails, and tells its contents.
#[derive(Drop)]
pub struct MemoryMedium {
    size: u32,
    count: u32,
    kept: Vec<u8>,
}

impl Model for MemoryMedium {
    ghost use Rattle.std.specs.Prelude.{◌≡◌, ◌*◌, length};
    ghost use Rattle.sector_media.specs.Media.{Sectors};

    ghost Value = { Sectors };

    ghost view = { λ m. record { block = m.size; rows = m.count; bytes = m.kept.items } };

    ghost invariant = { λ m. length m.kept.items ≡ m.count * m.size };
}

impl MemoryMedium {
    /// A medium of so many rows of a block each, all zeros.
    pub fn new(alloc: Global, block: u32, rows: u32) -> Result<MemoryMedium, Memory>
        ensures { IfOk result (λ medium. medium ≡ record { block = block; rows = rows; bytes = zeros (rows * block) }) }
    {
        let kept = vec![in alloc; 0u8; rows as usize * block as usize]?;
        Ok(MemoryMedium {
            size: block,
            count: rows,
            kept,
        })
    }

    /// The bytes of all rows.
    pub fn as_slice(&self) -> &[u8]
        ensures bytes { result.now ≡ self.now.bytes }
        ensures whole { AreAllRows self.now }
    {
        self.kept.as_slice()
    }

    /// Where the blocks of rows from one on begin, if they are so many bytes in all.
    fn place(&self, row: u32, len: usize) -> usize
        requires { AreRows self.now.block self.now.rows row len }
        ensures place { result ≡ row * self.now.block }
        ensures fits { result + len ≤ length self.now.bytes }
    {
        row as usize * self.size as usize
    }
}

impl Medium for MemoryMedium {
    const NEVER_FAILS: bool = true;

    ghost NEVER_FAILS = { true };

    ghost faults = { λ m. 0 };

    ghost block = { λ m. m.block };

    ghost row_count = { λ m. m.rows };

    ghost contents = { λ m. Some m.bytes };

    fn rows(&self) -> u32
        ensures count { result ≡ self.now.rows }
        ensures whole { AreAllRows self.now }
    {
        self.count
    }

    fn read(&mut self, row: u32, into: &mut [u8]) -> Result<(), Failed>
        requires rows { AreRows self.old.block self.old.rows row (length into.old) }
        ensures never_fails { IsOk result }
        ensures gives { into.new ≡ slice self.old.bytes (row * self.old.block) (length into.old) }
        ensures keeps { self.new ≡ self.old }
    {
        let at = self.place(row, into.len());
        into.copy_from_slice(&self.kept[at..at + into.len()]);
        Ok(())
    }

    fn write(&mut self, row: u32, blocks: &[u8]) -> Result<(), Failed>
        requires rows { AreRows self.old.block self.old.rows row (length blocks.now) }
        ensures never_fails { IsOk result }
        ensures replaces { self.new ≡ record self.old { bytes = put self.old.bytes (row * self.old.block) blocks.now } }
    {
        let at = self.place(row, blocks.len());
        self.kept[at..at + blocks.len()].copy_from_slice(blocks);
        Ok(())
    }

    fn renew(&mut self) -> Result<(), Failed>
        ensures never_fails { IsOk result }
        ensures zeros { self.new ≡ record self.old { bytes = zeros (self.old.rows * self.old.block) } }
    {
        self.kept.fill(0);
        Ok(())
    }

    ghost never_counts = { λ _ medium. refl };
}
