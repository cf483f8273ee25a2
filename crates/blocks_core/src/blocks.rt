ghost use Rattle.std.specs.Prelude.{◌≡◌, ◌<◌, ◌^◌, ◌*◌, length, IfOk, IfErr, MatchResult};
ghost use Rattle.blocks_core.specs.Xor.{xor};
ghost use Rattle.blocks_core.specs.Blocks.{IsRagged, AreWhole};

use crate::bytes::Bytes;
use crate::memory::Memory;
use crate::xor::xor_into;
use std::alloc::Global;
use std::marker::Model;

/// Bytes that are whole blocks of one size, fewer than 2^32 bytes in all.
#[derive(Debug, Drop)]
pub struct Blocks {
    size: u32,
    kept: Vec<u8>,
}

/// Bytes that aren't whole blocks: the block size asked for, and how many bytes came.
#[derive(Clone, Copy, Debug, PartialEq, Eq)]
pub struct Ragged {
    pub block: u32,
    pub len: usize,
}

impl Model for Blocks {
    ghost use Rattle.std.specs.Prelude.{◌<◌, ◌^◌, length};
    ghost use Rattle.blocks_core.specs.Blocks.{Contents, AreWhole};

    ghost Value = { Contents };

    ghost view = { λ b. record { block = b.size; bytes = b.kept.items } };

    ghost invariant = { λ b. AreWhole b.size b.kept.items × (length b.kept.items < 2 ^ 32) };
}

impl Blocks {
    /// Takes bytes as blocks of a size. `Ragged` comes exactly where the size is zero or doesn't
    /// divide the number of bytes.
    pub fn new(block: u32, bytes: Bytes) -> Result<Blocks, Ragged>
        requires { length bytes < 2 ^ 32 }
        ensures blocks { MatchResult result (λ b. (b ≡ record { block = block; bytes = bytes }) × AreWhole block bytes) (λ _. IsRagged block bytes) }
        ensures numbers { IfErr result (λ e. (e.block ≡ block) × (e.len ≡ length bytes)) }
    {
        let kept = bytes.into_vec();
        if block == 0 || kept.len() % block as usize != 0 {
            return Err(Ragged {
                block,
                len: kept.len(),
            });
        }
        Ok(Blocks { size: block, kept })
    }

    /// A block's size in bytes.
    pub fn block(&self) -> u32
        ensures { result ≡ self.now.block }
    {
        self.size
    }

    /// How many blocks.
    pub fn count(&self) -> u32
        ensures { result * self.now.block ≡ length self.now.bytes }
    {
        self.kept.len() as u32 / self.size
    }

    pub fn as_slice(&self) -> &[u8]
        ensures bytes { result.now ≡ self.now.bytes }
        ensures whole { AreWhole self.now.block self.now.bytes }
    {
        self.kept.as_slice()
    }

    /// A copy with memory of its own.
    pub fn copy(&self, alloc: Global) -> Result<Blocks, Memory>
        ensures { IfOk result (λ copy. copy ≡ self.now) }
    {
        let kept = Vec::from_slice(alloc, self.kept.as_slice())?;
        Ok(Blocks {
            size: self.size,
            kept,
        })
    }

    /// The exclusive-or of two runs of blocks, by place.
    pub fn xor_of(alloc: Global, a: &Blocks, b: &Blocks) -> Result<Blocks, Memory>
        requires same_block { a.now.block ≡ b.now.block }
        requires same_count { length a.now.bytes ≡ length b.now.bytes }
        ensures { IfOk result (λ c. (c.block ≡ a.now.block) × (c.bytes ≡ xor a.now.bytes b.now.bytes)) }
    {
        let mut kept = Vec::from_slice(alloc, a.kept.as_slice())?;
        xor_into(&mut kept, b.as_slice());
        Ok(Blocks { size: a.size, kept })
    }
}
