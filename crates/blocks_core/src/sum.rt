ghost use Rattle.std.specs.Prelude.{◌≡◌, ◌+◌, ◌++◌, ◌≤◌, length, OnOk, OnErr, IfOk};
ghost use Rattle.blocks_core.specs.Lists.{slice, put};
ghost use Rattle.blocks_core.specs.Xor.{xor, zeros, is_zero};

use crate::bytes::Bytes;
use crate::memory::Memory;
use crate::xor::xor_into;
use std::alloc::Global;
use std::marker::Model;

/// An exclusive-or that grows with each list of bytes that is added. Where one is longer, its rest
/// stands as it is.
#[derive(Debug, Drop)]
pub struct XorSum {
    kept: Vec<u8>,
}

impl Model for XorSum {
    ghost use Rattle.std.specs.Prelude.{List, ℕ};

    ghost Value = { List ℕ };

    ghost view = { λ s. s.kept.items };
}

impl XorSum {
    /// The sum of nothing: so many zeros.
    pub fn new(alloc: Global, len: usize) -> Result<XorSum, Memory>
        ensures { IfOk result (λ sum. sum ≡ zeros len) }
    {
        Ok(XorSum {
            kept: vec![in alloc; 0u8; len]?,
        })
    }

    /// Adds bytes. Takes memory only where they are longer than all before.
    pub fn add(&mut self, bytes: &[u8]) -> Result<(), Memory>
        ensures ok { OnOk result (self.new ≡ xor self.old bytes.now) }
        ensures err { OnErr result (self.new ≡ self.old) }
    {
        let within = bytes.len().min(self.kept.len());
        self.append(&bytes[within..])?;
        self.add_within(&bytes[..within]);
        Ok(())
    }

    /// The same without taking memory, for bytes that are no longer than those before.
    pub fn add_within(&mut self, bytes: &[u8])
        requires { length bytes.now ≤ length self.old }
        ensures { self.new ≡ xor self.old bytes.now }
    {
        self.add_at(0, bytes);
    }

    /// Puts the exclusive-or of bytes and those from a place on there.
    fn add_at(&mut self, at: usize, bytes: &[u8])
        requires { at + length bytes.now ≤ length self.old }
        ensures { self.new ≡ put self.old at (xor (slice self.old at (length bytes.now)) bytes.now) }
    {
        xor_into(&mut self.kept[at..at + bytes.len()], bytes);
    }

    /// Puts bytes behind all others.
    fn append(&mut self, bytes: &[u8]) -> Result<(), Memory>
        ensures ok { OnOk result (self.new ≡ self.old ++ bytes.now) }
        ensures err { OnErr result (self.new ≡ self.old) }
    {
        self.kept.extend_from_slice(bytes)?;
        Ok(())
    }

    /// Whether all bytes are zero.
    pub fn is_zero(&self) -> bool
        ensures { result ≡ is_zero self.now }
    {
        self.kept.iter().all(|byte| *byte == 0)
    }

    pub fn as_slice(&self) -> &[u8]
        ensures { result.now ≡ self.now }
    {
        self.kept.as_slice()
    }

    /// The bytes themselves, without taking memory.
    pub fn into_bytes(self) -> Bytes
        ensures { result ≡ self }
    {
        let XorSum { kept } = self;
        Bytes::from_vec(kept)
    }
}
