//! What one target's medium holds, as far as a journal is replayed.

ghost use Rattle.std.specs.Prelude.{◌≡◌, ◌+◌, ◌≤◌, ◌++◌, length, OnOk, OnErr, IfOk};
ghost use Rattle.blocks_core.specs.Xor.{xor, zeros};
ghost use Rattle.blocks_core.specs.Lists.{slice, put};

use blocks_core::{Memory, xor_into};
use std::alloc::Global;
use std::marker::Model;

/// Bytes of a medium that a journal is replayed on, from row 0 on.
#[derive(Drop)]
pub struct ReplayedMedium {
    kept: Vec<u8>,
}

impl Model for ReplayedMedium {
    ghost use Rattle.std.specs.Prelude.{List, ℕ};

    ghost Value = { List ℕ };

    ghost view = { λ m. m.kept.items };
}

impl ReplayedMedium {
    /// So many zeros.
    pub fn zeros(alloc: Global, size: usize) -> Result<ReplayedMedium, Memory>
        ensures { IfOk result (λ m. m ≡ zeros size) }
    {
        Ok(ReplayedMedium {
            kept: vec![in alloc; 0u8; size]?,
        })
    }

    /// So many bytes from a place on, or fewer where the medium ends.
    pub fn part(&self, at: usize, len: usize) -> &[u8]
        ensures value { result.now ≡ slice self.now at len }
        ensures short { length result.now ≤ len }
    {
        let start = at.min(self.kept.len());
        &self.kept[start..start + len.min(self.kept.len() - start)]
    }

    /// Puts bytes over those from a place on.
    pub fn put(&mut self, at: usize, bytes: &[u8]) -> Result<(), Memory>
        ensures ok { OnOk result (self.new ≡ put self.old at bytes.now) }
        ensures err { OnErr result (self.new ≡ self.old) }
    {
        let start = at.min(self.kept.len());
        let over = bytes.len().min(self.kept.len() - start);
        self.append(&bytes[over..])?;
        self.put_within(start, &bytes[..over]);
        Ok(())
    }

    /// The same, where as many bytes stand there.
    fn put_within(&mut self, at: usize, bytes: &[u8])
        requires { at + length bytes.now ≤ length self.old }
        ensures { self.new ≡ put self.old at bytes.now }
    {
        self.kept[at..at + bytes.len()].copy_from_slice(bytes);
    }

    /// Puts the exclusive-or of bytes and those from a place on there.
    pub fn fold(&mut self, at: usize, bytes: &[u8]) -> Result<(), Memory>
        ensures ok { OnOk result (self.new ≡ put self.old at (xor (slice self.old at (length bytes.now)) bytes.now)) }
        ensures err { OnErr result (self.new ≡ self.old) }
    {
        let start = at.min(self.kept.len());
        let over = bytes.len().min(self.kept.len() - start);
        self.append(&bytes[over..])?;
        self.fold_within(start, &bytes[..over]);
        Ok(())
    }

    /// The same, where as many bytes stand there.
    fn fold_within(&mut self, at: usize, bytes: &[u8])
        requires { at + length bytes.now ≤ length self.old }
        ensures { self.new ≡ put self.old at (xor (slice self.old at (length bytes.now)) bytes.now) }
    {
        xor_into(&mut self.kept[at..at + bytes.len()], bytes);
    }

    fn append(&mut self, bytes: &[u8]) -> Result<(), Memory>
        ensures ok { OnOk result (self.new ≡ self.old ++ bytes.now) }
        ensures err { OnErr result (self.new ≡ self.old) }
    {
        self.kept.extend_from_slice(bytes)?;
        Ok(())
    }
}
