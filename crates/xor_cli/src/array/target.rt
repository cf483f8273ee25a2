ghost use Rattle.std.specs.Prelude.{◌≡◌, ◌+◌, ◌≤◌, [], ◌∷◌, ◌++◌, length, IfOk, OnOk};
ghost use Rattle.blocks_core.specs.Xor.{xor, zeros};
ghost use Rattle.blocks_core.specs.Lists.{slice, put};

use array_journal::{Entries, Entry, Journal};
use blocks_core::{Bytes, Memory, xor_into};
use std::alloc::Global;
use std::marker::Model;
use std::mem;

/// A disk in memory: its medium, the delta that it holds for the command at work (SBC, the XOR
/// commands), and the entries of its lock.
#[derive(Debug, Drop)]
pub struct Target {
    medium: Vec<u8>,
    held: Bytes,
    entries: Journal,
}

impl Model for Target {
    ghost use Rattle.xor_cli.specs.Disks.{Lane};

    ghost Value = { Lane };

    ghost view = { λ t. record { disk = record { medium = t.medium.items; held = t.held }; entries = t.entries } };
}

impl Target {
    /// A disk of so many zero bytes that holds nothing, and at which nothing happened.
    pub fn new(alloc: Global, size: usize) -> Result<Target, Memory>
        ensures { IfOk result (λ t. t ≡ record { disk = record { medium = zeros size; held = [] }; entries = [] }) }
    {
        Ok(Target {
            medium: vec![in alloc; 0; size]?,
            held: Bytes::new(alloc),
            entries: Journal::new(alloc),
        })
    }

    /// READ: so many bytes of the medium.
    pub fn read(&self, at: usize, len: usize) -> &[u8]
        requires { at + len ≤ length self.now.disk.medium }
        ensures { result.now ≡ slice self.now.disk.medium at len }
    {
        &self.medium[at..at + len]
    }

    /// XDWRITE: writes the bytes, and holds their exclusive-or with what stood there.
    pub fn xdwrite(&mut self, alloc: Global, at: usize, bytes: &[u8]) -> Result<(), Memory>
        requires { at + length bytes.now ≤ length self.old.disk.medium }
        ensures { OnOk result (self.new ≡ record self.old {
          disk = record {
            medium = put self.old.disk.medium at bytes.now;
            held = xor (slice self.old.disk.medium at (length bytes.now)) bytes.now;
          };
        }) }
    {
        let medium = self.medium.as_mut_slice();
        let end = at + bytes.len();
        let mut delta = Vec::from_slice(alloc, &medium[at..end])?;
        xor_into(&mut delta, bytes);
        medium[at..end].copy_from_slice(bytes);
        self.held = Bytes::from_vec(delta);
        Ok(())
    }

    /// XDREAD: hands out what is held, and holds it no longer.
    pub fn xdread(&mut self, alloc: Global) -> Bytes
        ensures taken { result ≡ self.old.disk.held }
        ensures released { self.new ≡ record self.old { disk = record self.old.disk { held = [] } } }
    {
        mem::replace(&mut self.held, Bytes::new(alloc))
    }

    /// XPWRITE: folds a delta into the medium.
    pub fn xpwrite(&mut self, at: usize, delta: &[u8])
        requires { at + length delta.now ≤ length self.old.disk.medium }
        ensures { self.new ≡ record self.old {
          disk = record self.old.disk {
            medium = put self.old.disk.medium at (xor (slice self.old.disk.medium at (length delta.now)) delta.now);
          };
        } }
    {
        let medium = self.medium.as_mut_slice();
        let end = at + delta.len();
        xor_into(&mut medium[at..end], delta);
    }

    /// Puts one entry at the end of its lock's.
    pub fn keep(&mut self, entry: Entry) -> Result<(), Memory>
        ensures { OnOk result (self.new ≡ record self.old { entries = self.old.entries ++ entry ∷ [] }) }
    {
        self.entries.push(entry)?;
        Ok(())
    }

    /// The entries of its lock.
    pub fn into_entries(self) -> Entries
        ensures { result.list ≡ self.entries }
    {
        let Target {
            medium: _,
            held: _,
            entries,
        } = self;
        entries.into_entries()
    }
}
