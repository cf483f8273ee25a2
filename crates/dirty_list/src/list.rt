//! The list itself.

ghost use Rattle.std.specs.Prelude.{◌≡◌, ◌==◌, ◌&&◌, ℕ, [], not, is_some, length, OnOk, OnErr, Some, None, if◌then◌else◌};
ghost use Rattle.dirty_list.specs.Listings.{command_of, listed_with, put_in, without};

use blocks_core::Memory;
use std::alloc::Global;
use std::collections::BTreeMap;
use std::marker::Model;

/// Listed stripes in rising order, each with the command that it was listed for first.
#[derive(Debug, Drop)]
pub struct DirtyList {
    listed: BTreeMap<u32, u32>,
}

impl Model for DirtyList {
    ghost use Rattle.std.specs.Prelude.{◌<◌, ◌^◌, List, ℕ, length};

    ghost Value = { List (ℕ × ℕ) };

    ghost view = { λ d. d.listed.entries };

    ghost invariant = { λ d. length d.listed.entries < 2 ^ 32 };
}

impl DirtyList {
    /// No stripes. Takes no memory.
    pub fn new(alloc: Global) -> DirtyList
        ensures { result ≡ [] }
    {
        DirtyList {
            listed: BTreeMap::new(alloc),
        }
    }

    /// Lists a stripe for a command. A stripe that is listed already keeps its first command. One more
    /// stripe than a `u32` counts is want of memory.
    pub fn list(&mut self, stripe: u32, command: u32) -> Result<(), Memory>
        ensures ok { OnOk result (self.new ≡ listed_with stripe command self.old) }
        ensures found { OnOk result ((s : ℕ) → command_of s self.new ≡ (if (stripe == s) && not (is_some (command_of s self.old)) then Some command else command_of s self.old)) }
        ensures err { OnErr result (self.new ≡ self.old) }
    {
        match self.find(stripe) {
            Some(_) => Ok(()),
            None => self.add(stripe, command),
        }
    }

    /// The same for a stripe that isn't listed.
    fn add(&mut self, stripe: u32, command: u32) -> Result<(), Memory>
        requires { command_of stripe self.old ≡ None }
        ensures ok { OnOk result (self.new ≡ put_in stripe command self.old) }
        ensures found { OnOk result ((s : ℕ) → command_of s self.new ≡ (if stripe == s then Some command else command_of s self.old)) }
        ensures err { OnErr result (self.new ≡ self.old) }
    {
        if self.listed.len() >= u32::MAX as usize {
            return Err(Memory);
        }
        self.listed.insert(stripe, command)?;
        Ok(())
    }

    /// Takes a stripe from the list.
    pub fn clear(&mut self, stripe: u32)
        ensures list { self.new ≡ without stripe self.old }
        ensures found { (s : ℕ) → command_of s self.new ≡ (if stripe == s then None else command_of s self.old) }
    {
        self.listed.remove(&stripe);
    }

    /// The command that a stripe is listed for. Costs a lookup.
    pub fn find(&self, stripe: u32) -> Option<u32>
        ensures { result ≡ command_of stripe self.now }
    {
        self.listed.get(&stripe).copied()
    }

    /// How many stripes are listed.
    pub fn len(&self) -> u32
        ensures { result ≡ length self.now }
    {
        self.listed.len() as u32
    }
}
