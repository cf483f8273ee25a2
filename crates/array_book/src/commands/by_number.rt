//! Values by the numbers of commands.

ghost use Rattle.std.specs.Prelude.{◌≡◌, ◌==◌, ℕ, OnOk, OnErr, Some, None, if◌then◌else◌};
ghost use Rattle.array_book.specs.Numbered.{value_of};

use blocks_core::Memory;
use std::alloc::Global;
use std::collections::BTreeMap;

/// Values by the numbers of commands. The book numbers commands from 0 as it opens them, so most values lie in a
/// row, where none is searched for. Entries that are no run may have any numbers: their values lie in a map, since
/// a row would take room for all numbers below.
#[derive(Debug, Drop)]
pub struct ByNumber<T> {
    row: Vec<T>,
    others: BTreeMap<u32, T>,
}

impl<T: Copy> ByNumber<T> {
    /// No values. Takes no memory.
    pub fn new(alloc: Global) -> ByNumber<T>
        ensures { (c : ℕ) → value_of result c ≡ None }
    {
        ByNumber {
            row: Vec::new(alloc),
            others: BTreeMap::new(alloc),
        }
    }

    /// The value of a number.
    pub fn get(&self, number: u32) -> Option<T>
        ensures { result ≡ value_of self.now number }
    {
        match self.row.get(number as usize) {
            Some(value) => Some(*value),
            None => self.others.get(&number).copied(),
        }
    }

    /// Gives a number a value, in the place of the one that it had. After want of memory nothing has changed.
    pub fn put(&mut self, number: u32, value: T) -> Result<(), Memory>
        ensures ok { OnOk result ((c : ℕ) → value_of self.new c ≡ (if number == c then Some value else value_of self.old c)) }
        ensures err { OnErr result ((c : ℕ) → value_of self.new c ≡ value_of self.old c) }
    {
        let place = number as usize;
        if place < self.row.len() {
            self.row[place] = value;
        } else if place == self.row.len() {
            self.row.push(value)?;
        } else {
            self.others.insert(number, value)?;
        }
        Ok(())
    }
}
