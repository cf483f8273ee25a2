//! Where the opening of each command stands.

ghost use Rattle.std.specs.Prelude.{◌≡◌, ◌==◌, ◌+◌, ℕ, OnOk, OnErr, [], Some, if◌then◌else◌};
ghost use Rattle.array_book.specs.Numbered.{value_of};
ghost use Rattle.array_book.specs.Openings.{KeepsOpenings};

use crate::commands::by_number::ByNumber;
use blocks_core::Memory;
use std::alloc::Global;

/// The place of the newest opening of each command, and how many openings there are.
#[derive(Debug, Drop)]
pub struct Openings {
    places: ByNumber<usize>,
    count: usize,
}

impl Openings {
    /// No openings. Takes no memory.
    pub fn new(alloc: Global) -> Openings
        ensures { KeepsOpenings [] result }
    {
        Openings {
            places: ByNumber::new(alloc),
            count: 0,
        }
    }

    /// One more opening, at a place.
    pub fn add(&mut self, command: u32, place: usize) -> Result<(), Memory>
        ensures places { OnOk result ((c : ℕ) → value_of self.new.places c ≡ (if command == c then Some place else value_of self.old.places c)) }
        ensures count { OnOk result (self.new.count ≡ self.old.count + 1) }
        ensures places_err { OnErr result ((c : ℕ) → value_of self.new.places c ≡ value_of self.old.places c) }
        ensures count_err { OnErr result (self.new.count ≡ self.old.count) }
    {
        // More openings than a usize counts don't lie in memory: so the answer is want of memory, and no
        // condition on each caller.
        let count = self.count.checked_add(1).ok_or(Memory)?;
        self.places.put(command, place)?;
        self.count = count;
        Ok(())
    }

    /// Where the newest opening of a command stands.
    pub fn place_of(&self, command: u32) -> Option<usize>
        ensures { result ≡ value_of self.now.places command }
    {
        self.places.get(command)
    }

    /// How many openings there are.
    pub fn count(&self) -> usize
        ensures { result ≡ self.now.count }
    {
        self.count
    }
}
