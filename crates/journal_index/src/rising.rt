//! Places by keys that rise.

ghost use Rattle.std.specs.Prelude.{◌≡◌, ◌==◌, ◌<◌, ◌^◌, ℕ, OnOk, Some, None, slice_get, if◌then◌else◌};
ghost use Rattle.journal_index.specs.Rising.{AreRising, place_among, place_for, place_in};

use blocks_core::Memory;
use std::alloc::Global;
use std::collections::BTreeMap;

/// A place with its key.
#[derive(Clone, Copy, Debug)]
pub struct KeyedPlace {
    key: u128,
    place: usize,
}

/// Places by keys. Those whose keys rise are put behind one another, and are found by halving: that costs no search when a
/// place is put in. Keys may come in any order all the same: the others lie in a map.
#[derive(Debug, Drop)]
pub struct RisingPlaces {
    rising: Vec<KeyedPlace>,
    /// Above each of their keys.
    bound: u128,
    /// Each was put in after a greater key, so it is newer than what the same key has among the rising ones.
    others: BTreeMap<u128, usize>,
}

/// The place at a position, where its key is this one.
fn place_at(placed: &[KeyedPlace], at: usize, key: u128) -> Option<usize>
    ensures { result ≡ place_for key (slice_get placed.now at) }
{
    match placed.get(at) {
        Some(found) => {
            if found.key == key {
                Some(found.place)
            } else {
                None
            }
        }
        None => None,
    }
}

impl RisingPlaces {
    /// No places. Takes no memory.
    pub fn new(alloc: Global) -> RisingPlaces
        ensures rises { AreRising result }
        ensures places { (k : ℕ) → place_in result k ≡ None }
    {
        RisingPlaces {
            rising: Vec::new(alloc),
            bound: 0,
            others: BTreeMap::new(alloc),
        }
    }

    /// The place of a key among the rising ones.
    fn risen(&self, key: u128) -> Option<usize>
        ensures { AreRising self.now → result ≡ place_among self.now.rising.items key }
    {
        let rising = self.rising.as_slice();
        let at = rising.partition_point(|placed| placed.key < key);
        place_at(rising, at, key)
    }

    /// The place of a key: the newest that it got.
    pub fn get(&self, key: u128) -> Option<usize>
        ensures { AreRising self.now → result ≡ place_in self.now key }
    {
        match self.others.get(&key) {
            Some(place) => Some(*place),
            None => self.risen(key),
        }
    }

    /// Gives a key a place.
    pub fn put(&mut self, key: u128, place: usize) -> Result<(), Memory>
        requires { key < 2 ^ 127 }
        ensures rises { OnOk result (AreRising self.old → AreRising self.new) }
        ensures places { OnOk result (AreRising self.old → (k : ℕ) → place_in self.new k ≡ (if key == k then Some place else place_in self.old k)) }
    {
        if self.bound <= key && !self.others.contains_key(&key) {
            self.rising.push(KeyedPlace { key, place })?;
            self.bound = key + 1;
        } else {
            self.others.insert(key, place)?;
        }
        Ok(())
    }
}
