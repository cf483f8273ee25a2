ghost use Rattle.std.specs.Prelude.{◌≡◌, ℕ, ◌≤◌, ◌<◌, ◌+◌, ◌^◌, [], ◌∷◌, ◌++◌, length, OnOk, OnErr, IfOk, slice_get};
ghost use Rattle.std.specs.List.Sorted.{IsPermutation};
ghost use Rattle.array_journal.specs.EntryLists.{lists_in};
ghost use Rattle.array_journal.specs.Merge.{joined, Rises, HaveOwnNames, AreOfLocks, NeverFalls};
ghost use Rattle.array_journal.specs.OneJournal.{journal_of, AreKept};
ghost use Rattle.std.specs.Option.{option_copied};

use crate::entry::Entry;
use blocks_core::Memory;
use std::alloc::Global;
use std::marker::Model;

/// The entries of a run over all locks, the oldest first.
#[derive(Debug, Drop)]
pub struct Journal {
    kept: Vec<Entry>,
}

impl Model for Journal {
    ghost use Rattle.std.specs.Prelude.{List};
    ghost use Rattle.array_journal.specs.declared.entry.Entry.{Entry};

    ghost Value = { List Entry };

    ghost view = { λ j. j.kept.items };
}

impl Journal {
    /// No entries. Takes no memory.
    pub fn new(alloc: Global) -> Journal
        ensures { result ≡ [] }
    {
        Journal {
            kept: Vec::new(alloc),
        }
    }

    /// Puts one entry at the end.
    pub fn push(&mut self, entry: Entry) -> Result<(), Memory>
        ensures ok { OnOk result (self.new ≡ self.old ++ entry ∷ []) }
        ensures err { OnErr result (self.new ≡ self.old) }
    {
        self.kept.push(entry)?;
        Ok(())
    }

    pub fn len(&self) -> usize
        ensures { result ≡ length self.now }
    {
        self.kept.len()
    }

    pub fn get(&self, place: usize) -> Option<&Entry>
        ensures { option_copied result ≡ slice_get self.now place }
    {
        self.kept.get(place)
    }

    pub fn as_slice(&self) -> &[Entry]
        ensures { result.now ≡ self.now }
    {
        self.kept.as_slice()
    }

    /// The entries as those of one lock are kept, for `merge`. Takes no memory.
    pub fn into_entries(self) -> Entries
        ensures { result.list ≡ self }
    {
        let Journal { kept } = self;
        Entries { kept }
    }
}

/// The entries of one lock, the oldest first, with room for more.
#[derive(Debug, Drop)]
pub struct Entries {
    kept: Vec<Entry>,
}

impl Model for Entries {
    ghost use Rattle.std.specs.Prelude.{◌-◌, length, vec_capacity};
    ghost use Rattle.array_journal.specs.EntryLists.{EntryList};

    ghost Value = { EntryList };

    ghost view = { λ j. record { list = j.kept.items; room = vec_capacity j.kept - length j.kept.items } };
}

impl Entries {
    /// No entries. Takes no memory.
    pub fn new(alloc: Global) -> Entries
        ensures { result.list ≡ [] }
    {
        Entries {
            kept: Vec::new(alloc),
        }
    }

    /// Makes room for so many entries more.
    pub fn reserve(&mut self, count: usize) -> Result<(), Memory>
        ensures ok { OnOk result (count ≤ self.new.room) }
        ensures more { self.old.room ≤ self.new.room }
        ensures same { self.new.list ≡ self.old.list }
        ensures err { OnErr result (self.new ≡ self.old) }
    {
        self.kept.reserve(count)?;
        Ok(())
    }

    /// Puts one entry at the end, into the room that there is.
    pub fn push_within(&mut self, entry: Entry)
        requires { 1 ≤ self.old.room }
        ensures list { self.new.list ≡ self.old.list ++ entry ∷ [] }
        ensures few { length self.new.list < 2 ^ 63 }
        ensures room { self.old.room ≤ self.new.room + 1 }
    {
        self.kept.push_reserved(entry);
    }

    /// Puts one entry at the end.
    pub fn push(&mut self, entry: Entry) -> Result<(), Memory>
        ensures ok { OnOk result (self.new.list ≡ self.old.list ++ entry ∷ []) }
        ensures err { OnErr result (self.new.list ≡ self.old.list) }
    {
        self.kept.push(entry)?;
        Ok(())
    }

    pub fn len(&self) -> usize
        ensures { result ≡ length self.now.list }
    {
        self.kept.len()
    }

    pub fn get(&self, place: usize) -> Option<&Entry>
        ensures { option_copied result ≡ slice_get self.now.list place }
    {
        self.kept.get(place)
    }

    pub fn as_slice(&self) -> &[Entry]
        ensures { result.now ≡ self.now.list }
    {
        self.kept.as_slice()
    }
}

/// The journal of some lists, as those of the array's locks: each entry of each list once, in the
/// order of stamps, and of locks where stamps are equal, whatever the lists are; entries of one name in
/// any order among themselves. The entries are moved, in n log n steps.
pub fn merge(alloc: Global, lists: Vec<Entries>) -> Result<Journal, Memory>
    ensures same { IfOk result (λ journal. IsPermutation (joined (lists_in lists.items)) journal) }
    ensures ordered { IfOk result (λ journal. NeverFalls journal) }
    ensures in_order { IfOk result (λ journal. HaveOwnNames (joined (lists_in lists.items)) → Rises journal) }
    ensures of_locks { IfOk result (λ journal. AreOfLocks 0 (lists_in lists.items) → Rises journal) }
    ensures one { (stamp : ℕ) → AreKept stamp (lists_in lists.items) → IfOk result (λ journal. journal ≡ journal_of (lists_in lists.items)) }
{
    let mut kept = Vec::new(alloc);
    for list in lists {
        let Entries { kept: mut entries } = list;
        kept.append(&mut entries)?;
    }
    // Unstable, since a stable sort takes memory. Names of a run differ, so there is nothing that it could
    // mix up.
    kept.sort_unstable_by_key(|entry| (entry.stamp, entry.lock));
    Ok(Journal { kept })
}
