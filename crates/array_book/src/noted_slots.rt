//! The slots whose loss is noted: whether they have a new disk, and the rebuilds of their units that were opened since.

ghost use Rattle.std.specs.Prelude.{◌≡◌, ◌==◌, ◌&&◌, ◌-◌, ◌++◌, [], ◌∷◌, List, OnOk, OnErr, option_map, Option, Some, ℕ, length, take, true, false, if◌then◌else◌};
ghost use Rattle.array_journal.specs.declared.entry.Entry.{Entry};
ghost use Rattle.array_journal.specs.Lives.{is_unfitted};
ghost use Rattle.array_book.specs.Noted.{KeepsNoted, opened_in, since_note, since_opening, opened_since, unfitted_in};

use array_journal::{Kind, Task};
use blocks_core::Memory;
use std::alloc::Global;
use std::collections::BTreeMap;

/// A slot whose loss is noted.
#[derive(Debug, Drop)]
struct NotedSlot {
    /// It has a new disk.
    fitted: bool,
    /// The commands that were opened to rebuild its units since the note, by stripe.
    opened: BTreeMap<u32, Vec<u32>>,
}

impl NotedSlot {
    fn new(alloc: Global) -> NotedSlot
        ensures opened { (stripe : ℕ) → opened_in result stripe ≡ [] }
        ensures unfitted { result.fitted ≡ false }
    {
        NotedSlot {
            fitted: false,
            opened: BTreeMap::new(alloc),
        }
    }

    /// The commands of a stripe, oldest first.
    fn opened_for(&self, stripe: u32) -> &[u32]
        ensures { result.now ≡ opened_in self.now stripe }
    {
        match self.opened.get(&stripe) {
            Some(commands) => commands.as_slice(),
            None => &[],
        }
    }

    /// Puts one more command to those of a stripe.
    fn add(&mut self, alloc: Global, stripe: u32, command: u32) -> Result<(), Memory>
        ensures ok { OnOk result ((q : ℕ) → opened_in self.new q ≡ (if stripe == q then opened_in self.old q ++ command ∷ [] else opened_in self.old q)) }
        ensures err { OnErr result ((q : ℕ) → opened_in self.new q ≡ opened_in self.old q) }
        ensures fitted { self.new.fitted ≡ self.old.fitted }
    {
        match self.opened.get_mut(&stripe) {
            Some(commands) => commands.push(command)?,
            None => {
                let mut commands = Vec::new(alloc);
                commands.push(command)?;
                self.opened.insert(stripe, commands)?;
            }
        }
        Ok(())
    }

    /// Takes the newest command of a stripe away again.
    fn take_back(&mut self, stripe: u32)
        ensures opened { (q : ℕ) → opened_in self.new q ≡ (if stripe == q then take (length (opened_in self.old q) - 1) (opened_in self.old q) else opened_in self.old q) }
        ensures fitted { self.new.fitted ≡ self.old.fitted }
    {
        if let Some(commands) = self.opened.get_mut(&stripe) {
            let _ = commands.pop();
        }
    }
}

/// The noted slots.
#[derive(Debug, Drop)]
pub struct NotedSlots {
    noted: BTreeMap<usize, NotedSlot>,
}

impl NotedSlots {
    /// The slots that are noted in no entries.
    pub fn new(alloc: Global) -> NotedSlots
        ensures { KeepsNoted [] result }
    {
        NotedSlots {
            noted: BTreeMap::new(alloc),
        }
    }

    /// The commands that were opened to rebuild a unit since the newest note of its slot, oldest first.
    pub fn opened_since(&self, target: usize, stripe: u32) -> Option<&[u32]>
        ensures { (past : List Entry) → KeepsNoted past self.now → option_map (λ s. s.now) result ≡ opened_since target stripe past }
    {
        match self.noted.get(&target) {
            Some(slot) => Some(slot.opened_for(stripe)),
            None => None,
        }
    }

    /// Whether the newest note or swap of a slot is a note.
    pub fn is_unfitted(&self, slot: usize) -> bool
        ensures { (past : List Entry) → KeepsNoted past self.now → result ≡ is_unfitted slot past }
    {
        match self.noted.get(&slot) {
            Some(noted) => !noted.fitted,
            None => false,
        }
    }

    /// The loss of a slot is noted.
    pub fn note(&mut self, alloc: Global, slot: usize) -> Result<(), Memory>
        ensures since { OnOk result ((i q : ℕ) → since_note self.new i q ≡ (if slot == i then Some [] else since_note self.old i q)) }
        ensures unfitted { OnOk result ((i : ℕ) → unfitted_in self.new i ≡ (if slot == i then true else unfitted_in self.old i)) }
        ensures since_err { OnErr result ((i q : ℕ) → since_note self.new i q ≡ since_note self.old i q) }
        ensures unfitted_err { OnErr result ((i : ℕ) → unfitted_in self.new i ≡ unfitted_in self.old i) }
    {
        self.noted.insert(slot, NotedSlot::new(alloc))?;
        Ok(())
    }

    /// A slot gets a new disk.
    pub fn fit(&mut self, slot: usize)
        ensures since { (i q : ℕ) → since_note self.new i q ≡ since_note self.old i q }
        ensures unfitted { (i : ℕ) → unfitted_in self.new i ≡ (if slot == i then false else unfitted_in self.old i) }
    {
        if let Some(noted) = self.noted.get_mut(&slot) {
            noted.fitted = true;
        }
    }

    /// Puts one more command to the rebuilds of a unit, where its slot is noted.
    fn rebuild(
        &mut self,
        alloc: Global,
        target: usize,
        stripe: u32,
        command: u32,
    ) -> Result<(), Memory>
        ensures since { OnOk result ((i q : ℕ) → since_note self.new i q ≡ (if (target == i) && (stripe == q) then option_map (λ cs. cs ++ command ∷ []) (since_note self.old i q) else since_note self.old i q)) }
        ensures since_err { OnErr result ((i q : ℕ) → since_note self.new i q ≡ since_note self.old i q) }
        ensures unfitted { (i : ℕ) → unfitted_in self.new i ≡ unfitted_in self.old i }
    {
        if let Some(noted) = self.noted.get_mut(&target) {
            noted.add(alloc, stripe, command)?;
        }
        Ok(())
    }

    /// Takes the newest of them away again.
    fn take_back_rebuild(&mut self, target: usize, stripe: u32)
        ensures since { (i q : ℕ) → since_note self.new i q ≡ (if (target == i) && (stripe == q) then option_map (λ cs. take (length cs - 1) cs) (since_note self.old i q) else since_note self.old i q) }
        ensures unfitted { (i : ℕ) → unfitted_in self.new i ≡ unfitted_in self.old i }
    {
        if let Some(noted) = self.noted.get_mut(&target) {
            noted.take_back(stripe);
        }
    }

    /// A command with this task is opened.
    pub fn open(&mut self, alloc: Global, command: u32, task: &Task) -> Result<(), Memory>
        ensures since { OnOk result ((i q : ℕ) → since_note self.new i q ≡ since_opening i q command task.now (since_note self.old i q)) }
        ensures since_err { OnErr result ((i q : ℕ) → since_note self.new i q ≡ since_note self.old i q) }
        ensures unfitted { (i : ℕ) → unfitted_in self.new i ≡ unfitted_in self.old i }
    {
        if matches!(task.kind, Kind::Rebuild) {
            self.rebuild(alloc, usize::from(task.target), task.stripe, command)?;
        }
        Ok(())
    }

    /// Takes such an opening, the newest, out again.
    pub fn take_back(&mut self, task: &Task)
        ensures since { (i q command : ℕ) (before : Option (List ℕ)) → since_note self.old i q ≡ since_opening i q command task.now before → since_note self.new i q ≡ before }
        ensures unfitted { (i : ℕ) → unfitted_in self.new i ≡ unfitted_in self.old i }
    {
        if matches!(task.kind, Kind::Rebuild) {
            self.take_back_rebuild(usize::from(task.target), task.stripe);
        }
    }
}
