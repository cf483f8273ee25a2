//! What one walk over the entries of a journal finds.

ghost use Rattle.std.specs.Prelude.{[], ◌∷◌, IfOk, OnOk, reverse};
ghost use Rattle.host_scripts.specs.declared.script.Script.{Script};
ghost use Rattle.host_scripts.specs.Scripts.{IsScript};
ghost use Rattle.trace_check.specs.Scans.{IsScanOf, AreScanned};

use crate::asking::deciding::{both, is_decided};
use crate::asking::entry_steps::{EntryStep, entry_step_of};
use crate::asking::owners::is_owned;
use array_journal::{Entry, Journal};
use blocks_core::Memory;
use host_scripts::Script;
use journal_index::{Index, Past};
use std::alloc::Global;

/// The steps of entries, and whether each is decided as the book decides and belongs to a call.
#[derive(Debug, Drop)]
pub struct EntryScan {
    pub entry_steps: Vec<EntryStep>,
    pub decided: bool,
    pub owned: bool,
}

/// What the entries of a journal tell, and their index.
#[derive(Debug, Drop)]
pub struct ScannedEntries {
    pub scan: EntryScan,
    pub index: Index,
}

impl EntryScan {
    /// What no entries tell. Takes no memory.
    pub fn new(alloc: Global) -> EntryScan
        ensures { (script : Script) → IsScanOf script [] result }
    {
        EntryScan {
            entry_steps: Vec::new(alloc),
            decided: true,
            owned: true,
        }
    }

    /// Takes one more entry in, which is judged over the entries before it.
    pub fn add(&mut self, script: &Script, past: &Past, entry: &Entry) -> Result<(), Memory>
        requires { IsScript script.now }
        ensures { OnOk result (IsScanOf script.now past.now self.old → IsScanOf script.now (entry.now ∷ past.now) self.new) }
    {
        let entry_step = entry_step_of(past, entry);
        let decided = is_decided(script, past, &entry.event);
        let owned = is_owned(script, &entry.event, entry_step.call);
        self.entry_steps.push(entry_step)?;
        self.decided = both(decided, self.decided);
        self.owned = both(owned, self.owned);
        Ok(())
    }
}

/// Goes over the entries of a journal once. Each is judged over the entries before it, so the index takes
/// it in last.
pub fn scan_entries(
    alloc: Global,
    script: &Script,
    journal: &Journal,
) -> Result<ScannedEntries, Memory>
    requires { IsScript script.now }
    ensures { IfOk result (λ scanned. AreScanned script.now (reverse journal.now) scanned) }
{
    let entries = journal.as_slice();
    let mut scan = EntryScan::new(alloc);
    let mut index = Index::new(alloc);
    for (place, entry) in entries.iter().enumerate() {
        let past = Past::new(&entries[..place], &index);
        scan.add(script, &past, entry)?;
        index.add(alloc, &entries[..place], entry)?;
    }
    Ok(ScannedEntries { scan, index })
}
