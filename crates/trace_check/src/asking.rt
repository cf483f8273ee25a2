//! Whether a journal is what a script's calls ask for.

ghost use Rattle.std.specs.Prelude.{◌≡◌, ◌&&◌, ◌<◌, ◌^◌, ◌↔◌, IsTrue, IfOk, length, reverse};
ghost use Rattle.host_scripts.specs.Scripts.{IsScript};
ghost use Rattle.stripe_check.specs.Asked.{IsAsked};
ghost use Rattle.trace_check.specs.Scans.{AreScanned};

mod calls;
mod causes;
mod deciding;
pub(crate) mod entry_scan;
mod entry_steps;
mod host_order;
mod noted_losses;
mod operator_calls;
mod owners;
mod piece_order;
mod steps_by_call;

use crate::asking::calls::are_served;
use crate::asking::entry_scan::{ScannedEntries, scan_entries};
use crate::asking::host_order::are_in_turn;
use crate::asking::noted_losses::NotedLosses;
use crate::asking::owners::is_none_open;
use array_journal::Journal;
use blocks_core::Memory;
use host_scripts::Script;
use journal_index::Past;
use std::alloc::Global;

fn are_all(in_turn: bool, served: bool, decided: bool, owned: bool, closed: bool) -> bool
    ensures { result ≡ (in_turn && served && decided && owned && closed) }
{
    in_turn && served && decided && owned && closed
}

/// Whether a journal is what the calls of a script ask for, by what a walk over its entries found. Takes memory for
/// the losses that they note and the steps of the calls.
pub(crate) fn is_asked(
    alloc: Global,
    script: &Script,
    journal: &Journal,
    scanned: &ScannedEntries,
) -> Result<bool, Memory>
    requires script { IsScript script.now }
    requires calls { length script.now.calls < 2 ^ 32 }
    requires few { length journal.now < 2 ^ 32 }
    requires scanned { AreScanned script.now (reverse journal.now) scanned.now }
    ensures { IfOk result (λ asked. IsTrue asked ↔ IsAsked script.now journal.now) }
{
    let entries = journal.as_slice();
    let scan = &scanned.scan;
    let entry_steps = scan.entry_steps.as_slice();
    let past = Past::new(entries, &scanned.index);
    let noted = NotedLosses::new(alloc, &past)?;
    let served = are_served(alloc, script, &noted, entry_steps)?;
    let in_turn = are_in_turn(script, entry_steps);
    let closed = is_none_open(&past);
    Ok(are_all(in_turn, served, scan.decided, scan.owned, closed))
}

/// Whether a journal is what the calls of a script ask for: each host's calls one after another, each
/// call with the entries that it asks for, each piece begun as the book decides, no entry of no call,
/// and no command left open. It isn't asked whether the journal is a run. Takes memory for the steps of
/// the entries, their index, the losses that they note and the steps of the calls. Each entry costs a few
/// lookups, as in `run_fault`, and each host looks through all steps once.
pub fn asked(alloc: Global, script: &Script, journal: &Journal) -> Result<bool, Memory>
    requires script { IsScript script.now }
    requires calls { length script.now.calls < 2 ^ 32 }
    requires few { length journal.now < 2 ^ 32 }
    ensures { IfOk result (λ asked. IsTrue asked ↔ IsAsked script.now journal.now) }
{
    let scanned = scan_entries(alloc, script, journal)?;
    is_asked(alloc, script, journal, &scanned)
}
