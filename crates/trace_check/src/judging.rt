//! Both judges in one walk over a journal: what each asks of an entry it asks over the same index of the
//! entries before it.

ghost use Rattle.std.specs.Prelude.{◌<◌, ◌^◌, IfOk, length, reverse};
ghost use Rattle.array_journal.specs.Run.{Run};
ghost use Rattle.host_requests.specs.Settings.{setting_of};
ghost use Rattle.array_journal.specs.Merge.{Rises};
ghost use Rattle.host_scripts.specs.Scripts.{IsScript};
ghost use Rattle.trace_check.specs.Scans.{IsRunScan, AreScanned};
ghost use Rattle.trace_check.specs.Verdicts.{IsVerdictOn};

use crate::asking::entry_scan::{EntryScan, ScannedEntries};
use crate::asking::is_asked;
use array_journal::Journal;
use blocks_core::Memory;
use host_requests::setting_of;
use host_scripts::Script;
use journal_index::Past;
use run_check::RunState;
use std::alloc::Global;

/// What a journal is found to be for a script.
#[derive(Clone, Copy, Debug, PartialEq, Eq)]
pub(crate) enum RunVerdict {
    /// This entry, counted from 1, is the first that may not follow the ones before.
    Faulty { entry: u32 },
    /// It is a run, but not what the script's calls ask for.
    Unasked,
    /// It is a run, and what the script's calls ask for.
    Asked,
}

/// What the walk over a journal finds.
#[derive(Debug, Drop)]
pub(crate) enum RunScan {
    /// This entry, counted from 1, is the first that may not follow the ones before.
    Faulty { entry: u32 },
    /// It is a run, whose entries tell this.
    Run { scanned: ScannedEntries },
}

/// Goes over a journal up to the first entry that may not follow the ones before it.
fn scan_run(alloc: Global, script: &Script, journal: &Journal) -> Result<RunScan, Memory>
    requires script { IsScript script.now }
    requires rises { Rises journal.now }
    requires few { length journal.now < 2 ^ 32 }
    ensures { IfOk result (λ found. IsRunScan script.now journal.now found) }
{
    let setting = setting_of(script);
    let entries = journal.as_slice();
    let mut scan = EntryScan::new(alloc);
    let mut state = RunState::new(alloc, &setting)?;
    for (place, entry) in entries.iter().enumerate() {
        let past = Past::new(&entries[..place], &state.index);
        scan.add(script, &past, entry)?;
        let follows = state.follow(alloc, &setting, &entries[..place], entry)?;
        if !follows {
            return Ok(RunScan::Faulty {
                entry: place as u32 + 1,
            });
        }
    }
    Ok(RunScan::Run {
        scanned: ScannedEntries {
            scan,
            index: state.into_index(),
        },
    })
}

/// Whether a journal is a run, and what the calls of a script ask for. Takes the memory of `run_fault` and
/// of `asked`, with one index for both.
pub(crate) fn judge_journal(
    alloc: Global,
    script: &Script,
    journal: &Journal,
) -> Result<RunVerdict, Memory>
    requires script { IsScript script.now }
    requires calls { length script.now.calls < 2 ^ 32 }
    requires rises { Rises journal.now }
    requires few { length journal.now < 2 ^ 32 }
    ensures { IfOk result (λ verdict. IsVerdictOn script.now journal.now verdict) }
{
    match scan_run(alloc, script, journal)? {
        RunScan::Faulty { entry } => Ok(RunVerdict::Faulty { entry }),
        RunScan::Run { scanned } => judge_calls(alloc, script, journal, &scanned),
    }
}

/// The same of a run, by what the walk over its entries found.
fn judge_calls(
    alloc: Global,
    script: &Script,
    journal: &Journal,
    scanned: &ScannedEntries,
) -> Result<RunVerdict, Memory>
    requires script { IsScript script.now }
    requires calls { length script.now.calls < 2 ^ 32 }
    requires few { length journal.now < 2 ^ 32 }
    requires run { Run (setting_of script.now) journal.now }
    requires scanned { AreScanned script.now (reverse journal.now) scanned.now }
    ensures { IfOk result (λ verdict. IsVerdictOn script.now journal.now verdict) }
{
    if is_asked(alloc, script, journal, scanned)? {
        Ok(RunVerdict::Asked)
    } else {
        Ok(RunVerdict::Unasked)
    }
}
