//! The first entry of a journal that may not follow the ones before it.

ghost use Rattle.std.specs.Prelude.{◌<◌, ◌^◌, ◌↔◌, IsNone, IfOk, IfSome, length};
ghost use Rattle.array_journal.specs.Merge.{Rises};
ghost use Rattle.array_journal.specs.Run.{IsSetting, Run};
ghost use Rattle.run_check.specs.Faults.{IsFirstFault};

use crate::state::RunState;
use array_journal::{Journal, Setting};
use blocks_core::Memory;
use std::alloc::Global;

/// The number, from 1, of the first entry of a journal that may not follow the ones before it. None
/// exactly where the journal is a run. The journal's names rise, and the setting is in its ranges. Takes
/// memory for an index of the entries so far, for the media and the buffers of all targets, and for the
/// deltas that diffs sent or handed back. Most entries cost a few lookups. An opening, a swap and the end
/// of a command also go through the commands that are open, what asks for a slot's swaps goes through
/// these, and what asks whether a unit is missing through its rebuilds since its slot was noted.
pub fn run_fault(alloc: Global, setting: &Setting, journal: &Journal) -> Result<Option<u32>, Memory>
    requires in_range { IsSetting setting.now }
    requires rises { Rises journal.now }
    requires few { length journal.now < 2 ^ 32 }
    ensures run { IfOk result (λ number. IsNone number ↔ Run setting.now journal.now) }
    ensures first { IfOk result (λ number. IfSome number (IsFirstFault setting.now journal.now)) }
{
    let entries = journal.as_slice();
    let mut state = RunState::new(alloc, setting)?;
    for (place, entry) in entries.iter().enumerate() {
        let follows = state.follow(alloc, setting, &entries[..place], entry)?;
        if !follows {
            return Ok(Some(place as u32 + 1));
        }
    }
    Ok(None)
}
