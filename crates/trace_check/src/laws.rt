//! Laws of the journals that a script's calls ask for, and of what is printed of them: the contracts of
//! functions that only prove.

ghost use Rattle.std.specs.Prelude.{◌≡◌, ◌≤◌, None, length};
ghost use Rattle.array_journal.specs.Run.{Run};
ghost use Rattle.host_scripts.specs.Scripts.{IsScript};
ghost use Rattle.host_scripts.specs.Limits.{limit_of};
ghost use Rattle.outer_io.specs.Outside.{input_limit};
ghost use Rattle.stripe_check.specs.Asked.{IsAsked};
ghost use Rattle.host_requests.specs.Settings.{setting_of};
ghost use Rattle.trace_check.specs.Findings.{IsAccepted};
ghost use Rattle.trace_check.specs.Laws.{ToldJournalsLaw, printed};

use array_journal::Journal;
use host_scripts::Script;
use journal_text::printed_is_read;

/// A trace tells all of a journal that a script's calls ask for: no sense in it has information, command
/// specific information or a field replaceable unit, or points at a bit or out of the CDB.
pub fn asked_journals_are_told()
    ensures told { ToldJournalsLaw }
{}

/// What is printed of a run is accepted: of each script within its limits and each journal in memory that
/// is a run and what the script's calls ask for. The script, the line `output`, the report and the trace,
/// in this order and within the limit of an input, are parted back into just these, and the trace is read
/// as this journal.
pub fn printed_runs_are_accepted(script: &Script, journal: &Journal)
    requires script { IsScript script.now }
    requires within { limit_of script.now ≡ None }
    requires run { Run (setting_of script.now) journal.now }
    requires asked { IsAsked script.now journal.now }
    requires short { length (printed script.now journal.now) ≤ input_limit }
    ensures { IsAccepted (printed script.now journal.now) script.now journal.now }
{
    printed_is_read(journal);
}
