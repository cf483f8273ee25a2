//! What a check of an input comes to.

ghost use Rattle.std.specs.Prelude.{◌≡◌, ◌≤◌, ◌<◌, ◌+◌, ◌^◌, ℕ, List, None, IfOk, IfErr, IfSome, IsTrue, IsFalse, MatchResult, length};
ghost use Rattle.array_journal.specs.declared.entry.Entry.{Entry};
ghost use Rattle.array_journal.specs.Merge.{Rises};
ghost use Rattle.array_journal.specs.Run.{Run};
ghost use Rattle.host_scripts.specs.declared.script.Script.{Script};
ghost use Rattle.host_scripts.specs.Scripts.{IsScript, SpellsScript};
ghost use Rattle.host_scripts.specs.Limits.{limit_of};
ghost use Rattle.outer_io.specs.Outside.{input_limit};
ghost use Rattle.stripe_check.specs.Asked.{IsAsked};
ghost use Rattle.host_requests.specs.Settings.{setting_of};
ghost use Rattle.trace_check.specs.Findings.{IsFound, IsFoundIn, IsFoundOf, IsReported, IsRunIn, IsScriptFault, IsTraceFault, IsJournalOf};
ghost use Rattle.program_status.specs.Words.{texts};
ghost use Rattle.program_status.specs.Endings.{AfterReading, IsInputTaken};
ghost use Rattle.trace_check.specs.Endings.{AsksCheck, IsTold, IsRunOf, StopsBy, StopsCheck, StopsFor};
ghost use Rattle.trace_check.specs.Notes.{accepted_line};

use crate::checking::findings::{CheckFinding, accepted_line};
use crate::checking::lines::{differing_line, line_ends};
use crate::checking::parting::parts;
use crate::judging::{RunVerdict, judge_journal};
use array_journal::Journal;
use blocks_core::Bytes;
use host_scripts::{Cause, Script, ScriptFault, over, parse};
use journal_text::{TraceFault, read_trace};
use outer_io::{READ_LIMIT, Source, read_input};
use program_status::{ProgramStop, found, single_word};
use std::alloc::Global;
use stripe_check::report;

#[tactic(auto, using(crate::proofs::Asks::asks_yes, crate::proofs::Asks::asks_no, crate::proofs::Asks::asks_none))]
fn asks_check(words: &[String]) -> bool
    ensures yes { IsTrue result → AsksCheck (texts words.now) }
    ensures no { IsFalse result → AsksCheck (texts words.now) → ⊥ }
{
    match single_word(words) {
        Some(word) => word == "check",
        None => false,
    }
}

/// Does what the words ask for, up to the line that is to be written.
pub(crate) fn work<S: Source>(
    alloc: Global,
    words: &[String],
    source: &mut S,
) -> Result<Bytes, ProgramStop<CheckFinding>>
    ensures told { IfOk result (λ text. IsTold (texts words.now) (S.left source.old) text) }
    ensures stop { IfErr result (λ stop. StopsFor (texts words.now) (S.left source.old) (S.faults source.old) (S.faults source.new) stop) }
    // The source is read for a check alone.
    ensures taken { AsksCheck (texts words.now) → MatchResult result (λ _. IsInputTaken (S.left source.old) (S.left source.new)) (λ stop. AfterReading (IsInputTaken (S.left source.old) (S.left source.new)) stop) }
    ensures unread { (AsksCheck (texts words.now) → ⊥) →
        (S.left source.new ≡ S.left source.old) × (S.faults source.new ≡ S.faults source.old) }
{
    if asks_check(words) {
        source_line(alloc, source)
    } else {
        Err(ProgramStop::Usage)
    }
}

/// The line of the input that the source gives.
fn source_line<S: Source>(alloc: Global, source: &mut S) -> Result<Bytes, ProgramStop<CheckFinding>>
    ensures told { IfOk result (λ text. (entries : ℕ) × (IfSome (S.left source.old) (λ bytes. IsRunOf bytes entries) × (text ≡ accepted_line entries))) }
    ensures stop { IfErr result (λ stop. StopsCheck (S.left source.old) (S.faults source.old) (S.faults source.new) stop) }
    ensures taken { MatchResult result (λ _. IsInputTaken (S.left source.old) (S.left source.new)) (λ stop. AfterReading (IsInputTaken (S.left source.old) (S.left source.new)) stop) }
{
    let input = read_input(alloc, source)?;
    input_line(alloc, input.as_slice())
}

/// The line of an input.
fn input_line(alloc: Global, input: &[u8]) -> Result<Bytes, ProgramStop<CheckFinding>>
    requires { length input.now ≤ input_limit + 1 }
    ensures told { IfOk result (λ text. (entries : ℕ) × (IsRunOf input.now entries × (text ≡ accepted_line entries))) }
    ensures stop { IfErr result (λ stop. StopsBy (IsFound input.now) stop) }
{
    if input.len() > READ_LIMIT {
        return Err(found(alloc, CheckFinding::TooLong));
    }
    let entries = entries_in(alloc, input)?;
    Ok(accepted_line(alloc, entries)?)
}

/// How many entries the run has that an input has printed.
fn entries_in(alloc: Global, input: &[u8]) -> Result<u64, ProgramStop<CheckFinding>>
    requires { length input.now ≤ input_limit }
    ensures run { IfOk result (λ entries. IsRunOf input.now entries) }
    ensures stop { IfErr result (λ stop. StopsBy (IsFound input.now) stop) }
{
    let cause = Cause::Form;
    match parts(input) {
        Some(parts) => entries_of(alloc, parts.script, parts.report, parts.trace),
        None => Err(found(alloc, CheckFinding::Refused { line: 0, cause })),
    }
}

/// How many entries the run has that these parts have printed.
fn entries_of(
    alloc: Global,
    bytes: &[u8],
    told: &[u8],
    trace: &[u8],
) -> Result<u64, ProgramStop<CheckFinding>>
    requires few { length bytes.now + length told.now + length trace.now ≤ input_limit }
    ensures run { IfOk result (λ entries. (script : Script) × ((journal : List Entry) × (IsRunIn (record { script = bytes.now; report = told.now; trace = trace.now }) script journal × (entries ≡ length journal)))) }
    ensures stop { IfErr result (λ stop. StopsBy (IsFoundIn (record { script = bytes.now; report = told.now; trace = trace.now })) stop) }
{
    let script = script_of(alloc, bytes)?;
    let ahead = line_ends(bytes) + 1 + line_ends(told);
    let journal = journal_of(alloc, trace, ahead)?;
    judge_run(alloc, &script, &journal, told)
}

/// The script that bytes spell, within the limits.
fn script_of(alloc: Global, bytes: &[u8]) -> Result<Script, ProgramStop<CheckFinding>>
    requires { length bytes.now ≤ input_limit }
    ensures script { IfOk result (λ script. SpellsScript bytes.now script × (limit_of script ≡ None) × (length script.calls < 2 ^ 32)) }
    ensures stop { IfErr result (λ stop. StopsBy (IsScriptFault bytes.now) stop) }
{
    let script = spelt_script(alloc, bytes)?;
    match over(&script) {
        None => Ok(script),
        Some(limit) => Err(found(alloc, CheckFinding::Over { limit })),
    }
}

/// The script that bytes spell.
fn spelt_script(alloc: Global, bytes: &[u8]) -> Result<Script, ProgramStop<CheckFinding>>
    requires { length bytes.now ≤ input_limit }
    ensures script { IfOk result (λ script. SpellsScript bytes.now script × (length script.calls < 2 ^ 32)) }
    ensures stop { IfErr result (λ stop. StopsBy (IsScriptFault bytes.now) stop) }
{
    match parse(alloc, bytes) {
        Ok(script) => Ok(script),
        Err(ScriptFault::Refused { line, cause }) => {
            Err(found(alloc, CheckFinding::Refused { line, cause }))
        }
        Err(ScriptFault::Memory) => Err(ProgramStop::Memory),
    }
}

/// The journal that a trace spells, behind so many lines.
fn journal_of(alloc: Global, trace: &[u8], ahead: u64) -> Result<Journal, ProgramStop<CheckFinding>>
    requires few { length trace.now ≤ input_limit }
    requires ahead { ahead ≤ input_limit + 1 }
    ensures journal { IfOk result (λ journal. IsJournalOf trace.now journal) }
    ensures stop { IfErr result (λ stop. StopsBy (IsTraceFault trace.now ahead) stop) }
{
    match read_trace(alloc, trace) {
        Ok(journal) => Ok(journal),
        Err(TraceFault::Line { line }) => Err(found(
            alloc,
            CheckFinding::TextLine {
                line: ahead + u64::from(line),
            },
        )),
        Err(TraceFault::Memory) => Err(ProgramStop::Memory),
    }
}

/// How many entries a journal has, where it is a run, what the script's calls ask for, and reported so.
fn judge_run(
    alloc: Global,
    script: &Script,
    journal: &Journal,
    told: &[u8],
) -> Result<u64, ProgramStop<CheckFinding>>
    requires script { IsScript script.now }
    requires calls { length script.now.calls < 2 ^ 32 }
    requires rises { Rises journal.now }
    requires few { length journal.now < 2 ^ 32 }
    ensures told { IfOk result (λ entries. IsReported script.now journal.now told.now entries) }
    ensures stop { IfErr result (λ stop. StopsBy (IsFoundOf script.now journal.now told.now) stop) }
{
    match judge_journal(alloc, script, journal)? {
        RunVerdict::Asked => judge_report(alloc, script, journal, told),
        RunVerdict::Unasked => Err(found(alloc, CheckFinding::Unasked)),
        RunVerdict::Faulty { entry } => Err(found(alloc, CheckFinding::RunEntry { entry })),
    }
}

/// The same of a run that is what the calls ask for.
fn judge_report(
    alloc: Global,
    script: &Script,
    journal: &Journal,
    told: &[u8],
) -> Result<u64, ProgramStop<CheckFinding>>
    requires script { IsScript script.now }
    requires run { Run (setting_of script.now) journal.now }
    requires asked { IsAsked script.now journal.now }
    ensures told { IfOk result (λ entries. IsReported script.now journal.now told.now entries) }
    ensures stop { IfErr result (λ stop. StopsBy (IsFoundOf script.now journal.now told.now) stop) }
{
    let text = report(alloc, script, journal)?;
    if told == text.as_slice() {
        return Ok(journal.len() as u64);
    }
    let line = differing_line(told, text.as_slice());
    Err(found(alloc, CheckFinding::ReportLine { line }))
}
