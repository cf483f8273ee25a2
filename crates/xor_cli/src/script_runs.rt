//! Runs of a script.

ghost use Rattle.std.specs.Prelude.{Bool, ◌≡◌, ◌≤◌, ◌<◌, ◌^◌, length, IfOk, IfErr, OnOk};
ghost use Rattle.host_scripts.specs.declared.script.Script.{Script};
ghost use Rattle.host_scripts.specs.Scripts.{IsScript, SpellsScript as spells_script};
ghost use Rattle.outer_io.specs.Outside.{input_limit};
ghost use Rattle.program_status.specs.declared.stops.ProgramStop.TheVariants as stops;
ghost use Rattle.xor_cli.specs.declared.words.RunCommand.TheVariants as runs;
ghost use Rattle.xor_cli.specs.Inputs.{IsRunnable, IsAccepted};
ghost use Rattle.xor_cli.specs.Endings.{IsMade, step_text};
ghost use Rattle.xor_cli.specs.Statuses.{StopsRun, StopsSubject};

use crate::array::run;
use crate::findings::{ToolFinding, refused};
use crate::made::Made;
use crate::refusals::{Reason, reason_of};
use crate::unsupported::first_later;
use array_journal::Journal;
use blocks_core::{Bytes, Memory};
use host_scripts::{Script, ScriptFault, over, parse};
use program_status::{Excess, ProgramStop, found};
use std::alloc::Global;
use stripe_check::{report, trace};

/// Runs the script that the bytes spell.
pub fn run_script(
    alloc: Global,
    traced: bool,
    input: &[u8],
) -> Result<Made, ProgramStop<ToolFinding>>
    requires { length input.now ≤ input_limit }
    ensures made { IfOk result (λ made. (script : Script) × IsAccepted (runs.Step traced) input.now script × IsMade (runs.Step traced) script made.journal made.text) }
    ensures stop { IfErr result (λ stop. StopsRun (runs.Step traced) input.now stop) }
{
    let script = runnable_script(alloc, input)?;
    made_of(alloc, traced, &script)
}

/// The script that the bytes spell, where it can be run.
fn runnable_script(alloc: Global, input: &[u8]) -> Result<Script, ProgramStop<ToolFinding>>
    requires { length input.now ≤ input_limit }
    ensures accepted { (traced : Bool) → IfOk result (λ script. IsAccepted (runs.Step traced) input.now script) }
    ensures fewer { IfOk result (λ script. length script.calls < 2 ^ 32) }
    ensures stop { (traced : Bool) → IfErr result (λ stop. StopsRun (runs.Step traced) input.now stop) }
{
    let script = script_of(alloc, input)?;
    match check_script(alloc, &script) {
        Ok(()) => Ok(script),
        Err(stop) => Err(stop),
    }
}

/// The script that the bytes spell.
fn script_of(alloc: Global, input: &[u8]) -> Result<Script, ProgramStop<ToolFinding>>
    requires { length input.now ≤ input_limit }
    ensures spelt { IfOk result (λ script. spells_script input.now script) }
    ensures fewer { IfOk result (λ script. length script.calls < 2 ^ 32) }
    ensures stop { (traced : Bool) → IfErr result (λ stop. StopsRun (runs.Step traced) input.now stop) }
{
    match parse(alloc, input) {
        Ok(script) => Ok(script),
        Err(ScriptFault::Refused { line, cause }) => Err(refused(
            alloc,
            u64::from(line),
            reason_of(cause),
        )),
        Err(ScriptFault::Memory) => Err(ProgramStop::Memory),
    }
}

/// Whether a script is within all limits, and each line of it can be run.
fn check_script(alloc: Global, script: &Script) -> Result<(), ProgramStop<ToolFinding>>
    requires ranged { IsScript script.now }
    requires fewer { length script.now.calls < 2 ^ 32 }
    ensures runnable { OnOk result (IsRunnable script.now) }
    ensures stop { (traced : Bool) → IfErr result (λ stop. StopsSubject (runs.Step traced) script.now stop) }
{
    if let Some(limit) = over(script) {
        return Err(found(alloc, ToolFinding::Exceeded(Excess::Counted(limit))));
    }
    match first_later(script) {
        Some(line) => Err(refused(alloc, line, Reason::Later)),
        None => Ok(()),
    }
}

/// Runs a script and makes its text.
fn made_of(alloc: Global, traced: bool, script: &Script) -> Result<Made, ProgramStop<ToolFinding>>
    requires runnable { IsRunnable script.now }
    requires fewer { length script.now.calls < 2 ^ 32 }
    ensures made { IfOk result (λ made. IsMade (runs.Step traced) script.now made.journal made.text) }
    ensures stop { IfErr result (λ stop. stop ≡ stops.Memory) }
{
    let journal = run(alloc, script)?;
    let text = text_of(alloc, traced, script, &journal)?;
    Ok(Made { journal, text })
}

/// The report of a run, and behind it the trace where it is asked for.
fn text_of(alloc: Global, traced: bool, script: &Script, journal: &Journal) -> Result<Bytes, Memory>
    requires { IsScript script.now }
    ensures { IfOk result (λ text. text ≡ step_text traced script.now journal.now) }
{
    let mut text = report(alloc, script, journal)?;
    if traced {
        let lines = trace(alloc, journal)?;
        text.push_slice(lines.as_slice())?;
    }
    Ok(text)
}
