//! Runs of a bench.

ghost use Rattle.std.specs.Prelude.{◌≡◌, ◌≤◌, ◌<◌, length, IfOk, IfErr, OnOk};
ghost use Rattle.host_scripts.specs.declared.bench.Bench.{Bench};
ghost use Rattle.host_scripts.specs.Benches.{IsBench, SpellsBench as spells_bench};
ghost use Rattle.outer_io.specs.Outside.{input_limit};
ghost use Rattle.program_status.specs.declared.stops.ProgramStop.TheVariants as stops;
ghost use Rattle.xor_cli.specs.declared.words.RunCommand.TheVariants as runs;
ghost use Rattle.xor_cli.specs.Inputs.{CanRunAs, IsAccepted};
ghost use Rattle.xor_cli.specs.Endings.{IsMade};
ghost use Rattle.xor_cli.specs.Statuses.{StopsRun, StopsSubject};

use crate::findings::{ToolFinding, refused};
use crate::made::Made;
use crate::refusals::reason_of;
use host_scripts::{Bench, ScriptFault, over_bench, parse_bench};
use program_status::{Excess, ProgramStop, found};
use std::alloc::Global;

/// Runs the bench that the bytes spell.
pub fn run_target(alloc: Global, input: &[u8]) -> Result<Made, ProgramStop<ToolFinding>>
    requires { length input.now ≤ input_limit }
    ensures made { IfOk result (λ made. (bench : Bench) × IsAccepted runs.Target input.now bench × IsMade runs.Target bench made.journal made.text) }
    ensures stop { IfErr result (λ stop. StopsRun runs.Target input.now stop) }
{
    let bench = runnable_bench(alloc, input)?;
    made_of(alloc, &bench)
}

/// The bench that the bytes spell, where it can be run.
fn runnable_bench(alloc: Global, input: &[u8]) -> Result<Bench, ProgramStop<ToolFinding>>
    requires { length input.now ≤ input_limit }
    ensures accepted { IfOk result (λ bench. IsAccepted runs.Target input.now bench) }
    ensures stop { IfErr result (λ stop. StopsRun runs.Target input.now stop) }
{
    let bench = bench_of(alloc, input)?;
    match check_bench(alloc, &bench) {
        Ok(()) => Ok(bench),
        Err(stop) => Err(stop),
    }
}

/// The bench that the bytes spell.
fn bench_of(alloc: Global, input: &[u8]) -> Result<Bench, ProgramStop<ToolFinding>>
    requires { length input.now ≤ input_limit }
    ensures spelt { IfOk result (λ bench. spells_bench input.now bench) }
    ensures stop { IfErr result (λ stop. StopsRun runs.Target input.now stop) }
{
    match parse_bench(alloc, input) {
        Ok(bench) => Ok(bench),
        Err(ScriptFault::Refused { line, cause }) => Err(refused(
            alloc,
            u64::from(line),
            reason_of(cause),
        )),
        Err(ScriptFault::Memory) => Err(ProgramStop::Memory),
    }
}

/// Whether a bench is within all limits.
fn check_bench(alloc: Global, bench: &Bench) -> Result<(), ProgramStop<ToolFinding>>
    requires { IsBench bench.now }
    ensures runnable { OnOk result (CanRunAs runs.Target bench.now) }
    ensures stop { IfErr result (λ stop. StopsSubject runs.Target bench.now stop) }
{
    match over_bench(bench) {
        Some(limit) => Err(found(alloc, ToolFinding::Exceeded(Excess::Counted(limit)))),
        None => Ok(()),
    }
}

/// Runs a bench.
fn made_of(alloc: Global, bench: &Bench) -> Result<Made, ProgramStop<ToolFinding>>
    requires { CanRunAs runs.Target bench.now }
    ensures made { IfOk result (λ made. IsMade runs.Target bench.now made.journal made.text) }
    ensures stop { IfErr result (λ stop. stop ≡ stops.Memory) }
{
    let run = bench_runs::run_bench(alloc, bench)?;
    Ok(Made {
        journal: run.journal,
        text: run.text,
    })
}
