//! What the words ask for, done up to the text that is to be written.

ghost use Rattle.std.specs.Prelude.{ℕ, List, ◌≡◌, ◌≤◌, ◌+◌, length, IfOk, IfErr, IfSome, MatchResult};
ghost use Rattle.std.specs.Io.KnownBytes.{IsAtEnd};
ghost use Rattle.outer_io.specs.Outside.{input_limit};
ghost use Rattle.program_status.specs.declared.stops.ProgramStop.TheVariants as stops;
ghost use Rattle.program_status.specs.Words.{texts};
ghost use Rattle.xor_cli.specs.declared.decoding.faults.DecodeFault.{DecodeFault};
ghost use Rattle.xor_cli.specs.declared.decoding.values.Format.{Format};
ghost use Rattle.xor_cli.specs.declared.decoding.values.DecodedValue.{DecodedValue};
ghost use Rattle.xor_cli.specs.declared.findings.ToolFinding.TheVariants as findings;
ghost use Rattle.xor_cli.specs.declared.words.ToolCommand.TheVariants as commands;
ghost use Rattle.xor_cli.specs.Decoding.{IsValue, IsFault};
ghost use Rattle.xor_cli.specs.Words.{SpellsToolCommand, AskReading};
ghost use Rattle.xor_cli.specs.Inputs.{Subject, CanRunAs, IsAccepted};
ghost use Rattle.xor_cli.specs.Endings.{IsOutput, IsMade};
ghost use Rattle.xor_cli.specs.Statuses.{StopsFor, StopsSource, StopsRun, StopsDecode, IsStopOf, IsLeftBy, IsMadeOf};

use crate::decoding::{DecodedValue, Format, Undecoded, value_line, value_of};
use crate::findings::ToolFinding;
use crate::made::Made;
use crate::script_runs::run_script;
use crate::target_runs::run_target;
use crate::words::{RunCommand, ToolCommand, command_of};
use array_journal::Journal;
use outer_io::{READ_LIMIT, Source, read_input};
use program_status::{Excess, ProgramStop, found};
use std::alloc::Global;

/// Does what the words ask for, up to the text that is to be written.
pub fn work<S: Source>(
    alloc: Global,
    words: &[String],
    source: &mut S,
) -> Result<Made, ProgramStop<ToolFinding>>
    ensures made { IfOk result (λ made. IsOutput (texts words.now) (S.left source.old) made.journal made.text) }
    ensures stop { IfErr result (λ stop. StopsFor (texts words.now) (S.left source.old) (S.faults source.old) (S.faults source.new) stop) }
    // What becomes of each value, and of each fault.
    ensures decodes { (format : Format) (bytes : List ℕ) (value : DecodedValue) → SpellsToolCommand (texts words.now) (commands.Decode format bytes) →
        IsValue format bytes value → MatchResult result (λ made. IsMadeOf value made.journal made.text) (λ stop. stop ≡ stops.Memory) }
    ensures faults { (format : Format) (bytes : List ℕ) (fault : DecodeFault) → SpellsToolCommand (texts words.now) (commands.Decode format bytes) →
        IsFault format bytes fault → MatchResult result (λ _. ⊥) (λ stop. IsStopOf (findings.Undecodable fault) stop) }
    // For a run the source is read to its end, unless it is too long, a read fails or memory runs out; else
    // it isn't read at all.
    ensures whole { AskReading (texts words.now) → MatchResult result (λ _. IsAtEnd (S.left source.new)) (λ stop. IsLeftBy stop (S.left source.new)) }
    ensures unread { ¬ AskReading (texts words.now) →
        (S.left source.new ≡ S.left source.old) × (S.faults source.new ≡ S.faults source.old) }
{
    match command_of(alloc, words)? {
        Some(ToolCommand::Run(run)) => run_source(alloc, run, source),
        Some(ToolCommand::Decode { format, bytes }) => decode(alloc, format, bytes.as_slice()),
        None => Err(ProgramStop::Usage),
    }
}

/// Runs what the source gives.
fn run_source<S: Source>(
    alloc: Global,
    run: RunCommand,
    source: &mut S,
) -> Result<Made, ProgramStop<ToolFinding>>
    ensures made { IfOk result (λ made. (subject : Subject run) × CanRunAs run subject × IfSome (S.left source.old) (λ left. IsAccepted run left subject) × IsMade run subject made.journal made.text) }
    ensures stop { IfErr result (λ stop. StopsSource run (S.left source.old) (S.faults source.old) (S.faults source.new) stop) }
    ensures whole { MatchResult result (λ _. IsAtEnd (S.left source.new)) (λ stop. IsLeftBy stop (S.left source.new)) }
{
    let input = read_input(alloc, source)?;
    made_from(alloc, run, input.as_slice())
}

/// Runs what the bytes spell.
fn made_from(alloc: Global, run: RunCommand, input: &[u8]) -> Result<Made, ProgramStop<ToolFinding>>
    requires { length input.now ≤ input_limit + 1 }
    ensures made { IfOk result (λ made. (subject : Subject run) × IsAccepted run input.now subject × IsMade run subject made.journal made.text) }
    ensures stop { IfErr result (λ stop. StopsRun run input.now stop) }
{
    if input.len() > READ_LIMIT {
        return Err(found(alloc, ToolFinding::Exceeded(Excess::Input)));
    }
    match run {
        RunCommand::Step { trace } => run_script(alloc, trace, input),
        RunCommand::Target => run_target(alloc, input),
    }
}

/// The line of the value that the bytes spell.
fn decode(alloc: Global, format: Format, bytes: &[u8]) -> Result<Made, ProgramStop<ToolFinding>>
    ensures made { IfOk result (λ made. (value : DecodedValue) × (IsValue format bytes.now value × IsMadeOf value made.journal made.text)) }
    ensures stop { IfErr result (λ stop. StopsDecode format bytes.now stop) }
    ensures decodes { (value : DecodedValue) → IsValue format bytes.now value → MatchResult result (λ made. IsMadeOf value made.journal made.text) (λ stop. stop ≡ stops.Memory) }
    ensures faults { (fault : DecodeFault) → IsFault format bytes.now fault → MatchResult result (λ _. ⊥) (λ stop. IsStopOf (findings.Undecodable fault) stop) }
{
    match value_of(alloc, format, bytes) {
        Ok(value) => made_value(alloc, &value),
        Err(Undecoded::Faulty(fault)) => Err(found(alloc, ToolFinding::Undecodable(fault))),
        Err(Undecoded::Memory) => Err(ProgramStop::Memory),
    }
}

/// The line of a value.
fn made_value(alloc: Global, value: &DecodedValue) -> Result<Made, ProgramStop<ToolFinding>>
    ensures { MatchResult result (λ made. IsMadeOf value.now made.journal made.text) (λ stop. stop ≡ stops.Memory) }
{
    let text = value_line(alloc, value)?;
    Ok(Made {
        journal: Journal::new(alloc),
        text,
    })
}
