ghost use Rattle.std.specs.Prelude.{ℕ, List, ◌≡◌, ◌≢◌, ◌⊎◌, [], ◌∷◌, ◌≤◌, length, IfSome};
ghost use Rattle.std.specs.Io.KnownBytes.{Appends, IsAtEnd};
ghost use Rattle.xor_cli.specs.declared.decoding.faults.DecodeFault.{DecodeFault};
ghost use Rattle.xor_cli.specs.declared.decoding.values.Format.{Format};
ghost use Rattle.xor_cli.specs.declared.decoding.values.DecodedValue.{DecodedValue};
ghost use Rattle.xor_cli.specs.declared.refusals.Refusal.{Refusal};
ghost use Rattle.program_status.specs.declared.notes.Excess.{Excess};
ghost use Rattle.program_status.specs.Endings.{HasCause, IsHanded, IsNoted};
ghost use Rattle.program_status.specs.Notes.{excess_line};
ghost use Rattle.program_status.specs.Statuses.{IsOneOf};
ghost use Rattle.program_status.specs.Stops.{noted_for};
ghost use Rattle.program_status.specs.Words.{texts};
ghost use Rattle.xor_cli.specs.declared.words.RunCommand.{RunCommand};
ghost use Rattle.xor_cli.specs.declared.words.ToolCommand.TheVariants as commands;
ghost use Rattle.xor_cli.specs.Decoding.{IsValue, IsFault};
ghost use Rattle.xor_cli.specs.DecodeTexts.{value_line, fault_line};
ghost use Rattle.xor_cli.specs.RefusalTexts.{refusal_line};
ghost use Rattle.outer_io.specs.Outside.{HasRisen, input_limit};
ghost use Rattle.xor_cli.specs.Words.{SpellsToolCommand, SpellsNoToolCommand, AskRun, AskReading, IsCommand};
ghost use Rattle.xor_cli.specs.Inputs.{Subject, IsAccepted, IsRefused, IsLater, IsExcess};
ghost use Rattle.xor_cli.specs.Endings.{IsDone, IsCutShort, IsRefusalNoted, IsExcessNoted};
ghost use Rattle.xor_cli.specs.Statuses.{verdict_of, later_refusal, IsNoteCutShort};

use crate::execute::work;
use crate::findings::ToolFinding;
use crate::made::Made;
use array_journal::Journal;
use outer_io::{Sink, Source};
use program_status::ProgramStop;
use std::alloc::Global;

/// What a command came to: the status that its process ends with, and the journal of what it ran.
#[derive(Debug, Drop)]
pub struct Outcome {
    pub status: u8,
    pub journal: Journal,
}

/// Does what the words ask for, and writes to `out` what came of it, and to `notes` one line where nothing
/// did.
///
/// `step` runs the script that the source gives and writes its report; with `--trace` the trace of its
/// journal follows. `target` runs the bench that the source gives, writes a line for each of its lines, and
/// hands out the targets' entries. `decode cdb HEX`, `decode sense HEX`, `decode page HEX` and `decode
/// params I BYTES HEX` say in one line what the bytes are: a command descriptor block, sense data, the XOR
/// control mode page, or a parameter list of a command whose INTDATA bit is I and which takes so many bytes
/// of intermediate data where it is one. They read nothing.
pub fn tool<S: Source, K: Sink, N: Sink>(
    alloc: Global,
    words: &[String],
    source: &mut S,
    out: &mut K,
    notes: &mut N,
) -> Outcome
    // What each status says.
    ensures done { result.status ≡ 0 →
        IsDone (texts words.now) (S.left source.old) (K.written out.old) (K.written out.new) result.journal }
    ensures refused { result.status ≡ 2 →
        IsRefusalNoted (texts words.now) (S.left source.old) (N.written notes.old) (N.written notes.new) }
    ensures write_fault { result.status ≡ 4 →
        (HasRisen (K.faults out.old) (K.faults out.new)
        × IsCutShort (texts words.now) (S.left source.old) (K.written out.old) (K.written out.new) result.journal
        × (N.written notes.new ≡ N.written notes.old)
        × (AskReading (texts words.now) → IsAtEnd (S.left source.new)))
        ⊎ (HasRisen (N.faults notes.old) (N.faults notes.new)
        × IsNoteCutShort (texts words.now) (S.left source.old) (S.faults source.old) (S.faults source.new) (N.written notes.old) (N.written notes.new)
        × (K.written out.new ≡ K.written out.old)
        × (result.journal ≡ [])) }
    ensures exceeded { result.status ≡ 7 →
        IsExcessNoted (texts words.now) (S.left source.old) (N.written notes.old) (N.written notes.new) }
    ensures causes { HasCause (SpellsNoToolCommand (texts words.now)) (IsCommand (texts words.now)) (AskReading (texts words.now))
        (record { source = S.faults source.old; out = K.faults out.old; notes = N.faults notes.old })
        (record { source = S.faults source.new; out = K.faults out.new; notes = N.faults notes.new }) result.status }
    ensures no_other { IsOneOf (0 ∷ 2 ∷ 3 ∷ 4 ∷ 5 ∷ 7 ∷ 64 ∷ []) result.status }

    // Where a status comes, unless a read fails (3), a write fails (4) or memory runs out (5).
    ensures runs { (run : RunCommand) → AskRun run (texts words.now) →
        IfSome (S.left source.old) (λ input. (subject : Subject run) → IsAccepted run input subject →
        IsOneOf (0 ∷ 3 ∷ 4 ∷ 5 ∷ []) result.status) }
    ensures refuses { (run : RunCommand) → AskRun run (texts words.now) →
        IfSome (S.left source.old) (λ input. (refusal : Refusal) → IsRefused run input refusal →
        ((result.status ≡ 2) × Appends (N.written notes.old) (N.written notes.new) (refusal_line refusal))
        ⊎ IsOneOf (3 ∷ 4 ∷ 5 ∷ []) result.status) }
    // The same of a line that can't be run yet.
    ensures later { (run : RunCommand) → AskRun run (texts words.now) →
        IfSome (S.left source.old) (λ input. (line : ℕ) → IsLater run input line →
        ((result.status ≡ 2) × Appends (N.written notes.old) (N.written notes.new) (refusal_line (later_refusal line)))
        ⊎ IsOneOf (3 ∷ 4 ∷ 5 ∷ []) result.status) }
    ensures limits { (run : RunCommand) → AskRun run (texts words.now) →
        IfSome (S.left source.old) (λ input. (excess : Excess) → IsExcess run input excess →
        ((result.status ≡ 7) × Appends (N.written notes.old) (N.written notes.new) (excess_line excess))
        ⊎ IsOneOf (3 ∷ 4 ∷ 5 ∷ []) result.status) }
    ensures decodes { (format : Format) (bytes : List ℕ) (value : DecodedValue) →
        SpellsToolCommand (texts words.now) (commands.Decode format bytes) → IsValue format bytes value →
        ((result.status ≡ 0) × Appends (K.written out.old) (K.written out.new) (value_line value))
        ⊎ IsOneOf (4 ∷ 5 ∷ []) result.status }
    ensures faults { (format : Format) (bytes : List ℕ) (fault : DecodeFault) →
        SpellsToolCommand (texts words.now) (commands.Decode format bytes) → IsFault format bytes fault →
        ((result.status ≡ 2) × Appends (N.written notes.old) (N.written notes.new) (fault_line fault))
        ⊎ IsOneOf (4 ∷ 5 ∷ []) result.status }
    ensures answers_usage { SpellsNoToolCommand (texts words.now) → IsOneOf (64 ∷ 4 ∷ []) result.status }

    // Where no count of faults rises, only want of memory keeps a script or a bench from its run, and a value
    // from its line.
    ensures complete { (run : RunCommand) → AskRun run (texts words.now) →
        IfSome (S.left source.old) (λ input. (subject : Subject run) → IsAccepted run input subject →
        ¬ HasRisen (S.faults source.old) (S.faults source.new) →
        ¬ HasRisen (K.faults out.old) (K.faults out.new) →
        ¬ HasRisen (N.faults notes.old) (N.faults notes.new) →
        IsOneOf (0 ∷ 5 ∷ []) result.status) }
    ensures decodes_complete { (format : Format) (bytes : List ℕ) (value : DecodedValue) →
        SpellsToolCommand (texts words.now) (commands.Decode format bytes) → IsValue format bytes value →
        ¬ HasRisen (K.faults out.old) (K.faults out.new) →
        ¬ HasRisen (N.faults notes.old) (N.faults notes.new) →
        IsOneOf (0 ∷ 5 ∷ []) result.status }

    // What is read: all that there is, where a run is asked for and the input isn't too long. How much is
    // taken of a longer one isn't said here. Where no run is asked for, nothing is read.
    ensures read_whole { AskReading (texts words.now) → IsOneOf (0 ∷ 2 ∷ 7 ∷ []) result.status →
        IfSome (S.left source.old) (λ input. length input ≤ input_limit → IsAtEnd (S.left source.new)) }
    ensures unread { ¬ AskReading (texts words.now) →
        (S.left source.new ≡ S.left source.old) × (S.faults source.new ≡ S.faults source.old) }

    // What else is written, and kept.
    ensures unwritten { result.status ≢ 0 → result.status ≢ 4 →
        (K.written out.new ≡ K.written out.old) × (result.journal ≡ []) }
    ensures noted { result.status ≢ 2 → result.status ≢ 7 → result.status ≢ 4 →
        Appends (N.written notes.old) (N.written notes.new) (noted_for result.status) }
{
    match work(alloc, words, source) {
        Ok(made) => hand_out(out, made),
        Err(stop) => hand_note(alloc, notes, &stop),
    }
}

/// Writes what was made. The journal is handed on also where the write fails, since the run is done then.
fn hand_out<K: Sink>(out: &mut K, made: Made) -> Outcome
    ensures status { IsHanded 0 made.text (K.written out.old) (K.written out.new) (K.faults out.old) (K.faults out.new) result.status }
    ensures journal { result.journal ≡ made.journal }
{
    let Made { journal, text } = made;
    Outcome {
        status: program_status::hand_out(out, text.as_slice()),
        journal,
    }
}

/// Writes why there is nothing to write.
fn hand_note<N: Sink>(alloc: Global, notes: &mut N, stop: &ProgramStop<ToolFinding>) -> Outcome
    ensures status { IsNoted verdict_of stop.now (N.written notes.old) (N.written notes.new) (N.faults notes.old) (N.faults notes.new) result.status }
    ensures journal { result.journal ≡ [] }
{
    Outcome {
        status: program_status::hand_note(notes, stop),
        journal: Journal::new(alloc),
    }
}
