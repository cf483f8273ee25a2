//! The top call.

ghost use Rattle.std.specs.Prelude.{List, ◌≡◌, ◌≢◌, ◌⊎◌, [], ◌∷◌, length, IfSome};
ghost use Rattle.std.specs.Io.KnownBytes.{Appends};
ghost use Rattle.array_journal.specs.declared.entry.Entry.{Entry};
ghost use Rattle.host_scripts.specs.declared.script.Script.{Script};
ghost use Rattle.outer_io.specs.Outside.{HasRisen};
ghost use Rattle.trace_check.specs.declared.checking.findings.CheckFinding.{CheckFinding};
ghost use Rattle.trace_check.specs.Findings.{IsAccepted, IsFound};
ghost use Rattle.program_status.specs.Statuses.{IsOneOf};
ghost use Rattle.program_status.specs.Stops.{noted_for};
ghost use Rattle.program_status.specs.Words.{texts};
ghost use Rattle.program_status.specs.Endings.{HasCause, IsInputTaken};
ghost use Rattle.trace_check.specs.Endings.{AsksCheck, IsDone, IsCutShort, IsNoteCutShort, IsNoted, finding_status};
ghost use Rattle.trace_check.specs.Notes.{accepted_line, finding_line};

use crate::checking::verdict::work;
use outer_io::{Sink, Source};
use program_status::{hand_note, hand_out};
use std::alloc::Global;

/// Checks a printed run, for the one word `check`: the source gives a script, a line `output`, and then
/// the report and the trace of a run. What is accepted is said to `out`, with the number of entries; else
/// one line goes to `notes`. The statuses: 0 where the output is that of a run of the script; 1 where it
/// isn't; 2 where the script is refused; 3 where a read failed; 4 where a write failed; 5 for want of
/// memory; 7 where a limit is passed; 64 for other words. Takes memory for the input, its script and
/// journal, what `run_fault` and `asked` take, and the report.
pub fn check<S: Source, K: Sink, N: Sink>(
    alloc: Global,
    words: &[String],
    source: &mut S,
    out: &mut K,
    notes: &mut N,
) -> u8
    // What each status says.
    ensures accepted { result ≡ 0 →
        IsDone (texts words.now) (S.left source.old) (K.written out.old) (K.written out.new) }
    ensures rejected { result ≡ 1 →
        IsNoted (texts words.now) (S.left source.old) 1 (N.written notes.old) (N.written notes.new) }
    ensures refused { result ≡ 2 →
        IsNoted (texts words.now) (S.left source.old) 2 (N.written notes.old) (N.written notes.new) }
    ensures limited { result ≡ 7 →
        IsNoted (texts words.now) (S.left source.old) 7 (N.written notes.old) (N.written notes.new) }
    ensures write_fault { result ≡ 4 →
        (HasRisen (K.faults out.old) (K.faults out.new)
        × IsCutShort (texts words.now) (S.left source.old) (K.written out.old) (K.written out.new)
        × IsInputTaken (S.left source.old) (S.left source.new)
        × (N.written notes.new ≡ N.written notes.old))
        ⊎ (HasRisen (N.faults notes.old) (N.faults notes.new)
        × IsNoteCutShort (texts words.now) (S.left source.old) (S.left source.new) (S.faults source.old) (S.faults source.new) (N.written notes.old) (N.written notes.new)
        × (K.written out.new ≡ K.written out.old)) }
    ensures causes { HasCause (AsksCheck (texts words.now) → ⊥) (AsksCheck (texts words.now)) (AsksCheck (texts words.now))
        (record { source = S.faults source.old; out = K.faults out.old; notes = N.faults notes.old })
        (record { source = S.faults source.new; out = K.faults out.new; notes = N.faults notes.new }) result }
    ensures no_other { IsOneOf (0 ∷ 1 ∷ 2 ∷ 3 ∷ 4 ∷ 5 ∷ 7 ∷ 64 ∷ []) result }

    // Where a status comes, unless a read fails (3), a write fails (4) or memory runs out (5).
    ensures accepts { AsksCheck (texts words.now) →
        IfSome (S.left source.old) (λ input. (script : Script) (journal : List Entry) → IsAccepted input script journal →
        ((result ≡ 0) × Appends (K.written out.old) (K.written out.new) (accepted_line (length journal)))
        ⊎ IsOneOf (3 ∷ 4 ∷ 5 ∷ []) result) }
    ensures finds { AsksCheck (texts words.now) →
        IfSome (S.left source.old) (λ input. (finding : CheckFinding) → IsFound input finding →
        ((result ≡ finding_status finding) × Appends (N.written notes.old) (N.written notes.new) (finding_line finding))
        ⊎ IsOneOf (3 ∷ 4 ∷ 5 ∷ []) result) }
    ensures answers_usage { (AsksCheck (texts words.now) → ⊥) → IsOneOf (64 ∷ 4 ∷ []) result }

    // Where no count of faults rises, only want of memory keeps the input of a run from being accepted.
    ensures complete { AsksCheck (texts words.now) →
        IfSome (S.left source.old) (λ input. (script : Script) (journal : List Entry) → IsAccepted input script journal →
        ¬ HasRisen (S.faults source.old) (S.faults source.new) →
        ¬ HasRisen (K.faults out.old) (K.faults out.new) →
        ¬ HasRisen (N.faults notes.old) (N.faults notes.new) →
        IsOneOf (0 ∷ 5 ∷ []) result) }

    // What is taken of the source, also where the write of what was found failed: all, or one byte more
    // than the limit. Where no check is asked for it is left alone.
    ensures taken { AsksCheck (texts words.now) → IsOneOf (0 ∷ 1 ∷ 2 ∷ 7 ∷ []) result →
        IsInputTaken (S.left source.old) (S.left source.new) }
    ensures unread { (AsksCheck (texts words.now) → ⊥) →
        (S.left source.new ≡ S.left source.old) × (S.faults source.new ≡ S.faults source.old) }

    // What else is written.
    ensures unwritten { result ≢ 0 → result ≢ 4 → K.written out.new ≡ K.written out.old }
    ensures noted { IsOneOf (0 ∷ 3 ∷ 5 ∷ 64 ∷ []) result →
        Appends (N.written notes.old) (N.written notes.new) (noted_for result) }
{
    match work(alloc, words, source) {
        Ok(text) => hand_out(out, text.as_slice()),
        Err(stop) => hand_note(notes, &stop),
    }
}
