//! The top call.

ghost use Rattle.std.specs.Prelude.{List, ℕ, ◌≡◌, ◌≢◌, ◌⊎◌, [], ◌∷◌, IfSome, OnOk, IfErr};
ghost use Rattle.std.specs.Io.KnownBytes.{Appends};
ghost use Rattle.outer_io.specs.Outside.{HasRisen};
ghost use Rattle.program_status.specs.Statuses.{IsOneOf};
ghost use Rattle.program_status.specs.Stops.{noted_for};
ghost use Rattle.program_status.specs.Words.{texts};
ghost use Rattle.program_status.specs.Endings.{HasCause};
ghost use Rattle.target_service.specs.declared.findings.ServiceFinding.{ServiceFinding};
ghost use Rattle.target_service.specs.Served.{IsWhole, IsServed, IsReadTo, IsBegun};
ghost use Rattle.target_service.specs.Found.{IsFound, finding_line, finding_status};
ghost use Rattle.target_service.specs.Endings.{AsksServe, Gains, IsCutShort, IsFoundNoted, IsNoteCutShort, IsEnded, StopsWork};

use crate::findings::ServiceStop;
use crate::streaming::run;
use outer_io::{Sink, Source};
use program_status::{ProgramStop, Status, hand_note, is_single_word};
use std::alloc::Global;

/// Serves targets over a stream of frames, for the one word `serve`: the source gives an opening and frames, and
/// out gets a reply to each frame as soon as it is whole. One line goes to notes where the stream isn't served
/// to its end. The statuses: 0 where it is; 2 where a field is refused, or the stream ends inside an opening
/// or a frame; 3 where a read failed; 4 where a write failed; 5 for want of memory; 7 where a limit is
/// passed, of 16 MiB of media, 1,000,000 frames and 64 MiB that they move; 64 for other words. Faults, limits
/// and the end come in the order of the stream. Takes memory for the targets with their entries, and for the
/// largest frame.
pub fn serve<S: Source, K: Sink, N: Sink>(
    alloc: Global,
    words: &[String],
    source: &mut S,
    out: &mut K,
    notes: &mut N,
) -> u8
    // What each status says, and which replies out has then.
    ensures served { result ≡ 0 → AsksServe (texts words.now)
        × Gains (S.left source.old) IsServed (K.written out.old) (K.written out.new) }
    ensures refused { result ≡ 2 → AsksServe (texts words.now)
        × IsFoundNoted (S.left source.old) 2 (K.written out.old) (K.written out.new) (N.written notes.old) (N.written notes.new) }
    ensures read_fault { result ≡ 3 →
        Gains (S.left source.old) IsReadTo (K.written out.old) (K.written out.new) }
    ensures write_fault { result ≡ 4 →
        (HasRisen (K.faults out.old) (K.faults out.new)
        × IsCutShort (S.left source.old) (K.written out.old) (K.written out.new)
        × (N.written notes.new ≡ N.written notes.old))
        ⊎ (HasRisen (N.faults notes.old) (N.faults notes.new)
        × IsNoteCutShort (texts words.now) (S.left source.old) (S.faults source.old) (S.faults source.new) (K.written out.old) (K.written out.new) (N.written notes.old) (N.written notes.new)) }
    ensures no_memory { result ≡ 5 →
        Gains (S.left source.old) IsBegun (K.written out.old) (K.written out.new) }
    ensures limited { result ≡ 7 → AsksServe (texts words.now)
        × IsFoundNoted (S.left source.old) 7 (K.written out.old) (K.written out.new) (N.written notes.old) (N.written notes.new) }
    ensures causes { HasCause (AsksServe (texts words.now) → ⊥) (AsksServe (texts words.now)) (AsksServe (texts words.now))
        (record { source = S.faults source.old; out = K.faults out.old; notes = N.faults notes.old })
        (record { source = S.faults source.new; out = K.faults out.new; notes = N.faults notes.new }) result }
    ensures no_other { IsOneOf (0 ∷ 2 ∷ 3 ∷ 4 ∷ 5 ∷ 7 ∷ 64 ∷ []) result }

    // Where a status comes, unless a read fails (3), a write fails (4) or memory runs out (5).
    ensures serves { AsksServe (texts words.now) →
        IfSome (S.left source.old) (λ stream. IsWhole stream → IsOneOf (0 ∷ 3 ∷ 4 ∷ 5 ∷ []) result) }
    ensures finds { AsksServe (texts words.now) →
        IfSome (S.left source.old) (λ stream. (finding : ServiceFinding) → IsFound stream finding →
        ((result ≡ finding_status finding) × Appends (N.written notes.old) (N.written notes.new) (finding_line finding))
        ⊎ IsOneOf (3 ∷ 4 ∷ 5 ∷ []) result) }
    ensures answers_usage { (AsksServe (texts words.now) → ⊥) → IsOneOf (64 ∷ 4 ∷ []) result }

    // Where no count of faults rises, only want of memory keeps a stream from being served to its end.
    ensures complete { AsksServe (texts words.now) →
        IfSome (S.left source.old) (λ stream. IsWhole stream →
        ¬ HasRisen (S.faults source.old) (S.faults source.new) →
        ¬ HasRisen (K.faults out.old) (K.faults out.new) →
        ¬ HasRisen (N.faults notes.old) (N.faults notes.new) →
        IsOneOf (0 ∷ 5 ∷ []) result) }

    // For other words nothing is read and no reply is written.
    ensures unread { (AsksServe (texts words.now) → ⊥) →
        (S.left source.new ≡ S.left source.old) × (S.faults source.new ≡ S.faults source.old) × (K.written out.new ≡ K.written out.old) }
    ensures noted { IsOneOf (0 ∷ 3 ∷ 5 ∷ 64 ∷ []) result →
        Appends (N.written notes.old) (N.written notes.new) (noted_for result) }
{
    match work(alloc, words, source, out) {
        Ok(()) => Status::Done.code(),
        Err(stop) => note(notes, &stop),
    }
}

/// Writes why a service was stopped, unless that is a reply that wasn't written, and says how the process ends.
fn note<N: Sink>(notes: &mut N, stop: &ServiceStop) -> u8
    ensures { IsEnded stop.now (N.written notes.old) (N.written notes.new) (N.faults notes.old) (N.faults notes.new) result }
{
    match stop {
        ServiceStop::Noted(stop) => hand_note(notes, stop),
        ServiceStop::WriteFault => Status::WriteFault.code(),
    }
}

/// Does what the words ask for, up to the line of notes.
fn work<S: Source, K: Sink>(
    alloc: Global,
    words: &[String],
    source: &mut S,
    out: &mut K,
) -> Result<(), ServiceStop>
    ensures served { OnOk result (AsksServe (texts words.now) × Gains (S.left source.old) IsServed (K.written out.old) (K.written out.new)) }
    ensures stop { IfErr result (λ stop. StopsWork (texts words.now) (S.left source.old) (S.faults source.old) (S.faults source.new) (K.written out.old) (K.written out.new) (K.faults out.old) (K.faults out.new) stop) }
    ensures unread { (AsksServe (texts words.now) → ⊥) →
        (S.left source.new ≡ S.left source.old) × (S.faults source.new ≡ S.faults source.old) × (K.written out.new ≡ K.written out.old) }
{
    if is_single_word(words, "serve") {
        run(alloc, source, out)
    } else {
        Err(ServiceStop::Noted(ProgramStop::Usage))
    }
}
