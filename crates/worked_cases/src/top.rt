//! The top call.

ghost use Rattle.std.specs.Prelude.{◌≡◌, [], ◌∷◌, IfOk, IfErr};
ghost use Rattle.program_status.specs.Statuses.{IsOneOf};
ghost use Rattle.worked_cases.specs.Endings.{HasListCause, IsAnswered, IsDone, IsNoList, StopsList, StopsSource};

use crate::faults::{Expected, ListFault, fault_line};
use crate::lists::runs_of;
use crate::telling::told;
use blocks_core::{Bytes, Memory};
use outer_io::{Sink, Source, read_input};
use program_status::{Finding, ProgramStop, Verdict, found, hand_note, hand_out};
use std::alloc::Global;

/// That a list is none: this line of it, from 1, is none that may stand there.
#[derive(Clone, Copy, Debug, PartialEq, Eq)]
pub struct NoList {
    pub number: u32,
    pub expected: Expected,
}

impl Finding for NoList {
    ghost use Rattle.worked_cases.specs.Endings.{verdict_of, no_list_line};

    ghost verdict = { verdict_of };

    ghost line = { no_list_line };

    fn verdict(&self) -> Verdict {
        Verdict::Refused
    }

    fn line(&self, alloc: Global) -> Result<Bytes, Memory> {
        fault_line(alloc, self.number, self.expected)
    }
}

/// What there is to write for the list that a source gives.
fn work<S: Source>(alloc: Global, source: &mut S) -> Result<Bytes, ProgramStop<NoList>>
    ensures made { IfOk result IsAnswered }
    ensures stop { IfErr result (StopsSource (S.left source.old) (S.faults source.old) (S.faults source.new)) }
{
    let input = read_input(alloc, source)?;
    answers_of(alloc, input.as_slice())
}

/// What there is to write for a list.
fn answers_of(alloc: Global, list: &[u8]) -> Result<Bytes, ProgramStop<NoList>>
    ensures made { IfOk result IsAnswered }
    ensures stop { IfErr result (StopsList list.now) }
{
    match runs_of(alloc, list) {
        Ok(runs) => Ok(told(alloc, runs)?),
        Err(ListFault::Line { number, expected }) => {
            Err(found(alloc, NoList { number, expected }))
        }
        Err(ListFault::Memory) => Err(ProgramStop::Memory),
    }
}

/// Runs the cases of the list that a source gives, in their order, and writes to `out` what each call
/// answers. A list that is none isn't run at all: its first line that can't be read is noted. The statuses:
/// 0 where all ran, 2 where the list is none, 3 where a read failed, 4 where a write failed, 5 for want of
/// memory.
/// The clauses say less: at 0, that what is written tells of runs with answers that the contracts of their
/// calls allow; at 2, that the number is that of a line of the list. That the runs are the list's, and the
/// line its first that is wrong, is tested by the stored lists.
pub fn answer_list<S: Source, K: Sink, N: Sink>(
    alloc: Global,
    source: &mut S,
    out: &mut K,
    notes: &mut N,
) -> u8
    ensures done { result ≡ 0 → IsDone (K.written out.old) (K.written out.new) }
    ensures refused { result ≡ 2 → IsNoList (S.left source.old) (N.written notes.old) (N.written notes.new) }
    ensures causes { HasListCause
        (record { source = S.faults source.old; out = K.faults out.old; notes = N.faults notes.old })
        (record { source = S.faults source.new; out = K.faults out.new; notes = N.faults notes.new }) result }
    ensures no_other { IsOneOf (0 ∷ 2 ∷ 3 ∷ 4 ∷ 5 ∷ []) result }
{
    match work(alloc, source) {
        Ok(text) => hand_out(out, text.as_slice()),
        Err(stop) => hand_note(notes, &stop),
    }
}
