//! Handing out what a program made, or why it made nothing.

ghost use Rattle.program_status.specs.Statuses.{code_of};
ghost use Rattle.program_status.specs.Endings.{IsHanded, IsNoted};

use crate::status::Status;
use crate::stops::{Finding, ProgramStop};
use outer_io::{Sink, write_all};

/// Writes all of a text, and says with which status the process ends: with this one, unless that fails.
pub fn hand<K: Sink>(sink: &mut K, text: &[u8], status: Status) -> u8
    ensures { IsHanded (code_of status) text.now (K.written sink.old) (K.written sink.new) (K.faults sink.old) (K.faults sink.new) result }
{
    match write_all(sink, text) {
        Ok(()) => status.code(),
        Err(_) => Status::WriteFault.code(),
    }
}

/// Writes what a program made.
pub fn hand_out<K: Sink>(out: &mut K, text: &[u8]) -> u8
    ensures { IsHanded 0 text.now (K.written out.old) (K.written out.new) (K.faults out.old) (K.faults out.new) result }
{
    hand(out, text, Status::Done)
}

/// Writes why there is nothing to write.
pub fn hand_note<F: Finding, N: Sink>(notes: &mut N, stop: &ProgramStop<F>) -> u8
    ensures { IsNoted F.verdict stop.now (N.written notes.old) (N.written notes.new) (N.faults notes.old) (N.faults notes.new) result }
{
    hand(notes, stop.note(), stop.status())
}
