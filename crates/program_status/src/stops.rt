//! What stops a program before it has anything to write.

ghost use Rattle.std.specs.Prelude.{◌≡◌, ℕ, List, IfOk};
ghost use Rattle.program_status.specs.declared.status.Verdict.{Verdict};
ghost use Rattle.program_status.specs.Stops.{IsStopOf, status_of, note_of};

use crate::status::{Status, Verdict};
use blocks_core::{Bytes, Memory};
use outer_io::InputFault;
use std::alloc::Global;

/// What a program may find its input, or bytes in its words, to be where nothing comes of them.
pub trait Finding: Copy {
    ghost verdict: { Self → Verdict };

    ghost line: { Self → List ℕ };

    /// Which kind of status goes with it.
    fn verdict(&self) -> Verdict
        ensures { result ≡ verdict self.now };

    /// The line of notes that says it.
    fn line(&self, alloc: Global) -> Result<Bytes, Memory>
        ensures { IfOk result (λ text. text ≡ line self.now) };
}

/// What stops a program before it has anything to write.
#[derive(Debug, Drop)]
pub enum ProgramStop<F> {
    /// Its words ask for nothing that it does.
    Usage,
    /// A read failed.
    ReadFault,
    /// It found this, and the line says so.
    Found { finding: F, note: Bytes },
    /// Want of memory.
    Memory,
}

/// What a finding stops a program with. Its line is made at once, so that no memory is wanted when it is
/// handed out.
pub fn found<F: Finding>(alloc: Global, finding: F) -> ProgramStop<F>
    ensures { IsStopOf F.line finding result }
{
    match finding.line(alloc) {
        Ok(note) => ProgramStop::Found { finding, note },
        Err(_) => ProgramStop::Memory,
    }
}

impl<F: Finding> ProgramStop<F> {
    /// How the program ends.
    pub fn status(&self) -> Status
        ensures { result ≡ status_of F.verdict self.now }
    {
        match self {
            ProgramStop::Usage => Status::Usage,
            ProgramStop::ReadFault => Status::ReadFault,
            ProgramStop::Found { finding, .. } => Status::Found(finding.verdict()),
            ProgramStop::Memory => Status::NoMemory,
        }
    }
}

impl<F> ProgramStop<F> {
    /// The line that goes to notes.
    pub fn note(&self) -> &[u8]
        ensures { result.now ≡ note_of self.now }
    {
        match self {
            ProgramStop::Usage => b"usage\n",
            ProgramStop::ReadFault => b"read fault\n",
            ProgramStop::Found { note, .. } => note.as_slice(),
            ProgramStop::Memory => b"no memory\n",
        }
    }
}

impl<F> From<Memory> for ProgramStop<F> {
    ghost use Rattle.std.specs.Prelude.{◌≡◌};
    ghost use Rattle.program_status.specs.declared.stops.ProgramStop.TheVariants as stops;

    ghost from_gives = { λ _ stop. stop ≡ stops.Memory };

    fn from(_error: Memory) -> ProgramStop<F> {
        ProgramStop::Memory
    }
}

impl<F> From<InputFault> for ProgramStop<F> {
    ghost use Rattle.std.specs.Prelude.{◌≡◌};
    ghost use Rattle.program_status.specs.Stops.{stop_of};

    ghost from_gives = { λ fault stop. stop ≡ stop_of fault };

    fn from(fault: InputFault) -> ProgramStop<F> {
        match fault {
            InputFault::Failed => ProgramStop::ReadFault,
            InputFault::Memory => ProgramStop::Memory,
        }
    }
}
