//! What a stream is found to be that isn't served to its end.

ghost use Rattle.std.specs.Prelude.{◌≡◌};
ghost use Rattle.target_service.specs.Found.{limit_line};

use blocks_core::{Bytes, Memory};
use host_scripts::Limit;
use program_status::{Excess, ProgramStop, Verdict, excess_line, numbered_line};
use std::alloc::Global;

/// What a stream has too much of.
#[derive(Clone, Copy, Debug, PartialEq, Eq)]
pub enum ServiceLimit {
    /// Bytes of all media together.
    Media,
    Frames,
    /// Bytes that the frames move.
    Moved,
}

/// Why a stream isn't served to its end.
#[derive(Clone, Copy, Debug, PartialEq, Eq)]
pub enum ServiceFinding {
    /// The field that begins at this byte of the stream, from 0, has no value that it may have.
    Refused { byte: u64 },
    /// The stream has so many bytes, and no opening, or its last item isn't whole.
    Ended { byte: u64 },
    /// The opening, or a frame, passes this limit.
    Over { limit: ServiceLimit },
}

/// Why a service ends before its stream does.
#[derive(Debug, Drop)]
pub enum ServiceStop {
    /// Notes say why.
    Noted(ProgramStop<ServiceFinding>),
    /// A reply wasn't written, so nothing more is.
    WriteFault,
}

impl program_status::Finding for ServiceFinding {
    ghost use Rattle.target_service.specs.Found.{verdict_of, finding_line};

    ghost verdict = { verdict_of };

    ghost line = { finding_line };

    fn verdict(&self) -> Verdict {
        match self {
            ServiceFinding::Refused { .. } | ServiceFinding::Ended { .. } => Verdict::Refused,
            ServiceFinding::Over { .. } => Verdict::Exceeded,
        }
    }

    fn line(&self, alloc: Global) -> Result<Bytes, Memory> {
        match *self {
            ServiceFinding::Refused { byte } => numbered_line(alloc, b"refused byte", byte),
            ServiceFinding::Ended { byte } => numbered_line(alloc, b"ended byte", byte),
            ServiceFinding::Over { limit } => Bytes::from_slice(alloc, limit_line(limit)),
        }
    }
}

/// The line of what there is too much of.
fn limit_line(limit: ServiceLimit) -> &'static [u8]
    ensures { result.now ≡ limit_line limit }
{
    match limit {
        ServiceLimit::Media => excess_line(Excess::Counted(Limit::Media)),
        ServiceLimit::Frames => b"limit frames\n",
        ServiceLimit::Moved => excess_line(Excess::Counted(Limit::Moved)),
    }
}
