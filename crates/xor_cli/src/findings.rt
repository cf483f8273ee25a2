//! What a command finds where nothing comes of it.

ghost use Rattle.xor_cli.specs.declared.findings.ToolFinding.TheVariants as findings;
ghost use Rattle.xor_cli.specs.Statuses.{IsStopOf};

use crate::decoding::{DecodeFault, fault_line};
use crate::refusals::{Reason, Refusal, refusal_line};
use blocks_core::{Bytes, Memory};
use program_status::{Excess, ProgramStop, Verdict, excess_line, found};
use std::alloc::Global;

/// What a command finds its input, or the bytes in its words, to be where nothing comes of them.
#[derive(Clone, Copy, Debug, PartialEq, Eq)]
pub enum ToolFinding {
    /// This line of the script or the bench is refused.
    Refused(Refusal),
    /// There is too much of something.
    Exceeded(Excess),
    /// The bytes spell no value, and this is their first fault.
    Undecodable(DecodeFault),
}

impl program_status::Finding for ToolFinding {
    ghost use Rattle.xor_cli.specs.Statuses.{verdict_of, finding_line};

    ghost verdict = { verdict_of };

    ghost line = { finding_line };

    fn verdict(&self) -> Verdict {
        match self {
            ToolFinding::Refused(_) | ToolFinding::Undecodable(_) => Verdict::Refused,
            ToolFinding::Exceeded(_) => Verdict::Exceeded,
        }
    }

    fn line(&self, alloc: Global) -> Result<Bytes, Memory> {
        match *self {
            ToolFinding::Refused(refusal) => refusal_line(alloc, refusal),
            ToolFinding::Exceeded(excess) => Bytes::from_slice(alloc, excess_line(excess)),
            ToolFinding::Undecodable(fault) => fault_line(alloc, fault),
        }
    }
}

/// What the refusal of a line stops a run with.
pub fn refused(alloc: Global, line: u64, reason: Reason) -> ProgramStop<ToolFinding>
    ensures { IsStopOf (findings.Refused (record { line = line; reason = reason })) result }
{
    found(alloc, ToolFinding::Refused(Refusal { line, reason }))
}
