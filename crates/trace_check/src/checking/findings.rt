//! What an input is found to be, and the lines that say so.

ghost use Rattle.std.specs.Prelude.{◌≡◌, IfOk};
ghost use Rattle.trace_check.specs.Notes.{accepted_line};

use blocks_core::{Bytes, Memory};
use host_scripts::{Cause, Limit};
use program_status::{Excess, Verdict, cause_word, excess_line, numbered_line, refused_line};
use std::alloc::Global;

/// Why an input isn't accepted.
#[derive(Clone, Copy, Debug, PartialEq, Eq)]
pub(crate) enum CheckFinding {
    /// It has more bytes than are read.
    TooLong,
    /// This line of the script is refused, counted from 1; 0 where no line is `output`.
    Refused { line: u32, cause: Cause },
    /// The script passes this limit.
    Over { limit: Limit },
    /// This line of the input, counted from 1, spells no entry that may stand behind those before.
    TextLine { line: u64 },
    /// This entry, counted from 1, may not follow the ones before.
    RunEntry { entry: u32 },
    /// The journal isn't what the calls ask for.
    Unasked,
    /// The report differs from that of the journal in this line, counted from 1.
    ReportLine { line: u64 },
}

impl program_status::Finding for CheckFinding {
    ghost use Rattle.trace_check.specs.Endings.{verdict_of};
    ghost use Rattle.trace_check.specs.Notes.{finding_line};

    ghost verdict = { verdict_of };

    ghost line = { finding_line };

    fn verdict(&self) -> Verdict {
        match self {
            CheckFinding::Refused { .. } => Verdict::Refused,
            CheckFinding::TooLong | CheckFinding::Over { .. } => Verdict::Exceeded,
            CheckFinding::TextLine { .. }
            | CheckFinding::RunEntry { .. }
            | CheckFinding::Unasked
            | CheckFinding::ReportLine { .. } => Verdict::Rejected,
        }
    }

    fn line(&self, alloc: Global) -> Result<Bytes, Memory> {
        match *self {
            CheckFinding::TooLong => Bytes::from_slice(alloc, excess_line(Excess::Input)),
            CheckFinding::Refused { line, cause } => {
                refused_line(alloc, u64::from(line), cause_word(cause))
            }
            CheckFinding::Over { limit } => Bytes::from_slice(
                alloc,
                excess_line(Excess::Counted(limit)),
            ),
            CheckFinding::TextLine { line } => numbered_line(alloc, b"rejected text line", line),
            CheckFinding::RunEntry { entry } => {
                numbered_line(alloc, b"rejected run entry", u64::from(entry))
            }
            CheckFinding::Unasked => Bytes::from_slice(alloc, b"rejected asked\n"),
            CheckFinding::ReportLine { line } => numbered_line(
                alloc,
                b"rejected report line",
                line,
            ),
        }
    }
}

/// The line of an input that is accepted, with so many entries.
pub(crate) fn accepted_line(alloc: Global, entries: u64) -> Result<Bytes, Memory>
    ensures { IfOk result (λ text. text ≡ accepted_line entries) }
{
    numbered_line(alloc, b"accepted entries", entries)
}
