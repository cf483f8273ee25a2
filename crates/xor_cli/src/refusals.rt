//! Why a script isn't run, and how it is said.

ghost use Rattle.std.specs.Prelude.{◌≡◌, IfOk};
ghost use Rattle.xor_cli.specs.RefusalTexts.{reason_of, reason_text, refusal_line};

use blocks_core::{Bytes, Memory};
use host_scripts::Cause;
use program_status::refused_line;
use std::alloc::Global;

/// Why a line is refused.
#[derive(Clone, Copy, Debug, PartialEq, Eq)]
pub enum Reason {
    /// No rule that is allowed at its place spells it.
    Form,
    /// A number, a host's letter or a target in it is outside its range.
    Range,
    /// The bytes of a write in it aren't whole blocks, or are too many.
    Size,
    /// It asks for what can't be run yet.
    Later,
}

/// The first line that is refused, counted from 1, and why.
#[derive(Clone, Copy, Debug, PartialEq, Eq)]
pub struct Refusal {
    pub line: u64,
    pub reason: Reason,
}

/// The reason that is a cause of the parser's.
pub fn reason_of(cause: Cause) -> Reason
    ensures { result ≡ reason_of cause }
{
    match cause {
        Cause::Form => Reason::Form,
        Cause::Range => Reason::Range,
        Cause::Size => Reason::Size,
    }
}

fn reason_text(reason: Reason) -> &'static [u8]
    ensures { result.now ≡ reason_text reason }
{
    match reason {
        Reason::Form => b"form",
        Reason::Range => b"range",
        Reason::Size => b"size",
        Reason::Later => b"later",
    }
}

/// The line of a refusal.
pub fn refusal_line(alloc: Global, refusal: Refusal) -> Result<Bytes, Memory>
    ensures { IfOk result (λ text. text ≡ refusal_line refusal) }
{
    refused_line(alloc, refusal.line, reason_text(refusal.reason))
}
