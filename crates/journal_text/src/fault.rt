//! Why nothing is read of a trace, or of a line.

use blocks_core::Memory;

/// Why there is no journal.
#[derive(Clone, Copy, Debug, PartialEq, Eq)]
pub enum TraceFault {
    /// This line, counted from 1, is the first that no entry spells with its end, or whose stamp and
    /// lock aren't greater than those of the line before.
    Line { line: u32 },
    /// Want of memory.
    Memory,
}

impl From<Memory> for TraceFault {
    ghost use Rattle.std.specs.Prelude.{◌≡◌};
    ghost use Rattle.journal_text.specs.declared.fault.TraceFault.TheVariants as faults;

    ghost from_gives = { λ _ e. e ≡ faults.Memory };

    fn from(_error: Memory) -> TraceFault {
        TraceFault::Memory
    }
}

/// Why nothing is read of a line.
#[derive(Clone, Copy, Debug, PartialEq, Eq)]
pub(crate) enum LineFault {
    /// Nothing is spelt so.
    Unspelt,
    /// Want of memory.
    Memory,
}

impl From<Memory> for LineFault {
    ghost use Rattle.std.specs.Prelude.{◌≡◌};
    ghost use Rattle.journal_text.specs.declared.fault.LineFault.TheVariants as faults;

    ghost from_gives = { λ _ e. e ≡ faults.Memory };

    fn from(_error: Memory) -> LineFault {
        LineFault::Memory
    }
}
