ghost use Rattle.std.specs.Prelude.{◌≡◌};

use crate::calls::Calls;
use blocks_core::{Bytes, Memory};
use stripe_layout::{Geometry, Mode};

/// What an array is, and what its hosts ask of it.
#[derive(Debug, Drop)]
pub struct Script {
    /// 1, which has one area, or 2.
    pub version: u8,
    pub geometry: Geometry,
    /// Blocks that each target can hold as deltas.
    pub buffer: u32,
    /// Of each target's first page: maximum XOR write size, maximum regenerate size and maximum
    /// rebuild size, in blocks. Zero means no maximum.
    pub maxima: [u32; 3],
    pub mode: Mode,
    /// Where the schedule starts.
    pub seed: u32,
    /// How many hosts. Their letters are A, B and so on.
    pub hosts: u8,
    /// The hosts, A as 0, that have the first turns. No turns spell no line.
    pub order: Bytes,
    pub calls: Calls,
}

/// What one host asks of the array.
#[derive(Debug, Drop)]
pub struct Call {
    /// Its letter is A and so many further.
    pub host: u8,
    pub action: Action,
}

/// What is asked.
#[derive(Debug, Drop)]
pub enum Action {
    /// READ(10) of so many blocks.
    Read { lba: u32, count: u16 },
    /// WRITE(10) of these bytes, which are whole blocks.
    Write { lba: u32, bytes: Bytes },
    /// WRITE(10) of so many blocks, each byte of them this one.
    Fill { lba: u32, count: u16, byte: u8 },
    /// A command descriptor block of at least one byte, and the bytes sent with it.
    Raw { cdb: Bytes, bytes: Bytes },
    /// The operator takes a target's disk away.
    Lose { target: u8 },
    /// The operator resets a target.
    Reset { target: u8 },
    /// The next request that a target sends to another is dropped.
    DropNext { target: u8 },
    /// The operator puts a new disk in.
    Replace { target: u8 },
    /// All units of a target's new disk are rebuilt.
    Rebuild { target: u8 },
    /// All stripes' parity is made anew.
    Resync,
}

/// Why a line is refused.
#[derive(Clone, Copy, Debug, PartialEq, Eq)]
pub enum Cause {
    /// No rule that is allowed at its place spells the line, or it has no end.
    Form,
    /// A number, a host's letter or a target is outside its range.
    Range,
    /// The bytes of a write aren't whole blocks, or are more than 65535 blocks.
    Size,
}

/// What a script or a bench may have only so much of.
#[derive(Clone, Copy, Debug, PartialEq, Eq)]
pub enum Limit {
    /// Call lines, or lines of a bench behind its header.
    Calls,
    /// Blocks that calls read or write.
    Blocks,
    /// Bytes of these blocks, or bytes that a bench's lines move.
    Moved,
    /// Bytes of all targets' media together.
    Media,
    /// Calls that go over all stripes.
    Passes,
}

/// Why there is no script, or no bench.
#[derive(Clone, Copy, Debug, PartialEq, Eq)]
pub enum ScriptFault {
    /// The first line that is refused, counted from 1, and the first cause in it.
    Refused { line: u32, cause: Cause },
    /// Want of memory.
    Memory,
}

impl From<Memory> for ScriptFault {
    ghost use Rattle.std.specs.Prelude.{◌≡◌};
    ghost use Rattle.host_scripts.specs.declared.script.ScriptFault.TheVariants as faults;

    ghost from_gives = { λ _ e. e ≡ faults.Memory };

    fn from(_error: Memory) -> ScriptFault {
        ScriptFault::Memory
    }
}

/// The refusal of a line.
pub fn refused(line: u32, cause: Cause) -> ScriptFault
    ensures { result ≡ ScriptFault.Refused line cause }
{
    ScriptFault::Refused { line, cause }
}
