use crate::sources::Descriptors;
use blocks_core::{Bytes, Memory};

/// A parameter list of REBUILD or REGENERATE (SBC): the sources, the pad behind their descriptors, whose
/// bytes mean nothing, and the intermediate data, which is empty where the command has none (INTDATA).
#[derive(Debug, Drop)]
pub struct Params {
    pub sources: Descriptors,
    pub pad: Bytes,
    pub intermediate: Bytes,
}

/// Why bytes aren't a parameter list, or that memory ran out.
#[derive(Clone, Copy, Debug, PartialEq, Eq)]
pub enum ParamFault {
    /// `want` bytes were due, and `got` came (PARAMETER LIST LENGTH ERROR).
    Length { want: u64, got: u64 },
    /// The byte at this place has a bit that it mustn't have (INVALID FIELD IN PARAMETER LIST).
    Field { byte: u32 },
    /// Want of memory. The bytes are a parameter list.
    Memory,
}

impl From<Memory> for ParamFault {
    ghost use Rattle.xor_params.specs.declared.lists.ParamFault.TheVariants as fault;
    ghost use Rattle.std.specs.Prelude.{◌≡◌};

    ghost from_gives = { λ _ e. e ≡ fault.Memory };

    fn from(_error: Memory) -> ParamFault {
        ParamFault::Memory
    }
}
