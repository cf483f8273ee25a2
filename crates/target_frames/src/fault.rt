ghost use Rattle.std.specs.Prelude.{◌≡◌};
ghost use Rattle.target_frames.specs.declared.fault.FrameFault.TheVariants as faults;

use blocks_core::Memory;
use std::alloc::{AllocError, AllocFailed};

/// Why a piece of a stream wasn't taken.
#[derive(Clone, Copy, Debug, PartialEq, Eq)]
pub enum FrameFault {
    /// A field of the opening or of a frame's head has no value that it may have. `byte` is the place in the
    /// stream of its first byte, and of several such fields of one head this is the lowest.
    Field { byte: u64 },
    /// Want of memory. Nothing of the piece was taken, so it may be fed again.
    Memory,
}

impl From<Memory> for FrameFault {
    ghost from_gives = { λ _ e. e ≡ faults.Memory };

    fn from(_error: Memory) -> FrameFault {
        FrameFault::Memory
    }
}

impl From<AllocError> for FrameFault {
    ghost from_gives = { λ _ e. e ≡ faults.Memory };

    fn from(_error: AllocError) -> FrameFault {
        FrameFault::Memory
    }
}
