ghost use Rattle.std.specs.Prelude.{◌≡◌, ◌≤◌, ◌+◌, length, take, drop, Some, IfOk, OnOk, IfSome, IsErrOf};
ghost use Rattle.std.specs.Io.KnownBytes.{Consumes, IsAtEnd};
ghost use Rattle.outer_io.specs.Outside.{HasRisen, LosesAtMost, input_limit};

use crate::traits::{Failed, Source};
use blocks_core::{Bytes, Memory};
use std::alloc::Global;

/// The most bytes of an input.
pub const READ_LIMIT: usize = 50_331_648;

/// How many bytes are asked for at a time.
const CHUNK: usize = 8192;

/// Why an input wasn't read.
#[derive(Clone, Copy, Debug, PartialEq, Eq)]
pub enum InputFault {
    Failed,
    Memory,
}

impl From<Memory> for InputFault {
    ghost use Rattle.std.specs.Prelude.{◌≡◌};
    ghost use Rattle.outer_io.specs.declared.input.InputFault.TheVariants as faults;

    ghost from_gives = { λ _ e. e ≡ faults.Memory };

    fn from(_error: Memory) -> InputFault {
        InputFault::Memory
    }
}

impl From<Failed> for InputFault {
    ghost use Rattle.std.specs.Prelude.{◌≡◌};
    ghost use Rattle.outer_io.specs.declared.input.InputFault.TheVariants as faults;

    ghost from_gives = { λ _ e. e ≡ faults.Failed };

    fn from(_error: Failed) -> InputFault {
        InputFault::Failed
    }
}

/// Reads a source to its end, or to one byte past the limit, and takes no byte behind that.
pub fn read_input<S: Source>(alloc: Global, source: &mut S) -> Result<Bytes, InputFault>
    // What is read.
    ensures bytes { IfOk result (λ bytes. IfSome (S.left source.old) (λ left. bytes ≡ take (input_limit + 1) left)) }
    ensures bound { IfOk result (λ bytes. length bytes ≤ input_limit + 1) }
    ensures end { IfOk result (λ bytes. length bytes ≤ input_limit → IsAtEnd (S.left source.new)) }

    // What is taken: what is read stood before what is left; and no more than so many bytes, also where
    // memory runs out. What a call takes that fails is the source's own matter.
    ensures taken { IsErrOf result InputFault.Memory → LosesAtMost (input_limit + 1) (S.left source.old) (S.left source.new) }
    ensures consumed { IfOk result (Consumes (S.left source.old) (S.left source.new)) }
    ensures rest { OnOk result (IfSome (S.left source.old) (λ left. S.left source.new ≡ Some (drop (input_limit + 1) left))) }

    // A failed read is answered only where the source counted one.
    ensures never_falls { S.faults source.old ≤ S.faults source.new }
    ensures failed { IsErrOf result InputFault.Failed → HasRisen (S.faults source.old) (S.faults source.new) }
{
    let mut bytes = Bytes::new(alloc);
    let mut chunk = [0; CHUNK];
    // One byte past the limit is read, and only one: it tells an input that is too long from one that ends
    // at the limit.
    while bytes.len() <= READ_LIMIT {
        let room = CHUNK.min(READ_LIMIT + 1 - bytes.len());
        let count = source.read(&mut chunk[..room])?;
        if count == 0 {
            return Ok(bytes);
        }
        bytes.push_slice(&chunk[..count])?;
    }
    Ok(bytes)
}
