//! Whether held blocks, or a request to a peer, may be discarded at a target.

ghost use Rattle.std.specs.Prelude.{◌≡◌, IfOk};
ghost use Rattle.run_check.specs.WipedTest.{may_wipe};

use crate::gone::are_owners;
use array_journal::What;
use blocks_core::{Memory, Owners};
use std::alloc::Global;
use xor_buffers::HeldList;

/// Whether a target may be wiped.
pub fn may_wipe(
    alloc: Global,
    what: What,
    commands: &Owners,
    buffer: &HeldList,
) -> Result<bool, Memory>
    ensures { IfOk result (λ r. r ≡ may_wipe what commands.now buffer.now) }
{
    match what {
        What::Buffers => are_owners(alloc, buffer, commands),
        What::Request => Ok(commands.len() == 0),
    }
}
