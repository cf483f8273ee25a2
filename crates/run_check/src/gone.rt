//! Whether a target's disk may be lost.

ghost use Rattle.std.specs.Prelude.{◌≡◌, ◌<◌, IfOk};
ghost use Rattle.std.specs.Str.{bytes_eq};
ghost use Rattle.xor_buffers.specs.Held.{owners_of};
ghost use Rattle.run_check.specs.GoneTest.{may_lose};

use crate::targets::TargetState;
use blocks_core::{Memory, Owners};
use journal_index::Past;
use std::alloc::Global;
use xor_buffers::HeldList;

/// Whether these are the owners of what a buffer holds.
pub fn are_owners(alloc: Global, buffer: &HeldList, commands: &Owners) -> Result<bool, Memory>
    ensures { IfOk result (λ r. r ≡ bytes_eq commands.now (owners_of buffer.now)) }
{
    let owners = buffer.owners(alloc)?;
    Ok(commands.as_slice() == owners.as_slice())
}

/// Whether a target's disk may be lost.
pub fn may_lose(
    alloc: Global,
    past: &Past,
    target: &TargetState,
    life: u32,
    commands: &Owners,
) -> Result<bool, Memory>
    requires { target.now.number < 256 }
    ensures { IfOk result (λ r. r ≡ may_lose past.now target.now.number life commands.now target.now.buffer.now) }
{
    let lives = past.life_of(target.number);
    let owners = are_owners(alloc, target.buffer, commands)?;
    Ok(life as usize == lives && owners)
}
