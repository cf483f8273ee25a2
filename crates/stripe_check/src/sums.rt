//! What the units of a stripe come to.

ghost use Rattle.std.specs.Prelude.{◌≡◌, IfOk};
ghost use Rattle.blocks_core.specs.Xor.{xor_all};
ghost use Rattle.stripe_check.specs.Sums.{parts_on};

use crate::medium::ReplayedMedium;
use blocks_core::{Memory, XorSum};
use std::alloc::Global;

/// The exclusive-or of so many bytes from a place on, over all media.
pub fn parts_sum(
    alloc: Global,
    media: &[ReplayedMedium],
    at: usize,
    len: usize,
) -> Result<XorSum, Memory>
    ensures { IfOk result (λ sum. sum ≡ xor_all len (parts_on at len media.now)) }
{
    let mut sum = XorSum::new(alloc, len)?;
    for medium in media {
        sum.add(medium.part(at, len))?;
    }
    Ok(sum)
}
