//! Exclusive-or of what entries read.

ghost use Rattle.std.specs.Prelude.{◌≡◌, IfOk, OnOk, map};
ghost use Rattle.blocks_core.specs.Xor.{xor, xor_all};
ghost use Rattle.array_journal.specs.May.{bytes_named};

use crate::names::bytes_named;
use array_journal::At;
use blocks_core::{Bytes, Memory, XorSum};
use journal_index::Past;
use std::alloc::Global;

/// Adds what the entry of a name read or took.
fn add_named(sum: &mut XorSum, past: &Past, name: At) -> Result<(), Memory>
    ensures { OnOk result (sum.new ≡ xor sum.old (bytes_named past.now name)) }
{
    sum.add(bytes_named(past, name))
}

/// The exclusive-or of bytes, what the named entries read or took, and so many zeros.
pub fn sum_over(
    alloc: Global,
    past: &Past,
    first: &[u8],
    len: usize,
    names: &[At],
) -> Result<Bytes, Memory>
    ensures { IfOk result (λ sum. sum ≡ xor first.now (xor_all len (map (bytes_named past.now) names.now))) }
{
    let mut sum = XorSum::new(alloc, 0)?;
    sum.add(first)?;
    for name in names {
        add_named(&mut sum, past, *name)?;
    }
    let zeros = XorSum::new(alloc, len)?;
    sum.add(zeros.as_slice())?;
    Ok(sum.into_bytes())
}
