//! `blocks_core`: lists, whole blocks and sums.

ghost use Rattle.std.specs.Prelude.{◌≡◌, IfOk};

use blocks_core::{Blocks, Bytes, Memory, Owners, XorSum};
use std::alloc::Global;
use text_fields::{push_counted, push_hex};

pub fn push_blocks_core(alloc: Global, text: &mut Bytes) -> Result<(), Memory> {
    push_bytes(alloc, text)?;
    push_owners(alloc, text)?;
    push_blocks(alloc, text)?;
    push_sum(alloc, text)
}

/// The bytes of a list that grew, and how many a copy has.
fn push_bytes(alloc: Global, text: &mut Bytes) -> Result<(), Memory> {
    let mut list = Bytes::from_slice(alloc, b"ab")?;
    list.push(b'c')?;
    list.push_slice(b"de")?;
    text.push_slice(b"bytes ")?;
    push_hex(text, list.as_slice())?;
    push_counted(text, b" copied", list.copy(alloc)?.len() as u64)?;
    text.push_slice(b"\n")
}

/// The first number of a copied list.
fn push_owners(alloc: Global, text: &mut Bytes) -> Result<(), Memory> {
    let mut owners = Owners::new(alloc);
    owners.push(7)?;
    let copied = owners.copy(alloc)?.get(0).copied().unwrap_or(0);
    push_counted(text, b"owners", u64::from(copied))?;
    text.push_slice(b"\n")
}

/// How many blocks, a copy, and the exclusive-or with others.
fn push_blocks(alloc: Global, text: &mut Bytes) -> Result<(), Memory> {
    let a = Blocks::new(2, four_bytes(alloc, [1, 2, 3, 4])?);
    let b = Blocks::new(2, four_bytes(alloc, [5, 6, 7, 8])?);
    let (Ok(a), Ok(b)) = (a, b) else {
        return text.push_slice(b"ragged\n");
    };
    push_counted(text, b"blocks", u64::from(a.count()))?;
    text.push_slice(b" copied ")?;
    push_hex(text, a.copy(alloc)?.as_slice())?;
    if a.block() != b.block() || a.as_slice().len() != b.as_slice().len() {
        return text.push_slice(b" differ\n");
    }
    text.push_slice(b" xor ")?;
    push_hex(text, Blocks::xor_of(alloc, &a, &b)?.as_slice())?;
    text.push_slice(b"\n")
}

fn four_bytes(alloc: Global, bytes: [u8; 4]) -> Result<Bytes, Memory>
    ensures { IfOk result (λ copy. copy ≡ bytes) }
{
    Bytes::from_slice(alloc, &bytes)
}

/// A sum that grew with what was added.
fn push_sum(alloc: Global, text: &mut Bytes) -> Result<(), Memory> {
    let mut sum = XorSum::new(alloc, 1)?;
    sum.add(&[5, 1])?;
    sum.add(&[4])?;
    text.push_slice(b"sum ")?;
    push_hex(text, sum.into_bytes().as_slice())?;
    text.push_slice(b"\n")
}
