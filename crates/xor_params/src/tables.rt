//! The descriptors of a parameter list as sixteen bytes each.

ghost use Rattle.std.specs.Prelude.{◌≡◌, ◌<◌, ◌≤◌, ◌+◌, ◌*◌, ◌^◌, length, map, IfOk, MatchOption};
ghost use Rattle.xor_params.specs.ParameterLists.{descriptor, announced_sources};
ghost use Rattle.xor_params.specs.Contents.{descriptors_in, source_in, is_stranger, first_stranger};
ghost use Rattle.xor_params.specs.Tables.{HasPlaces, IsClean, IsLowestOffence};

use crate::sources::{Descriptor, Descriptors};
use blocks_core::Memory;
use cdb_fields::{fields, first_reserved};
use std::alloc::Global;

/// The table of a descriptor, of which the other bytes are zero.
macro_rules! descriptor {
    ($($how:tt)+) => {
        fields!($($how)+; Descriptor { target: byte(7), lba: long(12) })
    };
}

/// The bits of a descriptor that must be zero, byte by byte: the first seven bytes of the address, and the
/// four bytes behind the target's number.
const RESERVED: [u8; 16] = [
    0xff, 0xff, 0xff, 0xff, 0xff, 0xff, 0xff, 0, 0xff, 0xff, 0xff, 0xff, 0, 0, 0, 0,
];

/// The descriptors that the head of the bytes announces.
pub fn table_of(bytes: &[u8]) -> &[[u8; 16]]
    requires head { 4 ≤ length bytes.now }
    requires whole { 4 + 16 * announced_sources bytes.now ≤ length bytes.now }
    ensures pieces { result.now ≡ descriptors_in bytes.now }
    ensures count { length result.now ≡ announced_sources bytes.now }
    ensures places { HasPlaces bytes.now result.now }
{
    let end = 4 + 16 * usize::from(bytes[0]);
    let (table, _) = bytes[4..end].as_chunks::<16>();
    table
}

/// The lowest place in the descriptors of a byte with a bit that must be zero and isn't.
pub fn offence(table: &[[u8; 16]]) -> Option<u32>
    requires { length table.now ≤ 255 }
    ensures { MatchOption result (IsClean table.now) (IsLowestOffence table.now) }
{
    for (number, descriptor) in table.iter().enumerate() {
        if let Some(inner) = first_reserved(&RESERVED, descriptor) {
            return Some(16 * number as u32 + u32::from(inner));
        }
    }
    None
}

/// The sources that the descriptors name.
pub fn sources_of(alloc: Global, table: &[[u8; 16]]) -> Result<Descriptors, Memory>
    ensures { IfOk result (λ sources. sources ≡ map source_in table.now) }
{
    let mut sources = Descriptors::new(alloc);
    for descriptor in table {
        sources.push(source_of(descriptor))?;
    }
    Ok(sources)
}

/// Where the first descriptor has its target's number that names none of so many targets, or the target
/// `number`: counted from the list's start.
pub fn first_stranger(table: &[[u8; 16]], targets: u8, number: u8) -> Option<u16>
    requires { length table.now ≤ 255 }
    ensures { result ≡ first_stranger 0 targets number (map source_in table.now) }
{
    for (k, descriptor) in table.iter().enumerate() {
        if is_stranger(&source_of(descriptor), targets, number) {
            return Some(4 + 16 * k as u16 + 7);
        }
    }
    None
}

fn is_stranger(source: &Descriptor, targets: u8, number: u8) -> bool
    ensures { result ≡ is_stranger targets number source.now }
{
    source.target >= targets || source.target == number
}

/// The source that a descriptor names.
fn source_of(bytes: &[u8; 16]) -> Descriptor
    ensures { result ≡ source_in bytes.now }
{
    descriptor!(get bytes)
}

/// The descriptor of a source.
pub fn bytes_of(source: &Descriptor) -> [u8; 16]
    ensures bytes { result ≡ descriptor source.now }
    ensures address { source.now.lba < 2 ^ 32 }
{
    let mut bytes = [0; 16];
    descriptor!(put &mut bytes, *source);
    bytes
}
