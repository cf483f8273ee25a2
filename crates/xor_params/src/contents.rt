//! What a parameter list says, read from its bytes.

ghost use Rattle.std.specs.Prelude.{◌≡◌, IfOk};
ghost use Rattle.xor_params.specs.ParameterLists.{announced_room};
ghost use Rattle.xor_params.specs.Contents.{HasRoom, sources_in, pad_in, intermediate_in, stranger_in};

use crate::sources::Descriptors;
use crate::tables::{first_stranger, sources_of, table_of};
use blocks_core::Memory;
use std::alloc::Global;

/// The sources of a list, in the order in which they stand there.
pub fn sources_in(alloc: Global, bytes: &[u8]) -> Result<Descriptors, Memory>
    requires { HasRoom bytes.now }
    ensures { IfOk result (λ sources. sources ≡ sources_in bytes.now) }
{
    sources_of(alloc, table_of(bytes))
}

/// The pad of a list: what its head leaves behind the descriptors.
pub fn pad_in(bytes: &[u8]) -> &[u8]
    requires { HasRoom bytes.now }
    ensures { result.now ≡ pad_in bytes.now }
{
    let descriptors = 4 + 16 * usize::from(bytes[0]);
    &bytes[descriptors..4 + room_in(bytes)]
}

/// The intermediate data of a list: all behind descriptors and pad.
pub fn intermediate_in(bytes: &[u8]) -> &[u8]
    requires { HasRoom bytes.now }
    ensures { result.now ≡ intermediate_in bytes.now }
{
    &bytes[4 + room_in(bytes)..]
}

/// Where the first source of a list stands that is none of so many targets, or the target `number`, which asks
/// for the blocks: byte 7 of its descriptor, counted from the list's start.
pub fn stranger_in(bytes: &[u8], targets: u8, number: u8) -> Option<u16>
    requires { HasRoom bytes.now }
    ensures { result ≡ stranger_in targets number bytes.now }
{
    first_stranger(table_of(bytes), targets, number)
}

/// How many bytes of descriptors and pad the head announces.
fn room_in(bytes: &[u8]) -> usize
    requires { HasRoom bytes.now }
    ensures { result ≡ announced_room bytes.now }
{
    usize::from(u16::from_be_bytes([bytes[2], bytes[3]]))
}
