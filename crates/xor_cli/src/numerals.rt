//! Numbers and bytes that stand in words.

ghost use Rattle.std.specs.Prelude.{◌≡◌, IfOk, OnErr, IsSome};
ghost use Rattle.xor_cli.specs.WordReading.{number_of, hex_of};

use blocks_core::{Bytes, Memory};
use std::alloc::Global;
use text_fields::{filled_bytes, number_u32};

/// The number below 2^32 whose decimal digits these are.
pub fn number_of(text: &str) -> Option<u32>
    ensures { result ≡ number_of text.now }
{
    number_u32(text.as_bytes())
}

/// The bytes that a text is in hexadecimal, at least one, each as two digits in lower case. Takes memory
/// only for a text that is some.
pub fn hex_of(alloc: Global, text: &str) -> Result<Option<Bytes>, Memory>
    ensures found { IfOk result (λ found. found ≡ hex_of text.now) }
    ensures memory { OnErr result (IsSome (hex_of text.now)) }
{
    filled_bytes(alloc, text.as_bytes())
}
