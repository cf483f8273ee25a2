//! Bytes as pairs of hexadecimal digits, in lower case. A text that is none takes no memory.

ghost use Rattle.std.specs.Prelude.{◌≡◌, IsSome, OnErr};
ghost use Rattle.std.specs.List.{list_all};
ghost use Rattle.text_fields.specs.Reading.{Reads, Spelt, nibble_of, byte_of, hex_of, filled_of, data_of, one_byte_of};
ghost use Rattle.text_fields.specs.Digits.{is_digit, is_hex};

use blocks_core::{Bytes, Memory};
use std::alloc::Global;

/// The value of one hexadecimal digit, in lower case.
fn nibble(digit: u8) -> Option<u8>
    ensures { Reads (λ n. n) result (nibble_of digit) }
{
    match digit {
        b'0'..=b'9' => Some(digit - b'0'),
        b'a'..=b'f' => Some(digit - b'a' + 10),
        _ => None,
    }
}

/// The byte of two digits.
#[tactic(auto, unfolding(crate::specs::Reading::byte_of))]
fn byte_of_digits(high: u8, low: u8) -> Option<u8>
    ensures { Reads (λ n. n) result (byte_of high low) }
{
    let high = nibble(high)?;
    let low = nibble(low)?;
    Some(high * 16 + low)
}

/// The byte of just one pair of digits.
#[tactic(auto, unfolding(crate::specs::Reading::one_byte_of))]
pub fn one_byte(text: &[u8]) -> Option<u8>
    ensures { Reads (λ n. n) result (one_byte_of text.now) }
{
    match text {
        [high, low] => byte_of_digits(*high, *low),
        _ => None,
    }
}

/// Whether a byte is a digit in lower case: `hex::decode` takes both cases, and a spelling is to be the
/// only one.
fn is_digit(byte: u8) -> bool
    ensures { result ≡ is_digit byte }
{
    (b'0' <= byte && byte <= b'9') || (b'a' <= byte && byte <= b'f')
}

fn are_digits(text: &[u8]) -> bool
    ensures { result ≡ list_all is_digit text.now }
{
    text.iter().all(|byte| is_digit(*byte))
}

/// Whether a text is pairs of digits.
fn is_hex(text: &[u8]) -> bool
    ensures { result ≡ is_hex text.now }
{
    text.len() % 2 == 0 && are_digits(text)
}

/// The bytes that pairs of lower-case hexadecimal digits spell; none where the text is no such pairs. No
/// digits spell no bytes.
pub fn hex_bytes(alloc: Global, text: &[u8]) -> Result<Option<Bytes>, Memory>
    ensures value { Spelt result (hex_of text.now) }
    ensures memory { OnErr result (IsSome (hex_of text.now)) }
{
    if !is_hex(text) {
        return Ok(None);
    }
    match hex::decode(alloc, text) {
        Ok(bytes) => Ok(Some(Bytes::from_vec(bytes))),
        // That these are pairs of digits was tested above, so memory is all that can be wanting. It is
        // tested first so that a text that is none never answers want of memory.
        Err(_) => Err(Memory),
    }
}

/// The bytes of at least one pair of digits.
#[tactic(auto, unfolding(crate::specs::Reading::filled_of))]
pub fn filled_bytes(alloc: Global, text: &[u8]) -> Result<Option<Bytes>, Memory>
    ensures value { Spelt result (filled_of text.now) }
    ensures memory { OnErr result (IsSome (filled_of text.now)) }
{
    match text {
        [] => Ok(None),
        _ => hex_bytes(alloc, text),
    }
}

/// The bytes of a dash or of at least one pair of digits.
#[tactic(auto, unfolding(crate::specs::Reading::data_of))]
pub fn data_bytes(alloc: Global, text: &[u8]) -> Result<Option<Bytes>, Memory>
    ensures value { Spelt result (data_of text.now) }
    ensures memory { OnErr result (IsSome (data_of text.now)) }
{
    match text {
        [] => Ok(None),
        [b'-'] => Ok(Some(Bytes::new(alloc))),
        [_] => Ok(None),
        _ => hex_bytes(alloc, text),
    }
}
