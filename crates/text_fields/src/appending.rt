//! Parts of a text, put at the end of its bytes. What stood there stays in front of them, also where memory
//! runs out.

ghost use Rattle.std.specs.Prelude.{◌≡◌, ◌<◌, ◌++◌, ◌∷◌, [], OnOk};
ghost use Rattle.std.specs.Fmt.{decimal};
ghost use Rattle.std.specs.Io.{StartsWith};
ghost use Rattle.text_fields.specs.Spelling.{nibble, hex, hex_or_dash, upper_nibble, upper_byte, counted};

use blocks_core::{Bytes, Memory};
use itoa::Buffer;

/// A number in decimal, at the end of a text.
pub fn push_number(text: &mut Bytes, number: u64) -> Result<(), Memory>
    ensures ok { OnOk result (text.new ≡ text.old ++ decimal number) }
    ensures front { StartsWith text.new text.old }
{
    let mut buffer = Buffer::new();
    text.push_slice(buffer.format(number).as_bytes())
}

/// A word, a space and a number in decimal, at the end of a text.
#[tactic(auto, using(crate::proofs::Fronts::front_start, crate::proofs::Fronts::front_still, crate::proofs::Fronts::front_further))]
pub fn push_counted(text: &mut Bytes, word: &[u8], number: u64) -> Result<(), Memory>
    ensures ok { OnOk result (text.new ≡ text.old ++ counted word.now number []) }
    ensures front { StartsWith text.new text.old }
{
    text.push_slice(word)?;
    text.push(b' ')?;
    push_number(text, number)
}

/// One hexadecimal digit, in lower case.
fn nibble(number: u8) -> u8
    requires { number < 16 }
    ensures { result ≡ nibble number }
{
    if number < 10 {
        b'0' + number
    } else {
        b'a' - 10 + number
    }
}

/// Each byte as two lower-case hexadecimal digits, at the end of a text.
#[tactic(auto, using(crate::proofs::Fronts::front_start, crate::proofs::Fronts::front_still, crate::proofs::Fronts::front_more))]
pub fn push_hex(text: &mut Bytes, bytes: &[u8]) -> Result<(), Memory>
    ensures ok { OnOk result (text.new ≡ text.old ++ hex bytes.now) }
    ensures front { StartsWith text.new text.old }
{
    for byte in bytes {
        text.push(nibble(*byte / 16))?;
        text.push(nibble(*byte % 16))?;
    }
    Ok(())
}

/// Bytes as digits, or a dash where there are none, at the end of a text.
pub fn push_data(text: &mut Bytes, bytes: &[u8]) -> Result<(), Memory>
    ensures ok { OnOk result (text.new ≡ text.old ++ hex_or_dash bytes.now) }
    ensures front { StartsWith text.new text.old }
{
    match bytes {
        [] => text.push(b'-'),
        _ => push_hex(text, bytes),
    }
}

/// The character of one hexadecimal digit, in upper case.
pub fn upper_nibble(number: u8) -> u8
    requires { number < 16 }
    ensures { result ≡ upper_nibble number }
{
    if number < 10 {
        b'0' + number
    } else {
        b'A' - 10 + number
    }
}

/// A byte as two upper-case hexadecimal digits, at the end of a text.
pub fn push_upper_byte(text: &mut Bytes, byte: u8) -> Result<(), Memory>
    ensures ok { OnOk result (text.new ≡ text.old ++ upper_byte byte) }
    ensures front { StartsWith text.new text.old }
{
    text.push(upper_nibble(byte / 16))?;
    text.push(upper_nibble(byte % 16))
}
