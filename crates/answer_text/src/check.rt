ghost use Rattle.std.specs.Prelude.{◌≡◌, ◌<◌, ◌++◌, ◌∷◌, OnOk};
ghost use Rattle.text_fields.specs.Spelling.{upper_byte};
ghost use Rattle.answer_text.specs.Answers.{plain_check, sense_check, byte_text, check_text, good_text};

use blocks_core::{Bytes, Memory};
use sense_data::Sense;
use text_fields::{push_hex, push_number, push_upper_byte, upper_nibble};

/// What a check tells: sense key, additional sense code and its qualifier, and the byte that the sense
/// points at.
#[derive(Clone, Copy, Debug, PartialEq, Eq)]
pub struct Check {
    pub key: u8,
    pub asc: u8,
    pub ascq: u8,
    pub byte: Option<u16>,
}

/// What is told of a sense.
pub fn check_of(sense: &Sense) -> Check
    ensures check { result ≡ sense_check sense.now }
    ensures key { result.key < 16 }
{
    Check {
        key: sense.key,
        asc: sense.asc,
        ascq: sense.ascq,
        byte: sense.pointer.map(|pointer| pointer.byte),
    }
}

/// A check that points at no byte.
pub fn plain_check(key: u8, asc: u8, ascq: u8) -> Check
    ensures { result ≡ plain_check key asc ascq }
{
    Check {
        key,
        asc,
        ascq,
        byte: None,
    }
}

fn push_byte_pointer(text: &mut Bytes, byte: Option<u16>) -> Result<(), Memory>
    ensures { OnOk result (text.new ≡ text.old ++ byte_text byte) }
{
    match byte {
        None => Ok(()),
        Some(byte) => {
            text.push_slice(b" byte ")?;
            push_number(text, u64::from(byte))
        }
    }
}

fn push_codes(text: &mut Bytes, check: &Check) -> Result<(), Memory>
    ensures { OnOk result (text.new ≡ text.old ++ (upper_byte check.now.asc ++ (47 ∷ upper_byte check.now.ascq))) }
{
    push_upper_byte(text, check.asc)?;
    text.push(b'/')?;
    push_upper_byte(text, check.ascq)
}

/// `check`, the sense key, and the codes, with the byte that the sense points at.
pub fn push_check(text: &mut Bytes, check: &Check) -> Result<(), Memory>
    requires { check.now.key < 16 }
    ensures { OnOk result (text.new ≡ text.old ++ check_text check.now) }
{
    text.push_slice(b"check ")?;
    text.push(upper_nibble(check.key))?;
    text.push(b' ')?;
    push_codes(text, check)?;
    push_byte_pointer(text, check.byte)
}

/// `good`, and the bytes that were read where there are some.
pub fn push_good(text: &mut Bytes, bytes: &[u8]) -> Result<(), Memory>
    ensures { OnOk result (text.new ≡ text.old ++ good_text bytes.now) }
{
    text.push_slice(b"good")?;
    if bytes.is_empty() {
        return Ok(());
    }
    text.push(b' ')?;
    push_hex(text, bytes)
}
