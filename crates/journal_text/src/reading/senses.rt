//! Why a piece was refused.

ghost use Rattle.std.specs.Prelude.{◌∷◌, []};
ghost use Rattle.text_fields.specs.Reading.{Reads};
ghost use Rattle.journal_text.specs.Senses.{upper_of, key_of, code_of, pointed_of, sense_with, sense_made, sense_of, plain_why_of, why_of};

use array_journal::Why;
use sense_data::{Pointer, Sense};
use text_fields::{cut, is_text, number_u16, strip};

/// The sense key ILLEGAL REQUEST.
const ILLEGAL_REQUEST: u8 = 5;

/// The value of one hexadecimal digit, in upper case.
fn upper_nibble(digit: u8) -> Option<u8>
    ensures { Reads (λ n. n) result (upper_of digit) }
{
    match digit {
        b'0'..=b'9' => Some(digit - b'0'),
        b'A'..=b'F' => Some(digit - b'A' + 10),
        _ => None,
    }
}

/// A sense key, one digit.
#[tactic(auto, unfolding(crate::specs::Senses::key_of))]
fn key_in(text: &[u8]) -> Option<u8>
    ensures { Reads (λ n. n) result (key_of text.now) }
{
    match text {
        [digit] => upper_nibble(*digit),
        _ => None,
    }
}

#[tactic(auto, unfolding(crate::specs::Senses::code_of))]
fn upper_byte(high: u8, low: u8) -> Option<u8>
    ensures { Reads (λ n. n) result (code_of (high ∷ low ∷ [])) }
{
    let high = upper_nibble(high)?;
    let low = upper_nibble(low)?;
    Some(high * 16 + low)
}

/// A code, two digits.
#[tactic(auto, unfolding(crate::specs::Senses::code_of))]
fn code_in(text: &[u8]) -> Option<u8>
    ensures { Reads (λ n. n) result (code_of text.now) }
{
    match text {
        [high, low] => upper_byte(*high, *low),
        _ => None,
    }
}

/// A sense with a byte of the CDB that is in error, which only the key ILLEGAL REQUEST has.
fn pointed_in(key: u8, asc: u8, ascq: u8, text: &[u8]) -> Option<Sense>
    ensures { Reads (λ s. s) result (pointed_of key asc ascq text.now) }
{
    if key != ILLEGAL_REQUEST {
        return None;
    }
    let Some(byte) = number_u16(text) else {
        return None;
    };
    Some(Sense::illegal(asc, ascq, Some(Pointer::in_cdb(byte))))
}

/// A sense, with a dash where no byte is in error.
fn sense_to(key: u8, asc: u8, ascq: u8, text: &[u8]) -> Option<Sense>
    ensures { Reads (λ s. s) result (sense_with key asc ascq text.now) }
{
    if !is_text(text, b"-") {
        return pointed_in(key, asc, ascq, text);
    }
    if key >= 16 {
        return None;
    }
    Some(Sense {
        key,
        information: None,
        specific: 0,
        asc,
        ascq,
        fru: 0,
        pointer: None,
    })
}

/// A sense by its four texts.
#[tactic(auto, unfolding(crate::specs::Senses::sense_made))]
fn sense_from(key: &[u8], asc: &[u8], ascq: &[u8], pointer: &[u8]) -> Option<Sense>
    ensures { Reads (λ s. s) result (sense_made key.now asc.now ascq.now pointer.now) }
{
    let key = key_in(key)?;
    let asc = code_in(asc)?;
    let ascq = code_in(ascq)?;
    sense_to(key, asc, ascq, pointer)
}

/// Sense key, codes and the byte in error, with colons between them.
#[tactic(auto, unfolding(crate::specs::Senses::sense_of))]
fn sense_in(text: &[u8]) -> Option<Sense>
    ensures { Reads (λ s. s) result (sense_of text.now) }
{
    let (key, rest) = cut(text, b':')?;
    let (asc, rest) = cut(rest, b':')?;
    let (ascq, pointer) = cut(rest, b':')?;
    sense_from(key, asc, ascq, pointer)
}

/// A reason that is one word of a few.
#[tactic(auto, unfolding(crate::specs::Senses::plain_why_of))]
fn plain_why_in(word: &[u8]) -> Option<Why>
    ensures { Reads (λ x. x) result (plain_why_of word.now) }
{
    if is_text(word, b"medium") {
        Some(Why::Medium)
    } else if is_text(word, b"notready") {
        Some(Why::NotReady)
    } else if is_text(word, b"unfitted") {
        Some(Why::Unfitted)
    } else if is_text(word, b"present") {
        Some(Why::Present)
    } else if is_text(word, b"listed") {
        Some(Why::Listed)
    } else if is_text(word, b"second") {
        Some(Why::Second)
    } else if is_text(word, b"clean") {
        Some(Why::Clean)
    } else if is_text(word, b"absent") {
        Some(Why::Absent)
    } else if is_text(word, b"notlost") {
        Some(Why::NotLost)
    } else {
        None
    }
}

/// Why a piece was refused.
#[tactic(auto, unfolding(crate::specs::Senses::why_of))]
pub fn why_in(word: &[u8]) -> Option<Why>
    ensures { Reads (λ x. x) result (why_of word.now) }
{
    let Some(text) = strip(word, b"illegal:") else {
        return plain_why_in(word);
    };
    let sense = sense_in(text)?;
    Some(Why::Illegal { sense })
}
