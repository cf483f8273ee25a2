//! The fields of a trace, each behind a space.

ghost use Rattle.std.specs.Prelude.{◌≡◌, ◌++◌, ◌∷◌, [], OnOk, codes};
ghost use Rattle.std.specs.Fmt.{decimal};
ghost use Rattle.text_fields.specs.Spelling.{hex_or_dash, upper_byte};
ghost use Rattle.journal_text.specs.Traces.{field, flag_text, at_text, cause_text, further, names_text, owners_text, kind_text, what_text, pointer_text, sense_text, why_text};

use array_journal::{At, Kind, What, Why};
use blocks_core::{Bytes, Memory};
use sense_data::{Pointer, Sense};
use text_fields::{push_data, push_number, push_upper_byte, upper_nibble};

/// A field of one or more words.
fn put_word(text: &mut Bytes, word: &[u8]) -> Result<(), Memory>
    ensures { OnOk result (text.new ≡ text.old ++ field word.now) }
{
    text.push(b' ')?;
    text.push_slice(word)
}

/// A space and a number in decimal, at the end of a text.
pub fn put_number(text: &mut Bytes, number: u64) -> Result<(), Memory>
    ensures { OnOk result (text.new ≡ text.old ++ field (decimal number)) }
{
    text.push(b' ')?;
    push_number(text, number)
}

/// A space and `1` for true or `0` for false, at the end of a text.
pub fn put_flag(text: &mut Bytes, flag: bool) -> Result<(), Memory>
    ensures { OnOk result (text.new ≡ text.old ++ field (flag_text flag)) }
{
    if flag {
        put_word(text, b"1")
    } else {
        put_word(text, b"0")
    }
}

/// A space and bytes in lower-case hexadecimal, or a dash for none, at the end of a text.
pub fn put_bytes(text: &mut Bytes, bytes: &[u8]) -> Result<(), Memory>
    ensures { OnOk result (text.new ≡ text.old ++ field (hex_or_dash bytes.now)) }
{
    text.push(b' ')?;
    push_data(text, bytes)
}

fn push_at(text: &mut Bytes, at: &At) -> Result<(), Memory>
    ensures { OnOk result (text.new ≡ text.old ++ at_text at.now) }
{
    push_number(text, at.stamp)?;
    text.push(b'.')?;
    push_number(text, u64::from(at.lock))
}

pub fn put_at(text: &mut Bytes, at: &At) -> Result<(), Memory>
    ensures { OnOk result (text.new ≡ text.old ++ field (at_text at.now)) }
{
    text.push(b' ')?;
    push_at(text, at)
}

pub fn put_cause(text: &mut Bytes, cause: &Option<At>) -> Result<(), Memory>
    ensures { OnOk result (text.new ≡ text.old ++ field (cause_text cause.now)) }
{
    match cause {
        None => put_word(text, b"-"),
        Some(at) => put_at(text, at),
    }
}

fn push_further_names(text: &mut Bytes, names: &[At]) -> Result<(), Memory>
    ensures { OnOk result (text.new ≡ text.old ++ further at_text names.now) }
{
    for name in names {
        text.push_slice(b",")?;
        push_at(text, name)?;
    }
    Ok(())
}

/// Names with commas between them, or a dash for none.
pub fn put_names(text: &mut Bytes, names: &[At]) -> Result<(), Memory>
    ensures { OnOk result (text.new ≡ text.old ++ field (names_text names.now)) }
{
    match names {
        [] => put_word(text, b"-"),
        [first, others @ ..] => {
            put_at(text, first)?;
            push_further_names(text, others)
        }
    }
}

fn push_further_owners(text: &mut Bytes, owners: &[u32]) -> Result<(), Memory>
    ensures { OnOk result (text.new ≡ text.old ++ further decimal owners.now) }
{
    for owner in owners {
        text.push(b',')?;
        push_number(text, u64::from(*owner))?;
    }
    Ok(())
}

/// Numbers with commas between them, or a dash for none.
pub fn put_owners(text: &mut Bytes, owners: &[u32]) -> Result<(), Memory>
    ensures { OnOk result (text.new ≡ text.old ++ field (owners_text owners.now)) }
{
    match owners {
        [] => put_word(text, b"-"),
        [first, others @ ..] => {
            put_number(text, u64::from(*first))?;
            push_further_owners(text, others)
        }
    }
}

pub fn put_kind(text: &mut Bytes, kind: Kind) -> Result<(), Memory>
    ensures { OnOk result (text.new ≡ text.old ++ field (kind_text kind)) }
{
    match kind {
        Kind::Read => put_word(text, b"read"),
        Kind::Update => put_word(text, b"update"),
        Kind::DataOnly => put_word(text, b"dataonly"),
        Kind::DegradedRead => put_word(text, b"degradedread"),
        Kind::DegradedWrite => put_word(text, b"degradedwrite"),
        Kind::Rebuild => put_word(text, b"rebuild"),
        Kind::Resync => put_word(text, b"resync"),
    }
}

pub fn put_what(text: &mut Bytes, what: What) -> Result<(), Memory>
    ensures { OnOk result (text.new ≡ text.old ++ field (what_text what)) }
{
    match what {
        What::Buffers => put_word(text, b"buffers"),
        What::Request => put_word(text, b"request"),
    }
}

fn push_pointer(text: &mut Bytes, pointer: &Option<Pointer>) -> Result<(), Memory>
    ensures { OnOk result (text.new ≡ text.old ++ pointer_text pointer.now) }
{
    match pointer {
        None => text.push(b'-'),
        Some(pointer) => push_number(text, u64::from(pointer.byte)),
    }
}

fn push_code(text: &mut Bytes, code: u8) -> Result<(), Memory>
    ensures { OnOk result (text.new ≡ text.old ++ (upper_byte code ++ (58 ∷ []))) }
{
    push_upper_byte(text, code)?;
    text.push(b':')
}

fn push_sense(text: &mut Bytes, sense: &Sense) -> Result<(), Memory>
    ensures { OnOk result (text.new ≡ text.old ++ sense_text sense.now) }
{
    text.push(upper_nibble(sense.key))?;
    text.push(b':')?;
    push_code(text, sense.asc)?;
    push_code(text, sense.ascq)?;
    push_pointer(text, &sense.pointer)
}

fn put_illegal(text: &mut Bytes, sense: &Sense) -> Result<(), Memory>
    ensures { OnOk result (text.new ≡ text.old ++ field (codes "illegal:" ++ sense_text sense.now)) }
{
    put_word(text, b"illegal:")?;
    push_sense(text, sense)
}

pub fn put_why(text: &mut Bytes, why: &Why) -> Result<(), Memory>
    ensures { OnOk result (text.new ≡ text.old ++ field (why_text why.now)) }
{
    match why {
        Why::Illegal { sense } => put_illegal(text, sense),
        Why::Medium => put_word(text, b"medium"),
        Why::NotReady => put_word(text, b"notready"),
        Why::Unfitted => put_word(text, b"unfitted"),
        Why::Present => put_word(text, b"present"),
        Why::Listed => put_word(text, b"listed"),
        Why::Second => put_word(text, b"second"),
        Why::Clean => put_word(text, b"clean"),
        Why::Absent => put_word(text, b"absent"),
        Why::NotLost => put_word(text, b"notlost"),
    }
}
