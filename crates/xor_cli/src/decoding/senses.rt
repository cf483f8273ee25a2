//! The text of sense data.

ghost use Rattle.std.specs.Prelude.{◌≡◌, ◌<◌, ◌++◌, OnOk};
ghost use Rattle.std.specs.Io.{StartsWith};
ghost use Rattle.xor_cli.specs.DecodeTexts.{block_name, pointer_text, codes_text, details_text, key_text, place_text, sense_text};

use crate::text::{push_field, push_optional};
use blocks_core::{Bytes, Memory};
use sense_data::{Pointer, Sense};
use text_fields::{push_upper_byte, upper_nibble};

/// What a pointer points into.
fn block_name(command: bool) -> &'static [u8]
    ensures { result.now ≡ block_name command }
{
    if command { b"cdb" } else { b"list" }
}

#[tactic(auto, using(text_fields::proofs::Fronts::fronts), unfolding(crate::specs::DecodeTexts::pointer_text))]
fn push_pointer(text: &mut Bytes, pointer: Option<Pointer>) -> Result<(), Memory>
    ensures ok { OnOk result (text.new ≡ text.old ++ pointer_text pointer) }
    ensures front { StartsWith text.new text.old }
{
    match pointer {
        None => text.push(b'-'),
        Some(Pointer { command, bit, byte }) => {
            text.push_slice(block_name(command))?;
            push_field(text, b"byte", u64::from(byte))?;
            text.push_slice(b" bit ")?;
            push_optional(text, bit.map(u64::from))
        }
    }
}

/// The additional sense code and its qualifier.
#[tactic(auto, using(text_fields::proofs::Fronts::fronts), unfolding(crate::specs::DecodeTexts::codes_text))]
fn push_codes(text: &mut Bytes, asc: u8, ascq: u8) -> Result<(), Memory>
    ensures ok { OnOk result (text.new ≡ text.old ++ codes_text asc ascq) }
    ensures front { StartsWith text.new text.old }
{
    text.push_slice(b" asc ")?;
    push_upper_byte(text, asc)?;
    text.push_slice(b" ascq ")?;
    push_upper_byte(text, ascq)
}

/// The numbers that go with a sense.
#[tactic(auto, using(text_fields::proofs::Fronts::fronts), unfolding(crate::specs::DecodeTexts::details_text))]
fn push_details(
    text: &mut Bytes,
    information: Option<u32>,
    specific: u32,
    fru: u8,
) -> Result<(), Memory>
    ensures ok { OnOk result (text.new ≡ text.old ++ details_text information specific fru) }
    ensures front { StartsWith text.new text.old }
{
    text.push_slice(b" info ")?;
    push_optional(text, information.map(u64::from))?;
    push_field(text, b"specific", u64::from(specific))?;
    push_field(text, b"fru", u64::from(fru))
}

#[tactic(auto, using(text_fields::proofs::Fronts::fronts), unfolding(crate::specs::DecodeTexts::key_text))]
fn push_key(text: &mut Bytes, key: u8) -> Result<(), Memory>
    requires { key < 16 }
    ensures ok { OnOk result (text.new ≡ text.old ++ key_text key) }
    ensures front { StartsWith text.new text.old }
{
    text.push_slice(b"sense key ")?;
    text.push(upper_nibble(key))
}

#[tactic(auto, using(text_fields::proofs::Fronts::fronts), unfolding(crate::specs::DecodeTexts::place_text))]
fn push_place(text: &mut Bytes, pointer: Option<Pointer>) -> Result<(), Memory>
    ensures ok { OnOk result (text.new ≡ text.old ++ place_text pointer) }
    ensures front { StartsWith text.new text.old }
{
    text.push_slice(b" pointer ")?;
    push_pointer(text, pointer)
}

#[tactic(auto, using(text_fields::proofs::Fronts::fronts))]
pub fn push_sense(text: &mut Bytes, sense: &Sense) -> Result<(), Memory>
    ensures ok { OnOk result (text.new ≡ text.old ++ sense_text sense.now) }
    ensures front { StartsWith text.new text.old }
{
    push_key(text, sense.key)?;
    push_codes(text, sense.asc, sense.ascq)?;
    push_details(text, sense.information, sense.specific, sense.fru)?;
    push_place(text, sense.pointer)
}
