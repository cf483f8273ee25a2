//! The lines of values and of faults.

ghost use Rattle.std.specs.Prelude.{◌≡◌, ◌++◌, ◌∷◌, [], IfOk, OnOk, codes};
ghost use Rattle.std.specs.Io.{StartsWith};
ghost use Rattle.text_fields.specs.Spelling.{hex};
ghost use Rattle.xor_cli.specs.DecodeTexts.{field, value_text, fault_text, value_line, fault_line};

use crate::decoding::cdbs::push_cdb;
use crate::decoding::pages::push_page;
use crate::decoding::params::push_params;
use crate::decoding::senses::push_sense;
use crate::decoding::{DecodeFault, DecodedValue};
use crate::text::push_field;
use blocks_core::{Bytes, Memory};
use std::alloc::Global;
use text_fields::push_hex;

fn push_value(text: &mut Bytes, value: &DecodedValue) -> Result<(), Memory>
    ensures ok { OnOk result (text.new ≡ text.old ++ value_text value.now) }
    ensures front { StartsWith text.new text.old }
{
    match value {
        DecodedValue::Cdb(command) => push_cdb(text, command),
        DecodedValue::Sense(sense) => push_sense(text, sense),
        DecodedValue::Page(page) => push_page(text, page),
        DecodedValue::Params(params) => push_params(text, params),
    }
}

/// The line of a value.
pub fn value_line(alloc: Global, value: &DecodedValue) -> Result<Bytes, Memory>
    ensures { IfOk result (λ text. text ≡ value_line value.now) }
{
    let mut text = Bytes::new(alloc);
    push_value(&mut text, value)?;
    text.push(b'\n')?;
    Ok(text)
}

#[tactic(auto, using(text_fields::proofs::Fronts::fronts))]
fn push_coded(text: &mut Bytes, name: &[u8], code: u8) -> Result<(), Memory>
    ensures ok { OnOk result (text.new ≡ text.old ++ (name.now ++ hex (code ∷ []))) }
    ensures front { StartsWith text.new text.old }
{
    text.push_slice(name)?;
    push_hex(text, &[code])
}

#[tactic(auto, using(text_fields::proofs::Fronts::fronts))]
fn push_placed(text: &mut Bytes, name: &[u8], byte: u32) -> Result<(), Memory>
    ensures ok { OnOk result (text.new ≡ text.old ++ (name.now ++ field (codes "byte") byte)) }
    ensures front { StartsWith text.new text.old }
{
    text.push_slice(name)?;
    push_field(text, b"byte", u64::from(byte))
}

#[tactic(auto, using(text_fields::proofs::Fronts::fronts))]
fn push_length(text: &mut Bytes, want: u64, got: u64) -> Result<(), Memory>
    ensures ok { OnOk result (text.new ≡ text.old ++ (codes "fault length" ++ (field (codes "want") want ++ field (codes "got") got))) }
    ensures front { StartsWith text.new text.old }
{
    text.push_slice(b"fault length")?;
    push_field(text, b"want", want)?;
    push_field(text, b"got", got)
}

fn push_fault(text: &mut Bytes, fault: DecodeFault) -> Result<(), Memory>
    ensures ok { OnOk result (text.new ≡ text.old ++ fault_text fault) }
    ensures front { StartsWith text.new text.old }
{
    match fault {
        DecodeFault::OpCode { code } => push_coded(text, b"fault opcode ", code),
        DecodeFault::Length { want, got } => push_length(text, want, got),
        DecodeFault::Bits { byte } => push_placed(text, b"fault bits", u32::from(byte)),
        DecodeFault::Code { got } => push_coded(text, b"fault code ", got),
        DecodeFault::Field { byte } => push_placed(text, b"fault field", byte),
    }
}

/// The line of a fault.
pub fn fault_line(alloc: Global, fault: DecodeFault) -> Result<Bytes, Memory>
    ensures { IfOk result (λ text. text ≡ fault_line fault) }
{
    let mut text = Bytes::new(alloc);
    push_fault(&mut text, fault)?;
    text.push(b'\n')?;
    Ok(text)
}
