ghost use Rattle.std.specs.Prelude.{◌≡◌, ◌<◌, Ok, Err, IfOk, IfErr, IsTrue, MatchResult, MatchOption, EachIndex, option_map};
ghost use Rattle.cdb_fields.specs.Fields.{IsFirstShared, SharesNone};
ghost use Rattle.sense_data.specs.declared.decoding.SenseFault.{SenseFault};
ghost use Rattle.sense_data.specs.declared.senses.Sense.{Sense};
ghost use Rattle.sense_data.specs.Faults.{IsFault, mask_of, without_length};
ghost use Rattle.sense_data.specs.Reading.{header_of, additional_of, pointer_parts, pointer_given, values, values_given};
ghost use Rattle.sense_data.specs.Senses.{SpellsSense};

use crate::layout::{
    ADDITIONAL_LENGTH, Additional, Header, RESPONSE_CODE, read_additional, read_header, reserved,
};
use crate::{Pointer, Sense};
use cdb_fields::first_reserved;

/// Why bytes are no sense data of this format.
#[derive(Clone, Copy, Debug, PartialEq, Eq)]
pub enum SenseFault {
    /// There are `got` bytes, not 18.
    Length { got: usize },
    /// The response code, bits 6 to 0 of byte 0, is not 70h.
    Code { got: u8 },
    /// A bit is not as it must be; `byte` is the lowest byte with such a bit.
    Bits { byte: u16 },
}

/// The sense that 18 bytes spell (SPC, fixed format, current error), else the first fault: the length,
/// the response code, the lowest byte with a bit that is not as it must be.
pub fn decode(bytes: &[u8]) -> Result<Sense, SenseFault>
    ensures spelt { IfOk result (SpellsSense bytes.now) }
    ensures read { (s : Sense) → SpellsSense bytes.now s → result ≡ Ok s }
    ensures fault { IfErr result (IsFault bytes.now) }
    ensures refused { (f : SenseFault) → IsFault bytes.now f → result ≡ Err f }
{
    first_answer(bytes)
}

/// The same answer by one clause in the place of four: that a fault is answered exactly where it is the
/// first follows from it, since bytes spell at most one sense and have at most one first fault.
fn first_answer(bytes: &[u8]) -> Result<Sense, SenseFault>
    ensures { MatchResult result (SpellsSense bytes.now) (IsFault bytes.now) }
{
    match bytes.as_array::<18>() {
        Some(block) => block_answer(block),
        None => Err(SenseFault::Length { got: bytes.len() }),
    }
}

fn block_answer(block: &[u8; 18]) -> Result<Sense, SenseFault>
    ensures { MatchResult result (SpellsSense block.now) (IsFault block.now) }
{
    let header = read_header(block);
    if header.code != RESPONSE_CODE {
        return Err(SenseFault::Code { got: header.code });
    }
    let additional = read_additional(block);
    if let Some(byte) = first_offending(block, &header, &additional) {
        return Err(SenseFault::Bits { byte });
    }
    Ok(sense_of(header, additional))
}

/// The lowest byte with a bit that is not as it must be.
fn first_offending(block: &[u8; 18], header: &Header, additional: &Additional) -> Option<u16>
    requires header { header.now ≡ header_of block.now }
    requires additional { additional.now ≡ additional_of block.now }
    ensures { let mask = mask_of block.now in let rest = without_length block.now in
        MatchOption result (EachIndex rest (SharesNone mask rest)) (IsFirstShared mask rest) }
{
    let mut rest = *block;
    // Byte 7 has to be 0Ah, where all other fixed bits have to be zero. With 0Ah folded in it is zero
    // exactly where it is right: so one mask judges all bytes, and the lowest offending one comes first
    // also where it is this one.
    rest[7] ^= ADDITIONAL_LENGTH;
    first_reserved(&reserved(header, additional), &rest)
}

fn sense_of(header: Header, additional: Additional) -> Sense
    requires key { header.key < 16 }
    requires bit { additional.bit < 8 }
    requires illegal { IsTrue additional.sksv → header.key ≡ 5 }
    ensures { values result ≡ values_given header additional }
{
    Sense {
        key: header.key,
        information: if header.valid {
            Some(header.information)
        } else {
            None
        },
        specific: additional.specific,
        asc: additional.asc,
        ascq: additional.ascq,
        fru: additional.fru,
        pointer: pointer_of(&additional),
    }
}

fn pointer_of(additional: &Additional) -> Option<Pointer>
    requires { additional.now.bit < 8 }
    ensures { option_map pointer_parts result ≡ pointer_given additional.now }
{
    if !additional.sksv {
        return None;
    }
    let bit = if additional.bpv {
        Some(additional.bit)
    } else {
        None
    };
    Some(Pointer {
        command: additional.command,
        bit,
        byte: additional.byte,
    })
}
