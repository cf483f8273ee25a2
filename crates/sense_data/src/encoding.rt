ghost use Rattle.sense_data.specs.declared.senses.Sense.{Sense};
ghost use Rattle.std.specs.Prelude.{◌≡◌, ◌<◌, ◌^◌};
ghost use Rattle.sense_data.specs.Reading.{header_fields, additional_fields, AdditionalFits};
ghost use Rattle.sense_data.specs.Senses.{spelling, Fits, SpellsSense};

use crate::layout::{
    ADDITIONAL_LENGTH, Additional, Header, RESPONSE_CODE, additional_block, header_block,
};
use crate::{Pointer, Sense};

/// The 18 bytes that spell a sense (SPC, fixed format, current error).
pub fn encode(sense: &Sense) -> [u8; 18]
    ensures bytes { result ≡ spelling sense.now }
    // So decode gives the sense again.
    ensures spells { SpellsSense result sense.now }
{
    let mut bytes = header_block(header_from(*sense));
    bytes[8..].copy_from_slice(&additional_block(additional_from(*sense))[8..]);
    bytes
}

fn header_from(sense: Sense) -> Header
    ensures fields { result ≡ header_fields sense }
    ensures key { result.key < 16 }
    ensures information { result.information < 2 ^ 32 }
{
    Header {
        valid: sense.information.is_some(),
        code: RESPONSE_CODE,
        key: sense.key,
        information: sense.information.unwrap_or(0),
        additional_length: ADDITIONAL_LENGTH,
    }
}

fn additional_from(sense: Sense) -> Additional
    ensures fields { result ≡ additional_fields sense }
    ensures fits { AdditionalFits result }
{
    let Sense {
        specific,
        asc,
        ascq,
        fru,
        pointer,
        ..
    } = sense;
    match pointer {
        None => Additional {
            specific,
            asc,
            ascq,
            fru,
            sksv: false,
            command: false,
            bpv: false,
            bit: 0,
            byte: 0,
        },
        Some(Pointer { command, bit, byte }) => Additional {
            specific,
            asc,
            ascq,
            fru,
            sksv: true,
            command,
            bpv: bit.is_some(),
            bit: bit.unwrap_or(0),
            byte,
        },
    }
}

/// Two senses are never spelt alike.
pub fn spelling_law()
    ensures { (v w : Sense) → Fits v → Fits w → spelling v ≡ spelling w → v ≡ w }
{}
