ghost use Rattle.std.specs.Prelude.{◌≡◌, ◌<◌, ◌++◌, replicate, if◌then◌else◌};
ghost use Rattle.sense_data.specs.Faults.{reserved_bits};
ghost use Rattle.sense_data.specs.Reading.{header_of, additional_of, header_bytes, additional_bytes};

use cdb_fields::fields;

pub(crate) const RESPONSE_CODE: u8 = 0x70;

pub(crate) const ADDITIONAL_LENGTH: u8 = 0x0a;

pub(crate) const ILLEGAL_REQUEST: u8 = 5;

/// Bytes 0 to 7 of sense data in fixed format (SPC).
#[derive(Clone, Copy, Debug, PartialEq, Eq)]
pub(crate) struct Header {
    pub(crate) valid: bool,
    pub(crate) code: u8,
    pub(crate) key: u8,
    pub(crate) information: u32,
    pub(crate) additional_length: u8,
}

macro_rules! header {
    ($($how:tt)+) => {
        fields!($($how)+; Header {
            valid: flag(0, 7),
            code: bits(0, 6, 0),
            key: bits(2, 3, 0),
            information: long(3),
            additional_length: byte(7),
        })
    };
}

/// Bytes 8 to 17, the additional sense bytes. Byte 15 has SKSV, C/D (`command`), BPV and the bit pointer,
/// and the field pointer follows it.
#[derive(Clone, Copy, Debug, PartialEq, Eq)]
pub(crate) struct Additional {
    pub(crate) specific: u32,
    pub(crate) asc: u8,
    pub(crate) ascq: u8,
    pub(crate) fru: u8,
    pub(crate) sksv: bool,
    pub(crate) command: bool,
    pub(crate) bpv: bool,
    pub(crate) bit: u8,
    pub(crate) byte: u16,
}

macro_rules! additional {
    ($($how:tt)+) => {
        fields!($($how)+; Additional {
            specific: long(8),
            asc: byte(12),
            ascq: byte(13),
            fru: byte(14),
            sksv: flag(15, 7),
            command: flag(15, 6),
            bpv: flag(15, 3),
            bit: bits(15, 2, 0),
            byte: short(16),
        })
    };
}

/// The bits that must be zero: of byte 2 beside the sense key, and of byte 15 with a pointer, with one at
/// no bit, with a key that has none, and with none.
const KEY_RESERVED: u8 = 0xf0;

const POINTER_RESERVED: u8 = 0x30;

const POINTER_AT_NO_BIT_RESERVED: u8 = 0x37;

const OTHER_KEY_RESERVED: u8 = 0xb0;

const NO_POINTER_RESERVED: u8 = 0xff;

/// The bits that must be zero, by the fields that say so; for byte 7 all, once its value is taken away.
pub(crate) fn reserved(header: &Header, additional: &Additional) -> [u8; 18]
    ensures { result
        ≡ reserved_bits header.now.valid header.now.key additional.now.sksv additional.now.bpv }
{
    let unless_valid = unless(header.valid);
    let unless_sksv = unless(additional.sksv);
    let byte_15 = if !additional.sksv {
        NO_POINTER_RESERVED
    } else if header.key != ILLEGAL_REQUEST {
        OTHER_KEY_RESERVED
    } else if !additional.bpv {
        POINTER_AT_NO_BIT_RESERVED
    } else {
        POINTER_RESERVED
    };
    [
        0,
        0xff,
        KEY_RESERVED,
        unless_valid,
        unless_valid,
        unless_valid,
        unless_valid,
        0xff,
        0,
        0,
        0,
        0,
        0,
        0,
        0,
        byte_15,
        unless_sksv,
        unless_sksv,
    ]
}

fn unless(used: bool) -> u8
    ensures { result ≡ (if used then 0 else 0xff) }
{
    if used { 0 } else { 0xff }
}

pub(crate) fn read_header(bytes: &[u8; 18]) -> Header
    ensures { result ≡ header_of bytes.now }
{
    header!(get bytes)
}

pub(crate) fn read_additional(bytes: &[u8; 18]) -> Additional
    ensures { result ≡ additional_of bytes.now }
{
    additional!(get bytes)
}

/// The bytes of a header, with zeros after it.
pub(crate) fn header_block(header: Header) -> [u8; 18]
    requires code { header.code < 128 }
    requires key { header.key < 16 }
    ensures { result ≡ header_bytes header ++ replicate 10 0 }
{
    let mut bytes = [0; 18];
    header!(put &mut bytes, header);
    bytes
}

/// The additional sense bytes, with zeros before them.
pub(crate) fn additional_block(additional: Additional) -> [u8; 18]
    requires { additional.bit < 8 }
    ensures { result ≡ replicate 8 0 ++ additional_bytes additional }
{
    let mut bytes = [0; 18];
    additional!(put &mut bytes, additional);
    bytes
}
