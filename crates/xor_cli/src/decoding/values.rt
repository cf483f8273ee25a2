//! The values that bytes spell.

ghost use Rattle.std.specs.Prelude.{◌≡◌};
ghost use Rattle.xor_cli.specs.Decoding.{IsAnswer};
ghost use Rattle.xor_cli.specs.DecodeAnswers.{cdb_answer, sense_answer, page_answer, params_answer};

use crate::decoding::DecodeFault;
use blocks_core::Memory;
use sbc_cdbs::CdbFault;
use sense_data::{Sense, SenseFault};
use std::alloc::Global;
use xor_mode_page::{PageFault, XorPage};
use xor_params::{ParamFault, Params};

/// What bytes are to be read as.
#[derive(Clone, Copy, Debug, PartialEq, Eq)]
pub enum Format {
    /// A command descriptor block (SBC, SPC).
    Cdb,
    /// Sense data in fixed format (SPC).
    Sense,
    /// The XOR control mode page (SBC).
    Page,
    /// A parameter list of REBUILD or REGENERATE (SBC), by the INTDATA bit of its command and the number
    /// of bytes of intermediate data that come where the bit is one.
    Params { intdata: bool, wanted: u32 },
}

/// What bytes were read as.
#[derive(Debug, Drop)]
pub enum DecodedValue {
    Cdb(sbc_cdbs::Command),
    Sense(Sense),
    Page(XorPage),
    Params(Params),
}

/// Why there is no value.
#[derive(Clone, Copy, Debug, PartialEq, Eq)]
pub enum Undecoded {
    Faulty(DecodeFault),
    Memory,
}

fn cdb_answer(read: Result<sbc_cdbs::Command, CdbFault>) -> Result<DecodedValue, Undecoded>
    ensures { result ≡ cdb_answer read }
{
    match read {
        Ok(command) => Ok(DecodedValue::Cdb(command)),
        Err(CdbFault::OpCode { code }) => Err(Undecoded::Faulty(DecodeFault::OpCode { code })),
        Err(CdbFault::Length { want, got }) => Err(Undecoded::Faulty(DecodeFault::Length {
            want: u64::from(want),
            got: got as u64,
        })),
        Err(CdbFault::Bits { byte }) => Err(Undecoded::Faulty(DecodeFault::Bits { byte })),
    }
}

fn sense_answer(read: Result<Sense, SenseFault>) -> Result<DecodedValue, Undecoded>
    ensures { result ≡ sense_answer read }
{
    match read {
        Ok(sense) => Ok(DecodedValue::Sense(sense)),
        Err(SenseFault::Length { got }) => Err(Undecoded::Faulty(DecodeFault::Length {
            want: 18,
            got: got as u64,
        })),
        Err(SenseFault::Code { got }) => Err(Undecoded::Faulty(DecodeFault::Code { got })),
        Err(SenseFault::Bits { byte }) => Err(Undecoded::Faulty(DecodeFault::Bits { byte })),
    }
}

fn page_answer(read: Result<XorPage, PageFault>) -> Result<DecodedValue, Undecoded>
    ensures { result ≡ page_answer read }
{
    match read {
        Ok(page) => Ok(DecodedValue::Page(page)),
        Err(PageFault::Length { want, got }) => Err(Undecoded::Faulty(DecodeFault::Length {
            want: want as u64,
            got: got as u64,
        })),
        Err(PageFault::Field { byte }) => Err(Undecoded::Faulty(DecodeFault::Field {
            byte: u32::from(byte),
        })),
    }
}

fn params_answer(read: Result<Params, ParamFault>) -> Result<DecodedValue, Undecoded>
    ensures { result ≡ params_answer read }
{
    match read {
        Ok(params) => Ok(DecodedValue::Params(params)),
        Err(ParamFault::Length { want, got }) => {
            Err(Undecoded::Faulty(DecodeFault::Length { want, got }))
        }
        Err(ParamFault::Field { byte }) => Err(Undecoded::Faulty(DecodeFault::Field { byte })),
        Err(ParamFault::Memory) => Err(Undecoded::Memory),
    }
}

/// The value that the bytes spell in this format, or their first fault. Only a parameter list takes
/// memory, and only where the bytes spell one.
pub fn value_of(alloc: Global, format: Format, bytes: &[u8]) -> Result<DecodedValue, Undecoded>
    ensures { IsAnswer format bytes.now result }
{
    match format {
        Format::Cdb => cdb_answer(sbc_cdbs::decode(bytes)),
        Format::Sense => sense_answer(sense_data::decode(bytes)),
        Format::Page => page_answer(xor_mode_page::decode_page(bytes)),
        Format::Params { intdata, wanted } => params_answer(xor_params::decode(
            alloc,
            bytes,
            intdata,
            u64::from(wanted),
        )),
    }
}
