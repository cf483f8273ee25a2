//! The tables of the standard, where no program hands over what is encoded here; and the places of an array.

use blocks_core::{Bytes, Memory};
use sbc_cdbs::{CdbFault, Command};
use sense_data::{Pointer, Sense};
use std::alloc::Global;
use stripe_layout::{Area, Areas, Geometry};
use text_fields::{push_counted, push_hex};
use xor_params::{Descriptor, Descriptors, Params};

pub fn push_tables(alloc: Global, text: &mut Bytes) -> Result<(), Memory> {
    push_places(text)?;
    push_cdbs(text)?;
    push_sense(text)?;
    push_params(alloc, text)
}

/// Three targets, a unit of one block, two stripes: a line for each block, with stripe, target, parity
/// target and row.
fn push_places(text: &mut Bytes) -> Result<(), Memory> {
    let area = Area {
        unit: 1,
        stripes: 2,
    };
    let geometry = Geometry {
        targets: 3,
        block: 8,
        areas: Areas::new(area),
    };
    for lba in 0..4 {
        let place = geometry.place(lba);
        push_counted(text, b"place", u64::from(lba))?;
        push_counted(text, b" stripe", u64::from(place.stripe))?;
        push_counted(text, b" target", u64::from(place.target))?;
        push_counted(text, b" parity", u64::from(place.parity))?;
        push_counted(text, b" row", u64::from(place.row))?;
        text.push_slice(b"\n")?;
    }
    Ok(())
}

/// No byte, which no program hands over, and a command that none sends yet.
fn push_cdbs(text: &mut Bytes) -> Result<(), Memory> {
    if let Err(CdbFault::Length { want, got }) = sbc_cdbs::decode(&[]) {
        push_counted(text, b"no cdb", u64::from(want))?;
        push_counted(text, b"", got as u64)?;
    }
    let command = Command::XdWriteRead {
        dpo: true,
        fua: false,
        disable: true,
        lba: 258,
        length: 772,
    };
    let block = sbc_cdbs::encode(&command);
    text.push_slice(b"\ncdb ")?;
    push_hex(text, block.as_slice())?;
    if sbc_cdbs::decode(block.as_slice()) == Ok(command) {
        text.push_slice(b" read")?;
    }
    text.push_slice(b"\n")
}

/// A sense with information and with a pointer at a bit.
fn push_sense(text: &mut Bytes) -> Result<(), Memory> {
    let sense = Sense {
        key: 5,
        information: Some(256),
        specific: 7,
        asc: 0x26,
        ascq: 2,
        fru: 9,
        pointer: Some(Pointer {
            command: false,
            bit: Some(3),
            byte: 258,
        }),
    };
    text.push_slice(b"sense ")?;
    push_hex(text, &sense_data::encode(&sense))?;
    text.push_slice(b"\n")
}

/// A parameter list with one source, a byte of pad and two of intermediate data.
fn push_params(alloc: Global, text: &mut Bytes) -> Result<(), Memory> {
    let mut sources = Descriptors::new(alloc);
    sources.push(Descriptor {
        target: 2,
        lba: 0x0102_0304,
    })?;
    let params = Params {
        sources,
        pad: Bytes::from_slice(alloc, &[0xaa])?,
        intermediate: Bytes::from_slice(alloc, &[5, 6])?,
    };
    text.push_slice(b"list ")?;
    push_hex(text, xor_params::encode(alloc, &params)?.as_slice())?;
    text.push_slice(b"\n")
}
