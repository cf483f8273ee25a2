//! The table of each command: its operation code, its fields, and beside them the bits that must be zero
//! (SBC; SPC for the MODE commands). The last byte of a block, CONTROL, is zero.
//! The bits that must be zero are just those that neither the operation code nor a field takes. Where a
//! field is put into a table and not taken out of the mask beside it, decode refuses what encode writes:
//! against decode's clause `read`.

pub(crate) const READ: u8 = 0x28;

pub(crate) const WRITE: u8 = 0x2a;

pub(crate) const XDWRITE: u8 = 0x50;

pub(crate) const XPWRITE: u8 = 0x51;

pub(crate) const XDREAD: u8 = 0x52;

pub(crate) const XDWRITEREAD: u8 = 0x53;

pub(crate) const MODE_SELECT: u8 = 0x55;

pub(crate) const MODE_SENSE: u8 = 0x5a;

pub(crate) const XDWRITE_EXTENDED: u8 = 0x80;

pub(crate) const REBUILD: u8 = 0x81;

pub(crate) const REGENERATE: u8 = 0x82;

/// READ(10), WRITE(10) and XPWRITE.
macro_rules! transfer {
    ($variant:ident, $($how:tt)+) => {
        fields!($($how)+; Command::$variant { dpo: flag(1, 4), fua: flag(1, 3), lba: long(2), length: short(7) })
    };
}

pub(crate) const TRANSFER_RESERVED: [u8; 10] = [0, 0xe7, 0, 0, 0, 0, 0xff, 0, 0, 0xff];

/// XDWRITE and XDWRITEREAD(10).
macro_rules! xdwrite {
    ($variant:ident, $($how:tt)+) => {
        fields!($($how)+; Command::$variant {
            dpo: flag(1, 4),
            fua: flag(1, 3),
            disable: flag(1, 2),
            lba: long(2),
            length: short(7),
        })
    };
}

pub(crate) const XDWRITE_RESERVED: [u8; 10] = [0, 0xe3, 0, 0, 0, 0, 0xff, 0, 0, 0xff];

macro_rules! xdread {
    ($variant:ident, $($how:tt)+) => {
        fields!($($how)+; Command::$variant { lba: long(2), length: short(7) })
    };
}

pub(crate) const XDREAD_RESERVED: [u8; 10] = [0, 0xff, 0, 0, 0, 0, 0xff, 0, 0, 0xff];

macro_rules! mode_select {
    ($variant:ident, $($how:tt)+) => {
        fields!($($how)+; Command::$variant { pf: flag(1, 4), sp: flag(1, 0), list: short(7) })
    };
}

pub(crate) const MODE_SELECT_RESERVED: [u8; 10] = [
    0, 0xee, 0xff, 0xff, 0xff, 0xff, 0xff, 0, 0, 0xff,
];

macro_rules! mode_sense {
    ($variant:ident, $($how:tt)+) => {
        fields!($($how)+; Command::$variant {
            dbd: flag(1, 3),
            pc: bits(2, 7, 6),
            page: bits(2, 5, 0),
            allocation: short(7),
        })
    };
}

pub(crate) const MODE_SENSE_RESERVED: [u8; 10] = [0, 0xf7, 0, 0xff, 0xff, 0xff, 0xff, 0, 0, 0xff];

macro_rules! xdwrite_extended {
    ($variant:ident, $($how:tt)+) => {
        fields!($($how)+; Command::$variant {
            dpo: flag(1, 4),
            fua: flag(1, 3),
            disable: flag(1, 2),
            lba: long(2),
            second: long(6),
            length: long(10),
            address: byte(14),
        })
    };
}

pub(crate) const XDWRITE_EXTENDED_RESERVED: [u8; 16] = [
    0, 0xe3, 0, 0, 0, 0, 0, 0, 0, 0, 0, 0, 0, 0, 0, 0xff,
];

/// REBUILD and REGENERATE.
macro_rules! rebuild {
    ($variant:ident, $($how:tt)+) => {
        fields!($($how)+; Command::$variant {
            dpo: flag(1, 4),
            fua: flag(1, 3),
            intdata: flag(1, 2),
            lba: long(2),
            length: long(6),
            list: long(10),
        })
    };
}

pub(crate) const REBUILD_RESERVED: [u8; 16] = [
    0, 0xe3, 0, 0, 0, 0, 0, 0, 0, 0, 0, 0, 0, 0, 0xff, 0xff,
];

pub(crate) use mode_select;
pub(crate) use mode_sense;
pub(crate) use rebuild;
pub(crate) use transfer;
pub(crate) use xdread;
pub(crate) use xdwrite;
pub(crate) use xdwrite_extended;
