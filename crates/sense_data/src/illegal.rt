//! The senses of commands that are refused as they stand (SPC, sense key ILLEGAL REQUEST).

ghost use Rattle.std.specs.Prelude.{◌≡◌};
ghost use Rattle.sense_data.specs.Illegal.{in_cdb, in_list, illegal};

use crate::layout::ILLEGAL_REQUEST;
use crate::{Pointer, Sense};

impl Pointer {
    /// A pointer at a byte of the CDB (C/D one), with no bit named.
    pub fn in_cdb(byte: u16) -> Pointer
        ensures { result ≡ in_cdb byte }
    {
        Pointer {
            command: true,
            bit: None,
            byte,
        }
    }

    /// A pointer at a byte of the parameter list (C/D zero), with no bit named.
    pub fn in_list(byte: u16) -> Pointer
        ensures { result ≡ in_list byte }
    {
        Pointer {
            command: false,
            bit: None,
            byte,
        }
    }
}

impl Sense {
    /// ILLEGAL REQUEST with an additional sense code and its qualifier, and perhaps a pointer at the field in
    /// error. It says nothing of information, of the command or of a unit.
    pub fn illegal(asc: u8, ascq: u8, pointer: Option<Pointer>) -> Sense
        ensures { result ≡ illegal asc ascq pointer }
    {
        Sense {
            key: ILLEGAL_REQUEST,
            information: None,
            specific: 0,
            asc,
            ascq,
            fru: 0,
            pointer,
        }
    }
}
