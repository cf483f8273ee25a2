//! Why a host's call is refused as illegal.

ghost use Rattle.std.specs.Prelude.{◌≡◌};
ghost use Rattle.host_requests.specs.Requests.{illegal};
ghost use Rattle.host_requests.specs.Forms.{sense_of};

use sense_data::{Pointer, Sense};

/// The first test that a host's call fails, in the order of the tests (SBC, READ(10) and WRITE(10)).
#[derive(Clone, Copy, Debug, PartialEq, Eq)]
pub enum RequestFault {
    /// The operation code isn't READ(10)'s or WRITE(10)'s.
    OpCode,
    /// The CDB isn't as long as its operation code asks for.
    Length,
    /// A bit that must be zero is one; `byte` is the lowest byte with such a bit.
    Bits { byte: u16 },
    /// The blocks go beyond the capacity.
    Range,
    /// The bytes that came aren't those of the blocks.
    Size,
}

impl RequestFault {
    /// The sense that the host is told: ILLEGAL REQUEST, and the byte of the CDB in error where a bit is.
    pub fn sense(self) -> Sense
        ensures { result ≡ sense_of self }
    {
        match self {
            RequestFault::OpCode => illegal(0x20, None),
            RequestFault::Length => illegal(0x24, None),
            RequestFault::Bits { byte } => illegal(0x24, Some(byte)),
            RequestFault::Range => illegal(0x21, None),
            RequestFault::Size => illegal(0x1a, None),
        }
    }
}

/// ILLEGAL REQUEST with an additional sense code, and perhaps a byte of the CDB in error.
fn illegal(asc: u8, byte: Option<u16>) -> Sense
    ensures { result ≡ illegal asc byte }
{
    let pointer = match byte {
        Some(byte) => Some(Pointer::in_cdb(byte)),
        None => None,
    };
    Sense::illegal(asc, 0, pointer)
}
