//! Why bytes spell no value.

/// The first fault of bytes that spell no value.
#[derive(Clone, Copy, Debug, PartialEq, Eq)]
pub enum DecodeFault {
    /// No command has this operation code.
    OpCode { code: u8 },
    /// There are `got` bytes, not `want`.
    Length { want: u64, got: u64 },
    /// The lowest byte with a bit that isn't as it must be.
    Bits { byte: u16 },
    /// The response code isn't that of sense data.
    Code { got: u8 },
    /// The lowest byte of a list or page with a bit that isn't as it must be.
    Field { byte: u32 },
}
