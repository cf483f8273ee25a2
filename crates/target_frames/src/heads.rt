//! The fields of an opening and of a frame's head, as they stand in the stream.

ghost use Rattle.std.specs.Prelude.{◌≡◌, ◌≤◌, length};
ghost use Rattle.target_frames.specs.Heads.{opening_head, opening_fields, frame_head, frame_fields, first_wrong, frame_length};

use cdb_fields::fields;

/// The bytes of an opening.
pub const OPENING: usize = 16;

/// The bytes of a frame before its CDB.
pub const HEAD: usize = 8;

/// The first four bytes of a stream, `XORT`, by which another input is told from one.
const MAGIC: u32 = 0x584f_5254;

/// The kind of a frame that has a CDB and data.
const COMMAND: u8 = 1;

/// The most data of a command.
const MOST_DATA: u32 = 16_777_216;

/// An opening, before its fields are tested.
#[derive(Clone, Copy, Debug)]
pub struct OpeningHead {
    pub magic: u32,
    pub version: u8,
    pub targets: u8,
    pub zero: u16,
    pub block: u16,
    pub buffer: u16,
    pub rows: u32,
}

/// A frame's first bytes, before its fields are tested.
#[derive(Clone, Copy, Debug)]
pub struct FrameHead {
    pub kind: u8,
    pub target: u8,
    pub cdb_len: u8,
    pub zero: u8,
    pub data_len: u32,
}

impl OpeningHead {
    /// The fields of the first 16 bytes.
    pub fn of(bytes: &[u8; 16]) -> OpeningHead
        ensures { result ≡ opening_head bytes.now }
    {
        fields!(get bytes; OpeningHead {
            magic: long(0),
            version: byte(4),
            targets: byte(5),
            zero: short(6),
            block: short(8),
            buffer: short(10),
            rows: long(12),
        })
    }

    /// The place of the first field that has no value that it may have.
    pub fn wrong(&self) -> Option<u8>
        ensures { result ≡ first_wrong (opening_fields self.now) }
    {
        first_wrong(&[
            (0, self.magic == MAGIC),
            (4, self.version == 1),
            (5, 1 <= self.targets && self.targets <= 16),
            (6, self.zero == 0),
            (8, 1 <= self.block && self.block <= 4096),
            (12, 1 <= self.rows && self.rows <= 65_536),
        ])
    }
}

impl FrameHead {
    /// The fields of the first 8 bytes of a frame.
    pub fn of(bytes: &[u8; 8]) -> FrameHead
        ensures { result ≡ frame_head bytes.now }
    {
        fields!(get bytes; FrameHead {
            kind: byte(0),
            target: byte(1),
            cdb_len: byte(2),
            zero: byte(3),
            data_len: long(4),
        })
    }

    /// The place of the first field that has no value that it may have, where there are so many targets.
    pub fn wrong(&self, targets: u8) -> Option<u8>
        ensures { result ≡ first_wrong (frame_fields targets self.now) }
    {
        let command = self.kind == COMMAND;
        let most_data = if command { MOST_DATA } else { 0 };
        first_wrong(&[
            (0, 1 <= self.kind && self.kind <= 5),
            (1, self.target < targets),
            (2, command || self.cdb_len == 0),
            (3, self.zero == 0),
            (4, self.data_len <= most_data),
        ])
    }

    /// The bytes of the whole frame.
    pub fn len(&self) -> usize
        ensures { result ≡ frame_length self.now }
    {
        HEAD + usize::from(self.cdb_len) + self.data_len as usize
    }
}

/// The place of the first field that isn't right.
fn first_wrong(fields: &[(u8, bool)]) -> Option<u8>
    ensures { result ≡ first_wrong fields.now }
{
    for (place, right) in fields {
        if !*right {
            return Some(*place);
        }
    }
    None
}
