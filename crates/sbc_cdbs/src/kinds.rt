//! Questions about commands: which are of the XOR ones, and what blocks they are about.

ghost use Rattle.std.specs.Prelude.{◌≡◌};
ghost use Rattle.sbc_cdbs.specs.Kinds.{is_xor_code, first_block, block_count, count_place, is_kept};

use crate::Command;
use crate::tables::*;

/// Whether an operation code is that of one of the seven XOR commands (SBC): XDWRITE, XPWRITE, XDREAD,
/// XDWRITEREAD(10), XDWRITE EXTENDED, REBUILD, REGENERATE.
pub fn is_xor_code(code: u8) -> bool
    ensures { result ≡ is_xor_code code }
{
    matches!(
        code,
        XDWRITE | XPWRITE | XDREAD | XDWRITEREAD | XDWRITE_EXTENDED | REBUILD | REGENERATE
    )
}

impl Command {
    /// The logical block address of the command's first block; none of a MODE command.
    pub fn first_block(&self) -> Option<u32>
        ensures { result ≡ first_block self.now }
    {
        let command = *self;
        match command {
            Command::Read { lba, .. }
            | Command::Write { lba, .. }
            | Command::XdWrite { lba, .. }
            | Command::XpWrite { lba, .. }
            | Command::XdRead { lba, .. }
            | Command::XdWriteRead { lba, .. }
            | Command::XdWriteExtended { lba, .. }
            | Command::Rebuild { lba, .. }
            | Command::Regenerate { lba, .. } => Some(lba),
            Command::ModeSelect { .. } | Command::ModeSense { .. } => None,
        }
    }

    /// How many blocks the command is about; none of a MODE command, whose length is one in bytes.
    pub fn block_count(&self) -> Option<u32>
        ensures { result ≡ block_count self.now }
    {
        let command = *self;
        match command {
            Command::Read { length, .. }
            | Command::Write { length, .. }
            | Command::XdWrite { length, .. }
            | Command::XpWrite { length, .. }
            | Command::XdRead { length, .. }
            | Command::XdWriteRead { length, .. } => Some(u32::from(length)),
            Command::XdWriteExtended { length, .. }
            | Command::Rebuild { length, .. }
            | Command::Regenerate { length, .. } => Some(length),
            Command::ModeSelect { .. } | Command::ModeSense { .. } => None,
        }
    }

    /// The first byte of the CDB's field with the number of blocks, at which a field pointer points.
    pub fn count_place(&self) -> Option<u16>
        ensures { result ≡ count_place self.now }
    {
        match self {
            Command::Read { .. }
            | Command::Write { .. }
            | Command::XdWrite { .. }
            | Command::XpWrite { .. }
            | Command::XdRead { .. }
            | Command::XdWriteRead { .. } => Some(7),
            Command::XdWriteExtended { .. } => Some(10),
            Command::Rebuild { .. } | Command::Regenerate { .. } => Some(6),
            Command::ModeSelect { .. } | Command::ModeSense { .. } => None,
        }
    }

    /// Whether the target keeps the command's blocks in its buffer when it ends, for an XDREAD. XDWRITE
    /// EXTENDED and XDWRITEREAD keep none: they send theirs away or hand them back.
    pub fn is_kept(&self) -> bool
        ensures { result ≡ is_kept self.now }
    {
        matches!(self, Command::XdWrite { .. } | Command::Regenerate { .. })
    }
}
