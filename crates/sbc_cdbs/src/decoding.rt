ghost use Rattle.sbc_cdbs.specs.declared.commands.Command.{Command};
ghost use Rattle.sbc_cdbs.specs.declared.decoding.CdbFault.{CdbFault};
ghost use Rattle.std.specs.Prelude.{Ok, Err, IfOk, IfErr, ◌≡◌, Some, None, MatchOption, MatchResult, List, ℕ, length, option_map};
ghost use Rattle.sbc_cdbs.specs.Faults.{reserved_bits, IsFault};
ghost use Rattle.sbc_cdbs.specs.Cdbs.{SpellsCdb};
ghost use Rattle.sbc_cdbs.specs.Reading.{command_of, decoded};

use crate::Command;
use crate::tables::*;
use cdb_fields::{fields, first_reserved};

/// Why bytes spell no command.
#[derive(Clone, Copy, Debug, PartialEq, Eq)]
pub enum CdbFault {
    /// No command of the array has this operation code.
    OpCode { code: u8 },
    /// The block is `got` bytes long, and its operation code asks for `want`.
    Length { want: u8, got: usize },
    /// A bit that must be zero is one; `byte` is the lowest byte with such a bit.
    Bits { byte: u16 },
}

/// The command that a descriptor block spells (SBC, SPC), else the first fault: an unknown operation
/// code, a wrong length, a bit that must be zero. No byte at all is a length of 0 where 1 is wanted.
pub fn decode(bytes: &[u8]) -> Result<Command, CdbFault>
    ensures spelt { IfOk result (SpellsCdb bytes.now) }
    ensures read { (v : Command) → SpellsCdb bytes.now v → result ≡ Ok v }
    ensures fault { IfErr result (IsFault bytes.now) }
    ensures refused { (f : CdbFault) → IsFault bytes.now f → result ≡ Err f }
{
    first_answer(bytes)
}

/// What bytes decode to as a function of them, `decoded`: the command that they spell, none where they have a fault.
pub fn decoding_law()
    ensures spelt { (bytes : List ℕ) (v : Command) → SpellsCdb bytes v → decoded bytes ≡ Some v }
    ensures faulty { (bytes : List ℕ) (f : CdbFault) → IsFault bytes f → decoded bytes ≡ None }
{}

/// The same answer by one clause in the place of four: that a fault is answered exactly where it is the
/// first follows from it, since bytes spell at most one command and have at most one first fault.
fn first_answer(bytes: &[u8]) -> Result<Command, CdbFault>
    ensures { MatchResult result (SpellsCdb bytes.now) (IsFault bytes.now) }
{
    let Some(code) = bytes.first() else {
        return Err(CdbFault::Length { want: 1, got: 0 });
    };
    let Some(mask) = reserved(*code) else {
        return Err(CdbFault::OpCode { code: *code });
    };
    if bytes.len() != mask.len() {
        return Err(CdbFault::Length {
            want: mask.len() as u8,
            got: bytes.len(),
        });
    }
    if let Some(byte) = first_reserved(mask, bytes) {
        return Err(CdbFault::Bits { byte });
    }
    Ok(values(*code, bytes))
}

/// The values of the fields of a block of a known code and its length.
fn values(code: u8, bytes: &[u8]) -> Command
    requires { option_map length (reserved_bits code) ≡ Some (length bytes.now) }
    ensures { result ≡ command_of code bytes.now }
{
    if let Some(cdb) = bytes.as_array::<10>() {
        short_values(code, cdb)
    } else if let Some(cdb) = bytes.as_array::<16>() {
        long_values(code, cdb)
    } else {
        unreachable!()
    }
}

/// The bits that must be zero in a block of this operation code, as long as the block.
fn reserved(code: u8) -> Option<&'static [u8]>
    ensures { MatchOption result (reserved_bits code ≡ None) (λ mask. reserved_bits code ≡ Some mask.now) }
{
    match code {
        READ | WRITE | XPWRITE => Some(&TRANSFER_RESERVED),
        XDWRITE | XDWRITEREAD => Some(&XDWRITE_RESERVED),
        XDREAD => Some(&XDREAD_RESERVED),
        MODE_SELECT => Some(&MODE_SELECT_RESERVED),
        MODE_SENSE => Some(&MODE_SENSE_RESERVED),
        XDWRITE_EXTENDED => Some(&XDWRITE_EXTENDED_RESERVED),
        REBUILD | REGENERATE => Some(&REBUILD_RESERVED),
        _ => None,
    }
}

fn short_values(code: u8, cdb: &[u8; 10]) -> Command
    requires { option_map length (reserved_bits code) ≡ Some 10 }
    ensures { result ≡ command_of code cdb.now }
{
    match code {
        READ => transfer!(Read, get cdb),
        WRITE => transfer!(Write, get cdb),
        XDWRITE => xdwrite!(XdWrite, get cdb),
        XPWRITE => transfer!(XpWrite, get cdb),
        XDREAD => xdread!(XdRead, get cdb),
        XDWRITEREAD => xdwrite!(XdWriteRead, get cdb),
        MODE_SELECT => mode_select!(ModeSelect, get cdb),
        MODE_SENSE => mode_sense!(ModeSense, get cdb),
        _ => unreachable!(),
    }
}

fn long_values(code: u8, cdb: &[u8; 16]) -> Command
    requires { option_map length (reserved_bits code) ≡ Some 16 }
    ensures { result ≡ command_of code cdb.now }
{
    match code {
        XDWRITE_EXTENDED => xdwrite_extended!(XdWriteExtended, get cdb),
        REBUILD => rebuild!(Rebuild, get cdb),
        REGENERATE => rebuild!(Regenerate, get cdb),
        _ => unreachable!(),
    }
}
