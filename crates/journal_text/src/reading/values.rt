//! Values that one word spells.

ghost use Rattle.std.specs.Prelude.{◌≡◌, ◌≤◌, ◌++◌, ◌-◌, length};
ghost use Rattle.blocks_core.specs.Xor.{zeros};
ghost use Rattle.text_fields.specs.Reading.{Reads, data_of};
ghost use Rattle.journal_text.specs.Steps.{Gives};
ghost use Rattle.journal_text.specs.Words.{at_of, cause_of, flag_of, what_of, kind_of};
ghost use Rattle.journal_text.specs.Cdbs.{cdb_of};
ghost use Rattle.journal_text.specs.Lines.{cdb_word_of};

use crate::fault::LineFault;
use array_journal::{At, Kind, What};
use blocks_core::Bytes;
use sbc_cdbs::Cdb;
use std::alloc::Global;
use text_fields::{cut, data_bytes, is_text, number_u8, number_up_to};

/// The bytes of a dash or of at least one pair of digits.
pub fn bytes_in(alloc: Global, text: &[u8]) -> Result<Bytes, LineFault>
    ensures { Gives (λ x. x) result (data_of text.now) }
{
    match data_bytes(alloc, text)? {
        Some(bytes) => Ok(bytes),
        None => Err(LineFault::Unspelt),
    }
}

/// At most 16 bytes, with zeros behind them.
fn padded(bytes: &[u8]) -> [u8; 16]
    requires { length bytes.now ≤ 16 }
    ensures { result ≡ bytes.now ++ zeros (16 - length bytes.now) }
{
    let mut all = [0; 16];
    all[..bytes.len()].copy_from_slice(bytes);
    all
}

/// The CDB of at most 16 bytes.
fn cdb_from(bytes: &[u8]) -> Option<Cdb>
    ensures { Reads (λ x. x) result (cdb_of bytes.now) }
{
    let len = bytes.len();
    if len > 16 {
        return None;
    }
    Some(Cdb {
        bytes: padded(bytes),
        len: len as u8,
    })
}

/// The CDB that a dash or pairs of lower-case digits spell, of at most 16 bytes.
#[tactic(auto, unfolding(crate::specs::Lines::cdb_word_of))]
pub fn cdb_in(alloc: Global, text: &[u8]) -> Result<Cdb, LineFault>
    ensures { Gives (λ x. x) result (cdb_word_of text.now) }
{
    let bytes = bytes_in(alloc, text)?;
    cdb_from(bytes.as_slice()).ok_or(LineFault::Unspelt)
}

/// A name of an entry: its stamp, a dot and its lock.
#[tactic(auto, unfolding(crate::specs::Words::at_of))]
pub fn at_in(text: &[u8]) -> Option<At>
    ensures { Reads (λ x. x) result (at_of text.now) }
{
    let (stamp, lock) = cut(text, b'.')?;
    let stamp = number_up_to(stamp, 18_446_744_073_709_551_615)?;
    let lock = number_u8(lock)?;
    Some(At { stamp, lock })
}

/// A name of an entry, or a dash for none.
#[tactic(auto, unfolding(crate::specs::Words::cause_of))]
pub fn cause_in(text: &[u8]) -> Option<Option<At>>
    ensures { Reads (λ x. x) result (cause_of text.now) }
{
    if is_text(text, b"-") {
        return Some(None);
    }
    let at = at_in(text)?;
    Some(Some(at))
}

#[tactic(auto, unfolding(crate::specs::Words::flag_of))]
pub fn flag_in(word: &[u8]) -> Option<bool>
    ensures { Reads (λ x. x) result (flag_of word.now) }
{
    if is_text(word, b"0") {
        Some(false)
    } else if is_text(word, b"1") {
        Some(true)
    } else {
        None
    }
}

#[tactic(auto, unfolding(crate::specs::Words::what_of))]
pub fn what_in(word: &[u8]) -> Option<What>
    ensures { Reads (λ x. x) result (what_of word.now) }
{
    if is_text(word, b"buffers") {
        Some(What::Buffers)
    } else if is_text(word, b"request") {
        Some(What::Request)
    } else {
        None
    }
}

#[tactic(auto, unfolding(crate::specs::Words::kind_of))]
pub fn kind_in(word: &[u8]) -> Option<Kind>
    ensures { Reads (λ x. x) result (kind_of word.now) }
{
    if is_text(word, b"read") {
        Some(Kind::Read)
    } else if is_text(word, b"update") {
        Some(Kind::Update)
    } else if is_text(word, b"dataonly") {
        Some(Kind::DataOnly)
    } else if is_text(word, b"degradedread") {
        Some(Kind::DegradedRead)
    } else if is_text(word, b"degradedwrite") {
        Some(Kind::DegradedWrite)
    } else if is_text(word, b"rebuild") {
        Some(Kind::Rebuild)
    } else if is_text(word, b"resync") {
        Some(Kind::Resync)
    } else {
        None
    }
}
