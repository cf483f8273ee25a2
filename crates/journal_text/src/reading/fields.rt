//! Fields of a line, each one word behind a space, and the groups of them that events share.

ghost use Rattle.journal_text.specs.Steps.{Gives};
ghost use Rattle.text_fields.specs.Reading.{number_of, data_of};
ghost use Rattle.journal_text.specs.Words.{at_of, cause_of, flag_of, what_of, kind_of};
ghost use Rattle.journal_text.specs.Senses.{why_of};
ghost use Rattle.journal_text.specs.Lists.{listed_of};
ghost use Rattle.journal_text.specs.Lines.{field_of, cdb_word_of, act_at, aim_at, place_at, name_of};

use crate::fault::LineFault;
use crate::reading::lists::{names_in, owners_in};
use crate::reading::names::{EventName, name_in};
use crate::reading::senses::why_in;
use crate::reading::values::{at_in, bytes_in, cause_in, cdb_in, flag_in, kind_in, what_in};
use array_journal::{At, Kind, Names, What, Why};
use blocks_core::{Bytes, Owners};
use sbc_cdbs::Cdb;
use std::alloc::Global;
use text_fields::{next_word, number_u8, number_u32};

/// What all acts of commands have.
#[derive(Debug, Drop)]
pub struct ActFields {
    pub command: u32,
    pub opened: At,
    pub cdb: Cdb,
    pub row: u32,
    pub bytes: Bytes,
}

/// Which command a task is of, and what it does.
#[derive(Clone, Copy, Debug)]
pub struct AimFields {
    pub call: u32,
    pub piece: u32,
    pub kind: Kind,
    pub stripe: u32,
}

/// Where a task does it, and the blocks.
#[derive(Debug, Drop)]
pub struct PlaceFields {
    pub target: u8,
    pub parity: u8,
    pub row: u32,
    pub count: u32,
    pub bytes: Bytes,
}

/// The number of 32 bits in the word at the front, behind its space, and what stands after it.
#[tactic(auto, unfolding(crate::specs::Lines::field_of))]
pub fn number_field(line: &[u8]) -> Result<(u32, &[u8]), LineFault>
    ensures { Gives (λ x. (x.0, x.1.now)) result (field_of (number_of 4294967295) line.now) }
{
    let (text, rest) = next_word(line).ok_or(LineFault::Unspelt)?;
    let value = number_u32(text).ok_or(LineFault::Unspelt)?;
    Ok((value, rest))
}

/// The same of a number of 8 bits.
#[tactic(auto, unfolding(crate::specs::Lines::field_of))]
pub fn small_field(line: &[u8]) -> Result<(u8, &[u8]), LineFault>
    ensures { Gives (λ x. (x.0, x.1.now)) result (field_of (number_of 255) line.now) }
{
    let (text, rest) = next_word(line).ok_or(LineFault::Unspelt)?;
    let value = number_u8(text).ok_or(LineFault::Unspelt)?;
    Ok((value, rest))
}

#[tactic(auto, unfolding(crate::specs::Lines::field_of))]
pub fn at_field(line: &[u8]) -> Result<(At, &[u8]), LineFault>
    ensures { Gives (λ x. (x.0, x.1.now)) result (field_of at_of line.now) }
{
    let (text, rest) = next_word(line).ok_or(LineFault::Unspelt)?;
    let value = at_in(text).ok_or(LineFault::Unspelt)?;
    Ok((value, rest))
}

#[tactic(auto, unfolding(crate::specs::Lines::field_of))]
pub fn cause_field(line: &[u8]) -> Result<(Option<At>, &[u8]), LineFault>
    ensures { Gives (λ x. (x.0, x.1.now)) result (field_of cause_of line.now) }
{
    let (text, rest) = next_word(line).ok_or(LineFault::Unspelt)?;
    let value = cause_in(text).ok_or(LineFault::Unspelt)?;
    Ok((value, rest))
}

#[tactic(auto, unfolding(crate::specs::Lines::field_of))]
pub fn flag_field(line: &[u8]) -> Result<(bool, &[u8]), LineFault>
    ensures { Gives (λ x. (x.0, x.1.now)) result (field_of flag_of line.now) }
{
    let (text, rest) = next_word(line).ok_or(LineFault::Unspelt)?;
    let value = flag_in(text).ok_or(LineFault::Unspelt)?;
    Ok((value, rest))
}

#[tactic(auto, unfolding(crate::specs::Lines::field_of))]
pub fn what_field(line: &[u8]) -> Result<(What, &[u8]), LineFault>
    ensures { Gives (λ x. (x.0, x.1.now)) result (field_of what_of line.now) }
{
    let (text, rest) = next_word(line).ok_or(LineFault::Unspelt)?;
    let value = what_in(text).ok_or(LineFault::Unspelt)?;
    Ok((value, rest))
}

#[tactic(auto, unfolding(crate::specs::Lines::field_of))]
pub fn kind_field(line: &[u8]) -> Result<(Kind, &[u8]), LineFault>
    ensures { Gives (λ x. (x.0, x.1.now)) result (field_of kind_of line.now) }
{
    let (text, rest) = next_word(line).ok_or(LineFault::Unspelt)?;
    let value = kind_in(text).ok_or(LineFault::Unspelt)?;
    Ok((value, rest))
}

#[tactic(auto, unfolding(crate::specs::Lines::field_of))]
pub fn why_field(line: &[u8]) -> Result<(Why, &[u8]), LineFault>
    ensures { Gives (λ x. (x.0, x.1.now)) result (field_of why_of line.now) }
{
    let (text, rest) = next_word(line).ok_or(LineFault::Unspelt)?;
    let value = why_in(text).ok_or(LineFault::Unspelt)?;
    Ok((value, rest))
}

#[tactic(auto, unfolding(crate::specs::Lines::field_of))]
pub fn name_field(line: &[u8]) -> Result<(EventName, &[u8]), LineFault>
    ensures { Gives (λ x. (x.0, x.1.now)) result (field_of name_of line.now) }
{
    let (text, rest) = next_word(line).ok_or(LineFault::Unspelt)?;
    let value = name_in(text).ok_or(LineFault::Unspelt)?;
    Ok((value, rest))
}

#[tactic(auto, unfolding(crate::specs::Lines::field_of))]
pub fn bytes_field(alloc: Global, line: &[u8]) -> Result<(Bytes, &[u8]), LineFault>
    ensures { Gives (λ x. (x.0, x.1.now)) result (field_of data_of line.now) }
{
    let (text, rest) = next_word(line).ok_or(LineFault::Unspelt)?;
    let value = bytes_in(alloc, text)?;
    Ok((value, rest))
}

#[tactic(auto, unfolding(crate::specs::Lines::field_of))]
pub fn cdb_field(alloc: Global, line: &[u8]) -> Result<(Cdb, &[u8]), LineFault>
    ensures { Gives (λ x. (x.0, x.1.now)) result (field_of cdb_word_of line.now) }
{
    let (text, rest) = next_word(line).ok_or(LineFault::Unspelt)?;
    let value = cdb_in(alloc, text)?;
    Ok((value, rest))
}

#[tactic(auto, unfolding(crate::specs::Lines::field_of))]
pub fn names_field(alloc: Global, line: &[u8]) -> Result<(Names, &[u8]), LineFault>
    ensures { Gives (λ x. (x.0, x.1.now)) result (field_of (listed_of at_of) line.now) }
{
    let (text, rest) = next_word(line).ok_or(LineFault::Unspelt)?;
    let value = names_in(alloc, text)?;
    Ok((value, rest))
}

#[tactic(auto, unfolding(crate::specs::Lines::field_of))]
pub fn owners_field(alloc: Global, line: &[u8]) -> Result<(Owners, &[u8]), LineFault>
    ensures { Gives (λ x. (x.0, x.1.now)) result (field_of (listed_of (number_of 4294967295)) line.now) }
{
    let (text, rest) = next_word(line).ok_or(LineFault::Unspelt)?;
    let value = owners_in(alloc, text)?;
    Ok((value, rest))
}

/// Command, opening, CDB, first row and bytes.
#[tactic(auto, unfolding(crate::specs::Lines::act_at))]
pub fn act_fields(alloc: Global, line: &[u8]) -> Result<(ActFields, &[u8]), LineFault>
    ensures { Gives (λ x. (x.0, x.1.now)) result (act_at line.now) }
{
    let (command, rest) = number_field(line)?;
    let (opened, rest) = at_field(rest)?;
    let (cdb, rest) = cdb_field(alloc, rest)?;
    let (row, rest) = number_field(rest)?;
    let (bytes, rest) = bytes_field(alloc, rest)?;
    let act = ActFields {
        command,
        opened,
        cdb,
        row,
        bytes,
    };
    Ok((act, rest))
}

/// Call, piece, kind and stripe.
#[tactic(auto, unfolding(crate::specs::Lines::aim_at))]
pub fn aim_fields(line: &[u8]) -> Result<(AimFields, &[u8]), LineFault>
    ensures { Gives (λ x. (x.0, x.1.now)) result (aim_at line.now) }
{
    let (call, rest) = number_field(line)?;
    let (piece, rest) = number_field(rest)?;
    let (kind, rest) = kind_field(rest)?;
    let (stripe, rest) = number_field(rest)?;
    let aim = AimFields {
        call,
        piece,
        kind,
        stripe,
    };
    Ok((aim, rest))
}

/// Target, parity target, first row, count and bytes.
#[tactic(auto, unfolding(crate::specs::Lines::place_at))]
pub fn place_fields(alloc: Global, line: &[u8]) -> Result<(PlaceFields, &[u8]), LineFault>
    ensures { Gives (λ x. (x.0, x.1.now)) result (place_at line.now) }
{
    let (target, rest) = small_field(line)?;
    let (parity, rest) = small_field(rest)?;
    let (row, rest) = number_field(rest)?;
    let (count, rest) = number_field(rest)?;
    let (bytes, rest) = bytes_field(alloc, rest)?;
    let place = PlaceFields {
        target,
        parity,
        row,
        count,
        bytes,
    };
    Ok((place, rest))
}
