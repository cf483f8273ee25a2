//! Lists of names and of numbers, with commas between them.

ghost use Rattle.std.specs.Prelude.{◌≡◌, ◌≤◌, ◌<◌, ◌==◌, length, IfSome};
ghost use Rattle.std.specs.List.{position_or_len};
ghost use Rattle.text_fields.specs.Reading.{Reads, number_of};
ghost use Rattle.journal_text.specs.Steps.{Gives};
ghost use Rattle.journal_text.specs.Words.{at_of};
ghost use Rattle.journal_text.specs.Lists.{item_at, first_of, next_of, all_of, some_of, listed_of, with_front};

use crate::fault::LineFault;
use crate::reading::values::at_in;
use array_journal::{At, Names};
use blocks_core::Owners;
use std::alloc::Global;
use text_fields::{first_place, is_text, number_u32};

/// Where the first comma stands, or all ends.
#[tactic(auto, using(text_fields::proofs::Cuts::position_some, text_fields::proofs::Cuts::position_none))]
fn item_len(bytes: &[u8]) -> usize
    ensures value { result ≡ position_or_len (λ b. b == 44) bytes.now }
    ensures within { result ≤ length bytes.now }
{
    match first_place(bytes, b',') {
        Some(place) => place,
        None => bytes.len(),
    }
}

/// What stands before the first comma, and what stands from it on.
#[tactic(auto, unfolding(crate::specs::Lists::item_at))]
fn item(bytes: &[u8]) -> (&[u8], &[u8])
    ensures value { (result.0.now, result.1.now) ≡ item_at bytes.now }
    ensures shorter { length result.1.now ≤ length bytes.now }
{
    bytes.split_at(item_len(bytes))
}

/// The name before the first comma.
#[tactic(auto, unfolding(crate::specs::Lists::first_of))]
fn first_name(bytes: &[u8]) -> Option<(At, &[u8])>
    ensures value { Reads (λ x. (x.0, x.1.now)) result (first_of at_of bytes.now) }
    ensures shorter { IfSome result (λ x. length x.1.now ≤ length bytes.now) }
{
    let (text, rest) = item(bytes);
    let name = at_in(text)?;
    Some((name, rest))
}

/// The name behind a comma.
#[tactic(auto, unfolding(crate::specs::Lists::next_of))]
fn next_name(bytes: &[u8]) -> Option<(At, &[u8])>
    ensures value { Reads (λ x. (x.0, x.1.now)) result (next_of at_of bytes.now) }
    ensures shorter { IfSome result (λ x. length x.1.now < length bytes.now) }
{
    match bytes {
        [b',', text @ ..] => first_name(text),
        _ => None,
    }
}

/// Names, with those that stand behind commas put to them.
fn with_names(mut names: Names, text: &[u8]) -> Result<Names, LineFault>
    ensures { Gives (λ x. x) result (with_front names (all_of (next_of at_of) (length text.now) text.now)) }
{
    let mut rest = text;
    while !rest.is_empty() {
        let Some(next) = next_name(rest) else {
            return Err(LineFault::Unspelt);
        };
        names.push(next.0)?;
        rest = next.1;
    }
    Ok(names)
}

#[tactic(auto, unfolding(crate::specs::Lists::some_of))]
fn some_names(alloc: Global, text: &[u8]) -> Result<Names, LineFault>
    ensures { Gives (λ x. x) result (some_of at_of text.now) }
{
    let (name, rest) = first_name(text).ok_or(LineFault::Unspelt)?;
    let mut names = Names::new(alloc);
    names.push(name)?;
    with_names(names, rest)
}

/// Names with commas between them, or a dash for none.
#[tactic(auto, unfolding(crate::specs::Lists::listed_of))]
pub fn names_in(alloc: Global, text: &[u8]) -> Result<Names, LineFault>
    ensures { Gives (λ x. x) result (listed_of at_of text.now) }
{
    if is_text(text, b"-") {
        return Ok(Names::new(alloc));
    }
    some_names(alloc, text)
}

/// The number before the first comma.
#[tactic(auto, unfolding(crate::specs::Lists::first_of))]
fn first_owner(bytes: &[u8]) -> Option<(u32, &[u8])>
    ensures value { Reads (λ x. (x.0, x.1.now)) result (first_of (number_of 4294967295) bytes.now) }
    ensures shorter { IfSome result (λ x. length x.1.now ≤ length bytes.now) }
{
    let (text, rest) = item(bytes);
    let owner = number_u32(text)?;
    Some((owner, rest))
}

/// The number behind a comma.
#[tactic(auto, unfolding(crate::specs::Lists::next_of))]
fn next_owner(bytes: &[u8]) -> Option<(u32, &[u8])>
    ensures value { Reads (λ x. (x.0, x.1.now)) result (next_of (number_of 4294967295) bytes.now) }
    ensures shorter { IfSome result (λ x. length x.1.now < length bytes.now) }
{
    match bytes {
        [b',', text @ ..] => first_owner(text),
        _ => None,
    }
}

/// Numbers, with those that stand behind commas put to them.
fn with_owners(mut owners: Owners, text: &[u8]) -> Result<Owners, LineFault>
    ensures { Gives (λ x. x) result (with_front owners (all_of (next_of (number_of 4294967295)) (length text.now) text.now)) }
{
    let mut rest = text;
    while !rest.is_empty() {
        let Some(next) = next_owner(rest) else {
            return Err(LineFault::Unspelt);
        };
        owners.push(next.0)?;
        rest = next.1;
    }
    Ok(owners)
}

#[tactic(auto, unfolding(crate::specs::Lists::some_of))]
fn some_owners(alloc: Global, text: &[u8]) -> Result<Owners, LineFault>
    ensures { Gives (λ x. x) result (some_of (number_of 4294967295) text.now) }
{
    let (owner, rest) = first_owner(text).ok_or(LineFault::Unspelt)?;
    let mut owners = Owners::new(alloc);
    owners.push(owner)?;
    with_owners(owners, rest)
}

/// Numbers of commands with commas between them, or a dash for none.
#[tactic(auto, unfolding(crate::specs::Lists::listed_of))]
pub fn owners_in(alloc: Global, text: &[u8]) -> Result<Owners, LineFault>
    ensures { Gives (λ x. x) result (listed_of (number_of 4294967295) text.now) }
{
    if is_text(text, b"-") {
        return Ok(Owners::new(alloc));
    }
    some_owners(alloc, text)
}
