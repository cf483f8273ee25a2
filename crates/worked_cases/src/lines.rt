//! Lines of a list of cases, and words in them.

ghost use Rattle.std.specs.Prelude.{◌≡◌, ◌≤◌, ◌<◌, ◌+◌, ◌^◌, ◌==◌, length, take, drop, IfOk, IfSome};
ghost use Rattle.std.specs.List.{position_or_len, before_first, after_first};
ghost use Rattle.worked_cases.specs.Lines.{AreLines, filled};

use crate::faults::{Expected, Wrong};
use blocks_core::{Bytes, Memory};
use std::alloc::Global;
use text_fields::number_u32;

/// A line without its end, and its number from 1.
#[derive(Clone, Copy, Debug)]
pub struct Line<'a> {
    pub number: u32,
    pub text: &'a [u8],
}

/// Where a part of a text begins, and where it ends.
#[derive(Clone, Copy, Debug, PartialEq, Eq)]
pub struct Span {
    pub from: usize,
    pub to: usize,
}

/// Where the first such byte stands, or the end where there is none.
fn first_place(text: &[u8], mark: u8) -> usize
    ensures value { result ≡ position_or_len (λ b. b == mark) text.now }
    ensures bound { result ≤ length text.now }
{
    text.iter().take_while(|byte| **byte != mark).count()
}

/// What stands before the first such byte and behind it; all and nothing where there is none.
pub fn cut_at(text: &[u8], mark: u8) -> (&[u8], &[u8])
    ensures front { result.0.now ≡ before_first (λ b. b == mark) text.now }
    ensures behind { result.1.now ≡ after_first (λ b. b == mark) text.now }
    ensures shorter { 0 < length text.now → length result.1.now < length text.now }
{
    let (front, rest) = text.split_at(first_place(text, mark));
    match rest {
        [] => (front, rest),
        [_, behind @ ..] => (front, behind),
    }
}

/// Whether a line says nothing to the program: it is empty, a remark, or tells what is expected.
fn is_skipped(text: &[u8]) -> bool {
    matches!(text, [] | [b'#', ..] | [b'=', ..])
}

/// The lines of a list but those that say nothing.
pub fn lines_of(alloc: Global, list: &[u8]) -> Result<Vec<Line<'_>>, Memory>
    requires { length list.now < 2 ^ 32 }
    ensures { IfOk result (λ lines. AreLines list.now lines.items) }
{
    let mut lines = Vec::new(alloc);
    let mut rest = list;
    let mut number = 0;
    while !rest.is_empty() {
        let (text, behind) = cut_at(rest, b'\n');
        number += 1;
        if !is_skipped(text) {
            lines.push(Line { number, text })?;
        }
        rest = behind;
    }
    Ok(lines)
}

/// The part with this number, from 1, of a text that such bytes part.
pub fn span_of(text: &[u8], mark: u8, number: u32) -> Option<Span>
    ensures { IfSome result (λ span. (span.from ≤ span.to) × (span.to ≤ length text.now)) }
{
    let mut left = number;
    let mut from = 0;
    for (place, byte) in text.iter().enumerate() {
        if *byte == mark {
            if left <= 1 {
                return Some(Span { from, to: place });
            }
            left -= 1;
            from = place + 1;
        }
    }
    if left <= 1 {
        Some(Span {
            from,
            to: text.len(),
        })
    } else {
        None
    }
}

/// The number that a word spells.
pub fn number_of(word: &[u8]) -> Result<u32, Wrong> {
    match number_u32(word) {
        Some(number) => Ok(number),
        None => Err(Wrong::Unread(Expected::Number)),
    }
}

/// The numbers that words spell.
pub fn numbers_of(alloc: Global, words: &[u8]) -> Result<Vec<u64>, Wrong> {
    let mut numbers = Vec::new(alloc);
    let mut rest = words;
    while !rest.is_empty() {
        let (word, behind) = cut_at(rest, b' ');
        numbers
            .push(u64::from(number_of(word)?))
            .map_err(Memory::from)?;
        rest = behind;
    }
    Ok(numbers)
}

/// A text with a value in the place of each `{}`.
pub fn filled(alloc: Global, text: &[u8], value: &[u8]) -> Result<Bytes, Memory>
    ensures { IfOk result (λ made. made ≡ filled value.now text.now) }
{
    let mut made = Bytes::new(alloc);
    let mut rest = text;
    while let [first, behind @ ..] = rest {
        match behind {
            [b'}', further @ ..] if *first == b'{' => {
                made.push_slice(value)?;
                rest = further;
            }
            _ => {
                made.push(*first)?;
                rest = behind;
            }
        }
    }
    Ok(made)
}
