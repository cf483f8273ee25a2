//! Changes of a text, each in the text as it stands by then.

ghost use Rattle.std.specs.Prelude.{◌≡◌, ◌≤◌, ◌++◌, length, take, drop, IfOk};

use crate::faults::{Expected, Wrong};
use crate::lines::{Span, cut_at, number_of, span_of};
use blocks_core::{Bytes, Memory};
use std::alloc::Global;

/// A text with other bytes in the place of a part of it.
fn spliced(alloc: Global, text: &[u8], span: Span, with: &[u8]) -> Result<Bytes, Memory>
    requires ordered { span.from ≤ span.to }
    requires within { span.to ≤ length text.now }
    ensures { IfOk result (λ made. made ≡ take span.from text.now ++ with.now ++ drop span.to text.now) }
{
    let mut made = Bytes::from_slice(alloc, &text[..span.from])?;
    made.push_slice(with)?;
    made.push_slice(&text[span.to..])?;
    Ok(made)
}

/// Where a line of the text stands, without its end.
fn line_span(text: &[u8], number: u32) -> Result<Span, Wrong>
    ensures { IfOk result (λ span. span.from ≤ span.to × (span.to ≤ length text.now)) }
{
    match span_of(text, b'\n', number) {
        Some(span) if number > 0 && span.from < text.len() => Ok(span),
        _ => Err(Wrong::Unread(Expected::Place)),
    }
}

/// Where the same stands with its end, if it has one.
fn ended(text: &[u8], span: Span) -> Span
    requires ordered { span.from ≤ span.to }
    requires within { span.to ≤ length text.now }
    ensures ordered { result.from ≤ result.to }
    ensures within { result.to ≤ length text.now }
{
    Span {
        from: span.from,
        to: text.len().min(span.to + 1),
    }
}

fn without_line(alloc: Global, text: &[u8], number: u32) -> Result<Bytes, Wrong> {
    let span = line_span(text, number)?;
    Ok(spliced(alloc, text, ended(text, span), b"")?)
}

fn with_line_twice(alloc: Global, text: &[u8], number: u32) -> Result<Bytes, Wrong> {
    let span = line_span(text, number)?;
    let Span { from, to } = ended(text, span);
    Ok(spliced(alloc, text, Span { from: to, to }, &text[from..to])?)
}

/// The text with another line in the place of one.
fn with_line(alloc: Global, text: &[u8], number: u32, line: &[u8]) -> Result<Bytes, Wrong> {
    let span = line_span(text, number)?;
    Ok(spliced(alloc, text, span, line)?)
}

/// The text with another word in the place of one in a line.
fn with_word(alloc: Global, text: &[u8], number: u32, words: &[u8]) -> Result<Bytes, Wrong> {
    let Span { from, to } = line_span(text, number)?;
    let line = &text[from..to];
    let (place, word) = cut_at(words, b' ');
    match span_of(line, b' ', number_of(place)?) {
        Some(span) => {
            let changed = spliced(alloc, line, span, word)?;
            Ok(spliced(alloc, text, Span { from, to }, changed.as_slice())?)
        }
        None => Err(Wrong::Unread(Expected::Place)),
    }
}

/// The first bytes of the text.
fn cut_short(alloc: Global, text: &[u8], count: u32) -> Result<Bytes, Wrong> {
    let count = count as usize;
    if count > text.len() {
        return Err(Wrong::Unread(Expected::Place));
    }
    Ok(Bytes::from_slice(alloc, &text[..count])?)
}

/// The text after a change that a keyword and a number ask for, with what stands behind them.
fn changed(
    alloc: Global,
    text: &[u8],
    keyword: &[u8],
    number: u32,
    rest: &[u8],
) -> Result<Bytes, Wrong> {
    match keyword {
        b"without" => without_line(alloc, text, number),
        b"twice" => with_line_twice(alloc, text, number),
        b"line" => with_line(alloc, text, number, rest),
        b"word" => with_word(alloc, text, number, rest),
        _ => cut_short(alloc, text, number),
    }
}

/// Whether a keyword asks for a change.
pub fn is_change(keyword: &[u8]) -> bool {
    matches!(keyword, b"without" | b"twice" | b"line" | b"word" | b"cut")
}

/// Makes the change that a line asks for.
pub fn change(alloc: Global, text: &mut Bytes, keyword: &[u8], rest: &[u8]) -> Result<(), Wrong> {
    let (number, rest) = cut_at(rest, b' ');
    *text = changed(alloc, text.as_slice(), keyword, number_of(number)?, rest)?;
    Ok(())
}
