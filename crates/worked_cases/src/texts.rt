//! Texts as a list writes them: line by line, from blocks, and with changes.

use crate::edits::{change, is_change};
use crate::faults::{Expected, Wrong};
use crate::lines::{cut_at, number_of};
use blocks_core::{Bytes, Memory};
use std::alloc::Global;
use text_fields::hex_bytes;

/// The most bytes of a text.
const LONGEST: usize = 67_108_864;

/// A text with a name.
#[derive(Drop)]
struct NamedText {
    name: Bytes,
    text: Bytes,
}

/// Texts with names.
#[derive(Drop)]
pub struct NamedTexts {
    kept: Vec<NamedText>,
}

impl NamedTexts {
    /// None. Takes no memory.
    pub fn new(alloc: Global) -> NamedTexts {
        NamedTexts {
            kept: Vec::new(alloc),
        }
    }

    /// Adds a text with its name.
    pub fn push(&mut self, name: Bytes, text: Bytes) -> Result<(), Memory> {
        self.kept.push(NamedText { name, text })?;
        Ok(())
    }

    /// The first text of a name.
    fn get(&self, name: &[u8]) -> Option<&[u8]> {
        for block in &self.kept {
            if block.name.as_slice() == name {
                return Some(block.text.as_slice());
            }
        }
        None
    }
}

/// Puts bytes at the end of a text so many times.
fn push_times(text: &mut Bytes, bytes: &[u8], times: u32) -> Result<(), Wrong> {
    // Each factor is tested alone first, so that the product doesn't overflow.
    if times as usize > LONGEST || bytes.len() > LONGEST || bytes.len() * times as usize > LONGEST {
        return Err(Wrong::Unread(Expected::Length));
    }
    for _ in 0..times {
        text.push_slice(bytes)?;
    }
    Ok(())
}

/// Takes a line that has a mark behind its count: `|` for a line of the text, `+` for a piece of one.
fn take_marked(
    alloc: Global,
    text: &mut Bytes,
    times: u32,
    mark: u8,
    rest: &[u8],
) -> Result<(), Wrong> {
    let rest = match rest {
        [b' ', behind @ ..] => behind,
        _ => rest,
    };
    let mut piece = Bytes::from_slice(alloc, rest)?;
    match mark {
        b'|' => piece.push(b'\n')?,
        b'+' => {}
        _ => return Err(Wrong::Unread(Expected::Step)),
    }
    push_times(text, piece.as_slice(), times)
}

/// Takes a line that has neither a keyword nor a change.
fn take_written(alloc: Global, text: &mut Bytes, line: &[u8]) -> Result<(), Wrong> {
    let digits = line.iter().take_while(|byte| byte.is_ascii_digit()).count();
    let (count, rest) = line.split_at(digits);
    let times = if count.is_empty() {
        1
    } else {
        number_of(count)?
    };
    match rest {
        [mark, rest @ ..] => take_marked(alloc, text, times, *mark, rest),
        [] => Err(Wrong::Unread(Expected::Step)),
    }
}

/// Takes one more line of a text.
pub fn take_line(
    alloc: Global,
    blocks: &NamedTexts,
    text: &mut Bytes,
    line: &[u8],
) -> Result<(), Wrong> {
    let (keyword, rest) = cut_at(line, b' ');
    if is_change(keyword) {
        return change(alloc, text, keyword, rest);
    }
    match keyword {
        b"use" => match blocks.get(rest) {
            Some(block) => push_times(text, block, 1),
            None => Err(Wrong::Unread(Expected::Block)),
        },
        b"hex" => match hex_bytes(alloc, rest)? {
            Some(bytes) => push_times(text, bytes.as_slice(), 1),
            None => Err(Wrong::Unread(Expected::Hexadecimal)),
        },
        _ => take_written(alloc, text, line),
    }
}
