//! The calls, one subject after the other.

ghost use Rattle.std.specs.Prelude.{◌≡◌, ◌<◌, ◌≤◌, ◌^◌, length};
ghost use Rattle.host_scripts.specs.Scripts.{IsScript};

use crate::blocks::push_blocks_core;
use crate::buffers::push_buffers;
use crate::journals::push_journal;
use crate::outside::push_outer_io;
use crate::pages::push_pages;
use crate::requests::push_requests;
use crate::scripts::push_scripts;
use crate::state::push_state;
use crate::streams::push_streams;
use crate::tables::push_tables;
use array_journal::Journal;
use blocks_core::{Bytes, Memory};
use host_scripts::{Script, parse};
use std::alloc::Global;
use trace_check::read_trace;

/// The most bytes of a script, and of a trace. Lines and entries are then counted in 32 bits, as `parse`
/// and `read_trace` want.
const LIMIT: usize = 50_331_648;

/// The line between script and trace.
const BORDER: &[u8] = b"\ntrace\n";

/// What is answered to an input.
#[derive(Drop)]
pub enum Answer {
    Text(Bytes),
    /// It is no script with a trace, or one that is too long, or memory ran out while it was read.
    NoInput,
}

/// Makes the calls on the script and the trace of an input.
pub fn answer_to(alloc: Global, input: &[u8]) -> Result<Answer, Memory> {
    let Some(place) = input.windows(BORDER.len()).position(|part| part == BORDER) else {
        return Ok(Answer::NoInput);
    };
    let (script, rest) = input.split_at(place + 1);
    let spelt = &rest[BORDER.len() - 1..];
    if script.len() > LIMIT || spelt.len() > LIMIT {
        return Ok(Answer::NoInput);
    }
    let Ok(script) = parse(alloc, script) else {
        return Ok(Answer::NoInput);
    };
    let Ok(journal) = read_trace(alloc, spelt) else {
        return Ok(Answer::NoInput);
    };
    called(alloc, &script, &journal)
}

/// The calls on script and journal, and then those that want no input.
fn called(alloc: Global, script: &Script, journal: &Journal) -> Result<Answer, Memory>
    requires { IsScript script.now }
{
    let mut text = Bytes::new(alloc);
    push_journal(alloc, &mut text, script, journal)?;
    text.push_slice(b"libraries\n")?;
    push_lists(alloc, &mut text)?;
    push_encoded(alloc, &mut text)?;
    Ok(Answer::Text(text))
}

/// What is kept, handed over and asked.
fn push_lists(alloc: Global, text: &mut Bytes) -> Result<(), Memory> {
    push_blocks_core(alloc, text)?;
    push_outer_io(alloc, text)?;
    push_state(alloc, text)?;
    push_buffers(alloc, text)?;
    push_requests(alloc, text)?;
    push_scripts(alloc, text)
}

/// What the standards encode, and frames.
fn push_encoded(alloc: Global, text: &mut Bytes) -> Result<(), Memory> {
    push_tables(alloc, text)?;
    push_pages(text)?;
    push_streams(alloc, text)
}
