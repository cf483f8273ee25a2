//! The journal that a trace spells.

ghost use Rattle.std.specs.Prelude.{◌≡◌, ◌<◌, ◌^◌, ℕ, List, IfOk, IfErr, MatchResult, length};
ghost use Rattle.array_journal.specs.declared.entry.Entry.{Entry};
ghost use Rattle.journal_text.specs.Steps.{Gives};
ghost use Rattle.journal_text.specs.Lines.{stamp_at, entry_at};
ghost use Rattle.journal_text.specs.Readable.{SpellsTrace, IsFirstFaultyLine};
ghost use Rattle.journal_text.specs.Journals.{goes_on, next_at, GivesAt, IsFault, Tells};

mod events;
mod fields;
mod lists;
mod names;
mod senses;
mod values;

use crate::fault::{LineFault, TraceFault};
use crate::reading::events::event_fields;
use crate::reading::fields::{name_field, small_field};
use array_journal::{At, Entry, Journal};
use std::alloc::Global;
use text_fields::{front_word, number_up_to, strip};

/// The stamp at the front.
#[tactic(auto, unfolding(crate::specs::Lines::stamp_at))]
fn stamp_field(line: &[u8]) -> Result<(u64, &[u8]), LineFault>
    ensures { Gives (λ x. (x.0, x.1.now)) result (stamp_at line.now) }
{
    let (text, rest) = front_word(line);
    let stamp = number_up_to(text, 18_446_744_073_709_551_615).ok_or(LineFault::Unspelt)?;
    Ok((stamp, rest))
}

/// The entry of the first line, and what stands after its end.
#[tactic(auto, unfolding(crate::specs::Lines::entry_at))]
fn entry_line(alloc: Global, bytes: &[u8]) -> Result<(Entry, &[u8]), LineFault>
    ensures { Gives (λ x. (x.0, x.1.now)) result (entry_at bytes.now) }
{
    let (stamp, rest) = stamp_field(bytes)?;
    let (lock, rest) = small_field(rest)?;
    let (name, rest) = name_field(rest)?;
    let (event, rest) = event_fields(alloc, name, rest)?;
    let rest = strip(rest, b"\n").ok_or(LineFault::Unspelt)?;
    let entry = Entry { stamp, lock, event };
    Ok((entry, rest))
}

/// Whether an entry may stand behind one of that name.
fn follows(last: Option<At>, entry: &Entry) -> bool
    ensures { result ≡ goes_on last entry.now }
{
    match last {
        None => true,
        Some(last) => {
            last.stamp < entry.stamp || (last.stamp == entry.stamp && last.lock < entry.lock)
        }
    }
}

/// The entry of the line of this number, and what stands after it.
#[tactic(auto, unfolding(crate::specs::Journals::next_at))]
fn next_entry<'a>(
    alloc: Global,
    bytes: &'a [u8],
    last: Option<At>,
    line: u32,
) -> Result<(Entry, &'a [u8]), TraceFault>
    ensures { GivesAt line (λ x. (x.0, x.1.now)) result (next_at last bytes.now) }
{
    match entry_line(alloc, bytes) {
        Ok((entry, rest)) => {
            if follows(last, &entry) {
                Ok((entry, rest))
            } else {
                Err(TraceFault::Line { line })
            }
        }
        Err(LineFault::Unspelt) => Err(TraceFault::Line { line }),
        Err(LineFault::Memory) => Err(TraceFault::Memory),
    }
}

/// The entries of all lines, or the first fault.
fn traced(alloc: Global, bytes: &[u8]) -> Result<Journal, TraceFault>
    requires { length bytes.now < 2 ^ 32 }
    ensures { MatchResult result (λ j. SpellsTrace bytes.now j) (λ e. IsFault bytes.now e) }
{
    let mut journal = Journal::new(alloc);
    let mut last: Option<At> = None;
    let mut rest = bytes;
    while !rest.is_empty() {
        let line = journal.len() as u32 + 1;
        let (entry, after) = next_entry(alloc, rest, last, line)?;
        last = Some(At {
            stamp: entry.stamp,
            lock: entry.lock,
        });
        journal.push(entry)?;
        rest = after;
    }
    Ok(journal)
}

/// The journal that the bytes are the trace of, else the first line that no entry spells with its end
/// or whose entry's stamp and lock aren't greater than those of the line before. What a line says of
/// the sense of a refusal is its key, its codes and perhaps a byte of the CDB; the rest of it is read
/// as none. Takes memory for the entries and their bytes; the time is linear in the bytes.
pub fn read_trace(alloc: Global, bytes: &[u8]) -> Result<Journal, TraceFault>
    requires { length bytes.now < 2 ^ 32 }
    // The bytes are the trace of what is read.
    ensures read { IfOk result (λ j. SpellsTrace bytes.now j) }
    // The journal that they are the trace of is read, unless memory runs out.
    ensures spelt { (j : List Entry) → SpellsTrace bytes.now j → MatchResult result (λ k. k ≡ j) (λ e. e ≡ TraceFault.Memory) }
    // The line that is named is the first fault.
    ensures line { IfErr result (λ e. IsFault bytes.now e) }
    // The first fault is named, unless memory runs out.
    ensures fault { (n : ℕ) → IsFirstFaultyLine bytes.now n → MatchResult result (λ j. ⊥) (λ e. Tells n e) }
{
    traced(alloc, bytes)
}
