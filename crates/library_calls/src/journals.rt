//! The calls on a script and a journal.

ghost use Rattle.host_scripts.specs.Scripts.{IsScript};
ghost use Rattle.stripe_layout.specs.Layout.{IsArray};

use array_journal::{Entries, Journal, merge};
use blocks_core::{Bytes, Memory};
use host_scripts::{Script, print};
use std::alloc::Global;
use stripe_check::{sum, summary, trace};
use stripe_layout::Geometry;
use text_fields::{push_hex, push_number};

/// The script, the trace of the merged journal, the sums after each entry, and the summary.
pub fn push_journal(
    alloc: Global,
    text: &mut Bytes,
    script: &Script,
    journal: &Journal,
) -> Result<(), Memory>
    requires { IsScript script.now }
{
    text.push_slice(print(alloc, script)?.as_slice())?;
    let merged = merged_copy(alloc, journal)?;
    text.push_slice(b"trace\n")?;
    text.push_slice(trace(alloc, &merged)?.as_slice())?;
    push_sums(alloc, text, &script.geometry, &merged)?;
    text.push_slice(summary(alloc, script, &merged)?.as_slice())
}

/// The journal again, from copies of its entries in a list for each lock.
fn merged_copy(alloc: Global, journal: &Journal) -> Result<Journal, Memory> {
    let mut lists = Vec::new(alloc);
    // A trace may name any lock: what stands at one without a list would be lost.
    for lock in 0..=u8::MAX {
        lists.push(lane(alloc, journal, lock)?)?;
    }
    merge(alloc, lists)
}

/// Copies of the entries of one lock.
fn lane(alloc: Global, journal: &Journal, lock: u8) -> Result<Entries, Memory> {
    let mut entries = Entries::new(alloc);
    for entry in journal.as_slice() {
        if entry.lock == lock {
            entries.push(entry.copy(alloc)?)?;
        }
    }
    Ok(entries)
}

/// A line for each entry: its stamp, and the exclusive-or of each stripe over all targets after it.
fn push_sums(
    alloc: Global,
    text: &mut Bytes,
    geometry: &Geometry,
    journal: &Journal,
) -> Result<(), Memory>
    requires { IsArray geometry.now }
{
    let mut beginning = Journal::new(alloc);
    for entry in journal.as_slice() {
        beginning.push(entry.copy(alloc)?)?;
        push_number(text, entry.stamp)?;
        for stripe in 0..geometry.stripes() {
            text.push_slice(b" ")?;
            push_hex(text, sum(alloc, &beginning, geometry, stripe)?.as_slice())?;
        }
        text.push_slice(b"\n")?;
    }
    Ok(())
}
