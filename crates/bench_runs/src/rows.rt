//! The row of a bench's targets.

ghost use Rattle.std.specs.Prelude.{◌≡◌, ◌<◌, ◌≤◌, ◌+◌, ◌^◌, ◌++◌, ℕ, List, Some, length, OnOk, IfOk};
ghost use Rattle.std.specs.List.{AllByRecursion};
ghost use Rattle.array_journal.specs.EntryLists.{lists_in};
ghost use Rattle.array_journal.specs.OneJournal.{journal_of, AreKept};
ghost use Rattle.host_scripts.specs.Benches.{IsBench};
ghost use Rattle.xor_target.specs.Logs.{last_stamp};
ghost use Rattle.bench_runs.specs.Answers.{told_text, numbered};
ghost use Rattle.bench_runs.specs.BenchRuns.{first_targets, newest_stamp, lists_of, IsStep, IsToldStep, AreDone};
ghost use Rattle.bench_runs.specs.Ready.{IsReady};

use crate::answers::push_told;
use crate::line_answer::LineAnswer;
use crate::lines::{Asker, act};
use array_journal::{Entries, Journal, merge};
use blocks_core::{Bytes, Memory};
use host_scripts::{Bench, BenchLine};
use sector_media::MemoryMedium;
use std::alloc::Global;
use text_fields::push_number;
use xor_mode_page::XorPage;
use xor_target::{Rig, Target};

/// The page of each target: no maxima, no delay, and the XOR commands are served.
const FIRST_PAGE: XorPage = XorPage {
    xordis: false,
    max_write: 0,
    max_regenerate: 0,
    max_rebuild: 0,
    delay: 0,
};

/// Targets to which nothing happened, over media in memory.
pub fn first_row(alloc: Global, bench: &Bench) -> Result<Rig<MemoryMedium>, Memory>
    requires { IsBench bench.now }
    ensures value { IfOk result (λ row. row ≡ first_targets bench.now) }
    ensures ready { IfOk result (λ row. IsReady 1 row) }
    ensures count { IfOk result (λ row. length row ≡ bench.now.targets) }
{
    let mut targets = Vec::new(alloc);
    for number in 0..bench.targets {
        let medium = MemoryMedium::new(alloc, bench.block, bench.rows)?;
        targets.push(Target::new(
            alloc,
            number,
            bench.targets,
            bench.block,
            bench.buffer,
            FIRST_PAGE,
            medium,
        )?)?;
    }
    Ok(Rig::new(targets))
}

/// The stamp of a target's newest entry, 0 where there is none.
fn last_stamp(target: &Target<MemoryMedium>) -> u64
    ensures { result ≡ last_stamp target.now.past }
{
    match target.entries().as_slice().last() {
        Some(entry) => entry.stamp,
        None => 0,
    }
}

/// The greatest stamp that an entry of some targets has, 0 where there is none.
fn newest_stamp(targets: &[Target<MemoryMedium>]) -> u64
    ensures { result ≡ newest_stamp targets.now }
{
    let mut newest = 0;
    for target in targets {
        newest = last_stamp(target).max(newest);
    }
    newest
}

/// Does the line with a number at its target, with the requests that come of it. Want of memory is answered as
/// `Err`, or by the target itself as `Answered(Memory)`; after `Err` nothing is said of what the targets are.
pub fn answer_line(
    alloc: Global,
    row: &mut Rig<MemoryMedium>,
    number: u32,
    line: &BenchLine,
) -> Result<LineAnswer, Memory>
    requires number { 1 ≤ number }
    requires target { line.now.target < length row.old }
    requires ready { IsReady number row.old }
    ensures step { IfOk result (λ came. IsStep number row.old line.now row.new came) }
    ensures ready { OnOk result (IsReady (number + 1) row.new) }
    ensures count { OnOk result (length row.new ≡ length row.old) }
{
    let asker = Asker {
        number,
        stamp: newest_stamp(row.as_slice()),
    };
    act(alloc, row, asker, line)
}

/// Writes what the line with a number came to.
fn push_line(text: &mut Bytes, number: u32, came: &LineAnswer) -> Result<(), Memory>
    ensures { OnOk result ((told : List ℕ) × ((told_text came.now ≡ Some told) × (text.new ≡ text.old ++ numbered number told))) }
{
    push_number(text, u64::from(number))?;
    text.push(b' ')?;
    push_told(text, came)?;
    text.push(b'\n')
}

/// Does the line with a number, and writes its line of text.
fn serve(
    alloc: Global,
    row: &mut Rig<MemoryMedium>,
    text: &mut Bytes,
    number: u32,
    line: &BenchLine,
) -> Result<(), Memory>
    requires number { 1 ≤ number }
    requires target { line.now.target < length row.old }
    requires ready { IsReady number row.old }
    ensures ready { OnOk result (IsReady (number + 1) row.new) }
    ensures count { OnOk result (length row.new ≡ length row.old) }
    ensures told { OnOk result ((told : List ℕ) × (IsToldStep number row.old line.now row.new told × (text.new ≡ text.old ++ numbered number told))) }
{
    let came = answer_line(alloc, row, number, line)?;
    push_line(text, number, &came)
}

/// Does the lines in their order. The text has a line for each.
pub fn serve_all(
    alloc: Global,
    row: &mut Rig<MemoryMedium>,
    lines: &[BenchLine],
) -> Result<Bytes, Memory>
    requires targets { AllByRecursion (λ l. l.target < length row.old) lines.now }
    requires fewer { length lines.now < 2 ^ 32 }
    requires ready { IsReady 1 row.old }
    ensures done { IfOk result (λ text. AreDone 1 row.old lines.now row.new text) }
    ensures ready { IfOk result (λ text. IsReady (length lines.now + 1) row.new) }
{
    let mut text = Bytes::new(alloc);
    for (place, line) in lines.iter().enumerate() {
        serve(alloc, row, &mut text, place as u32 + 1, line)?;
    }
    Ok(text)
}

/// The lists of entries in the order of their locks: the book's, and each target's.
fn into_lists(alloc: Global, row: Rig<MemoryMedium>) -> Result<Vec<Entries>, Memory>
    ensures { IfOk result (λ lists. lists_in lists.items ≡ lists_of row) }
{
    let mut lists = Vec::new(alloc);
    // The book has the first lock, and a bench has no book.
    lists.push(Entries::new(alloc))?;
    for target in row.into_targets() {
        let (entries, _, _) = target.into_parts();
        lists.push(entries)?;
    }
    Ok(lists)
}

/// The entries of all targets, in the order of their stamps.
pub fn into_journal(alloc: Global, row: Rig<MemoryMedium>) -> Result<Journal, Memory>
    requires { AreKept (newest_stamp row) (lists_of row) }
    ensures { IfOk result (λ journal. journal ≡ journal_of (lists_of row)) }
{
    let lists = into_lists(alloc, row)?;
    let journal = merge(alloc, lists)?;
    Ok(journal)
}
