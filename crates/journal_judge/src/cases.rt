//! Journals to be judged, and what is answered.

ghost use Rattle.std.specs.Prelude.{◌≡◌, ◌<◌, ◌≤◌, ◌^◌, length};
ghost use Rattle.array_journal.specs.Merge.{Rises};
ghost use Rattle.host_scripts.specs.Scripts.{IsScript};
ghost use Rattle.host_requests.specs.Settings.{setting_of};

use array_journal::Journal;
use blocks_core::{Bytes, Memory};
use host_requests::setting_of;
use host_scripts::{Script, ScriptFault, parse};
use std::alloc::Global;
use text_fields::push_number;
use trace_check::{TraceFault, read_trace, run_fault};

/// The most bytes of a script, and of a trace. Lines and entries are then counted in 32 bits, as `parse`,
/// `read_trace` and `run_fault` want.
const LIMIT: usize = 50_331_648;

/// What is said of a journal.
#[derive(Clone, Copy)]
enum JournalVerdict {
    /// It is a run.
    Run,
    /// This entry, from 1, may not follow the ones before it.
    Entry(u32),
    /// Its script isn't one.
    NoScript,
    /// This line of its trace, from 1, is no line of one.
    Line(u32),
}

/// A journal as it is read.
#[derive(Drop)]
struct Case {
    name: Bytes,
    script: Bytes,
    trace: Bytes,
    in_trace: bool,
}

impl Case {
    fn new(alloc: Global) -> Case {
        Case {
            name: Bytes::new(alloc),
            script: Bytes::new(alloc),
            trace: Bytes::new(alloc),
            in_trace: false,
        }
    }

    /// Takes one more line, with its end.
    fn take(&mut self, line: &[u8]) -> Result<(), Memory> {
        if line.starts_with(b"trace\n") {
            self.in_trace = true;
            Ok(())
        } else if self.in_trace {
            self.trace.push_slice(line)
        } else {
            self.script.push_slice(line)
        }
    }

    /// Puts the answer at the end of a text, unless the case has no name.
    fn answer(&self, alloc: Global, text: &mut Bytes) -> Result<(), Memory> {
        if self.name.is_empty() {
            return Ok(());
        }
        let verdict = judged(alloc, self.script.as_slice(), self.trace.as_slice())?;
        text.push_slice(self.name.as_slice())?;
        push_verdict(text, verdict)
    }
}

fn push_verdict(text: &mut Bytes, verdict: JournalVerdict) -> Result<(), Memory> {
    match verdict {
        JournalVerdict::Run => text.push_slice(b" run\n"),
        JournalVerdict::Entry(number) => push_numbered(text, b" entry ", number),
        JournalVerdict::NoScript => text.push_slice(b" no script\n"),
        JournalVerdict::Line(number) => push_numbered(text, b" no trace, line ", number),
    }
}

fn push_numbered(text: &mut Bytes, words: &[u8], number: u32) -> Result<(), Memory> {
    text.push_slice(words)?;
    push_number(text, u64::from(number))?;
    text.push_slice(b"\n")
}

/// What is said of the journal that a trace spells, in the array that a script sets up. One that is too
/// long is answered like want of memory.
fn judged(alloc: Global, script: &[u8], trace: &[u8]) -> Result<JournalVerdict, Memory> {
    if script.len() > LIMIT || trace.len() > LIMIT {
        return Err(Memory);
    }
    match parse(alloc, script) {
        Ok(script) => judged_in(alloc, &script, trace),
        Err(ScriptFault::Refused { .. }) => Ok(JournalVerdict::NoScript),
        Err(ScriptFault::Memory) => Err(Memory),
    }
}

fn judged_in(alloc: Global, script: &Script, trace: &[u8]) -> Result<JournalVerdict, Memory>
    requires script { IsScript script.now }
    requires short { length trace.now < 2 ^ 32 }
{
    match read_trace(alloc, trace) {
        Ok(journal) => judged_run(alloc, script, &journal),
        Err(TraceFault::Line { line }) => Ok(JournalVerdict::Line(line)),
        Err(TraceFault::Memory) => Err(Memory),
    }
}

/// What is said of a journal, of fewer entries than its trace may have bytes.
fn judged_run(alloc: Global, script: &Script, journal: &Journal) -> Result<JournalVerdict, Memory>
    requires script { IsScript script.now }
    requires rises { Rises journal.now }
{
    if journal.len() > LIMIT {
        return Err(Memory);
    }
    match run_fault(alloc, &setting_of(script), journal)? {
        Some(number) => Ok(JournalVerdict::Entry(number)),
        None => Ok(JournalVerdict::Run),
    }
}

/// Where the first line ends.
fn line_end(bytes: &[u8]) -> usize
    ensures { result ≤ length bytes.now }
{
    match bytes.iter().position(|byte| *byte == b'\n') {
        Some(place) => place + 1,
        None => bytes.len(),
    }
}

/// The answers to all journals of an input.
pub fn answers(alloc: Global, input: &[u8]) -> Result<Bytes, Memory> {
    let mut text = Bytes::new(alloc);
    let mut case = Case::new(alloc);
    let mut rest = input;
    // A line has a byte at least, so there are no more lines than bytes.
    for _ in 0..input.len() {
        if rest.is_empty() {
            break;
        }
        let (line, further) = rest.split_at(line_end(rest));
        if line.starts_with(b"journal ") {
            case.answer(alloc, &mut text)?;
            case = Case::new(alloc);
            case.name.push_slice(named(line))?;
        } else {
            case.take(line)?;
        }
        rest = further;
    }
    case.answer(alloc, &mut text)?;
    Ok(text)
}

/// The name in a line `journal NAME`.
fn named(line: &[u8]) -> &[u8] {
    let from = line.len().min(8);
    let name = &line[from..];
    match name.iter().position(|byte| *byte == b'\n') {
        Some(place) => &name[..place],
        None => name,
    }
}
