//! Lists of cases.

ghost use Rattle.std.specs.Prelude.{◌≡◌, ◌≤◌, ◌<◌, ◌-◌, ◌^◌, ◌++◌, ℕ, List, length, All, OnOk, IfOk, IfErr};
ghost use Rattle.worked_cases.specs.Lines.{IsLine, AreLines, IsFaultOf};
ghost use Rattle.worked_cases.specs.Parts.{IsPart};
ghost use Rattle.worked_cases.specs.Told.{value_text};

use crate::calls::{Draft, TopCall};
use crate::faults::{Expected, ListFault, Wrong};
use crate::lines::{Line, cut_at, filled, lines_of, number_of};
use crate::texts::{NamedTexts, take_line};
use blocks_core::{Bytes, Memory};
use outer_io::READ_LIMIT;
use std::alloc::Global;
use text_fields::push_number;

/// What is written in a case's lines in the place of `{}`.
#[derive(Drop)]
pub enum CaseValue {
    /// Nothing: the lines stand as they are.
    None,
    Text(Bytes),
    Number(u32),
}

/// One call of a case.
#[derive(Drop)]
pub struct CaseRun {
    pub name: Bytes,
    pub value: CaseValue,
    pub call: TopCall,
}

/// What a part of a list is.
#[derive(Clone, Copy, Debug, PartialEq, Eq)]
enum PartKind {
    Block,
    Case,
}

/// A block or a case: the line that has its name, and the lines behind that one.
#[derive(Clone, Copy)]
struct Part<'a, 'l> {
    kind: PartKind,
    name: &'a [u8],
    number: u32,
    lines: &'l [Line<'a>],
}

/// What is read of a list so far.
#[derive(Drop)]
struct Gathered {
    blocks: NamedTexts,
    runs: Vec<CaseRun>,
}

/// What a line begins, and its name.
fn opening_of(text: &[u8]) -> Option<(PartKind, &[u8])> {
    let (keyword, name) = cut_at(text, b' ');
    match keyword {
        b"block" => Some((PartKind::Block, name)),
        b"case" => Some((PartKind::Case, name)),
        _ => None,
    }
}

/// How many lines stand before the next part.
fn part_len(lines: &[Line]) -> usize
    ensures { result ≤ length lines.now }
{
    for (place, line) in lines.iter().enumerate() {
        if opening_of(line.text).is_some() {
            return place;
        }
    }
    lines.len()
}

/// The first and the last number in a line `from FIRST to LAST`, without its keyword.
fn ends_of(text: &[u8]) -> Result<(u32, u32), Wrong>
    ensures { IfOk result (λ ends. (ends.0 ≤ ends.1) × (ends.1 < 2 ^ 32 - 1)) }
{
    let (first, rest) = cut_at(text, b' ');
    let (word, last) = cut_at(rest, b' ');
    let first = number_of(first)?;
    let last = number_of(last)?;
    if word == b"to".as_slice() && first <= last && last < u32::MAX {
        Ok((first, last))
    } else {
        Err(Wrong::Unread(Expected::Numbers))
    }
}

/// Puts a value at the end of a text, as it is written.
pub fn push_value(text: &mut Bytes, value: &CaseValue) -> Result<(), Memory>
    ensures { OnOk result (text.new ≡ text.old ++ value_text value.now) }
{
    match value {
        CaseValue::None => Ok(()),
        CaseValue::Text(bytes) => text.push_slice(bytes.as_slice()),
        CaseValue::Number(number) => push_number(text, u64::from(*number)),
    }
}

/// A line with a value in it.
fn written(alloc: Global, text: &[u8], value: &CaseValue) -> Result<Bytes, Memory> {
    let mut filling = Bytes::new(alloc);
    push_value(&mut filling, value)?;
    match value {
        CaseValue::None => Bytes::from_slice(alloc, text),
        _ => filled(alloc, text, filling.as_slice()),
    }
}

impl Gathered {
    /// The call that the lines of a case make with a value.
    fn call_of(&self, alloc: Global, part: Part, value: &CaseValue) -> Result<TopCall, ListFault>
        ensures { (list : List ℕ) → IsPart list part.entry → IfErr result (IsFaultOf list) }
    {
        let mut draft = Draft::new(alloc);
        let lines = part.lines;
        for line in lines {
            let text = written(alloc, line.text, value)?;
            if let Err(wrong) = draft.take(alloc, &self.blocks, text.as_slice()) {
                return Err(wrong.at(line.number));
            }
        }
        match draft.finished() {
            Ok(call) => Ok(call),
            Err(wrong) => Err(wrong.at(part.number)),
        }
    }

    /// Adds the run of a case with a value.
    fn add_run(&mut self, alloc: Global, part: Part, value: CaseValue) -> Result<(), ListFault>
        ensures { (list : List ℕ) → IsPart list part.entry → IfErr result (IsFaultOf list) }
    {
        let call = self.call_of(alloc, part, &value)?;
        let name = Bytes::from_slice(alloc, part.name)?;
        self.runs
            .push(CaseRun { name, value, call })
            .map_err(Memory::from)?;
        Ok(())
    }

    /// Adds the runs of a case with each number from a first to a last.
    fn add_numbered(
        &mut self,
        alloc: Global,
        part: Part,
        first: u32,
        last: u32,
    ) -> Result<(), ListFault>
        requires { last < 2 ^ 32 - 1 }
        ensures { (list : List ℕ) → IsPart list part.entry → IfErr result (IsFaultOf list) }
    {
        for number in first..last + 1 {
            self.add_run(alloc, part, CaseValue::Number(number))?;
        }
        Ok(())
    }

    /// Adds the runs that a line of a case asks for, and says whether there are any.
    fn add_varied(&mut self, alloc: Global, part: Part, line: Line) -> Result<bool, ListFault>
        ensures { (list : List ℕ) → IsPart list part.entry → IsLine list line.entry.number line.entry.text.now → IfErr result (IsFaultOf list) }
    {
        let (keyword, rest) = cut_at(line.text, b' ');
        match keyword {
            b"each" => {
                let text = Bytes::from_slice(alloc, rest)?;
                self.add_run(alloc, part, CaseValue::Text(text))?;
                Ok(true)
            }
            b"from" => match ends_of(rest) {
                Ok((first, last)) => {
                    self.add_numbered(alloc, part, first, last)?;
                    Ok(true)
                }
                Err(wrong) => Err(wrong.at(line.number)),
            },
            _ => Ok(false),
        }
    }

    /// Adds all runs of a case.
    fn add_case(&mut self, alloc: Global, part: Part) -> Result<(), ListFault>
        ensures { (list : List ℕ) → IsPart list part.entry → IfErr result (IsFaultOf list) }
    {
        let mut varies = false;
        let lines = part.lines;
        for line in lines {
            if self.add_varied(alloc, part, *line)? {
                varies = true;
            }
        }
        if varies {
            Ok(())
        } else {
            self.add_run(alloc, part, CaseValue::None)
        }
    }

    fn add_block(&mut self, alloc: Global, part: Part) -> Result<(), ListFault>
        ensures { (list : List ℕ) → IsPart list part.entry → IfErr result (IsFaultOf list) }
    {
        let mut text = Bytes::new(alloc);
        let lines = part.lines;
        for line in lines {
            if let Err(wrong) = take_line(alloc, &self.blocks, &mut text, line.text) {
                return Err(wrong.at(line.number));
            }
        }
        let name = Bytes::from_slice(alloc, part.name)?;
        self.blocks.push(name, text)?;
        Ok(())
    }

    fn add(&mut self, alloc: Global, part: Part) -> Result<(), ListFault>
        ensures { (list : List ℕ) → IsPart list part.entry → IfErr result (IsFaultOf list) }
    {
        match part.kind {
            PartKind::Block => self.add_block(alloc, part),
            PartKind::Case => self.add_case(alloc, part),
        }
    }

    /// Adds the part that begins with a line, and has these lines behind it.
    fn add_begun(&mut self, alloc: Global, line: Line, lines: &[Line]) -> Result<(), ListFault>
        ensures { (list : List ℕ) → IsLine list line.entry.number line.entry.text.now → AreLines list lines.now →
            IfErr result (IsFaultOf list) }
    {
        match opening_of(line.text) {
            Some((kind, name)) => self.add(
                alloc,
                Part {
                    kind,
                    name,
                    number: line.number,
                    lines,
                },
            ),
            None => Err(Wrong::Unread(Expected::Part).at(line.number)),
        }
    }
}

/// The runs that a list asks for.
pub fn runs_of(alloc: Global, list: &[u8]) -> Result<Vec<CaseRun>, ListFault>
    ensures { IfErr result (IsFaultOf list.now) }
{
    if list.len() > READ_LIMIT {
        return Err(Wrong::Unread(Expected::Size).at(1));
    }
    let lines = lines_of(alloc, list)?;
    let mut gathered = Gathered {
        blocks: NamedTexts::new(alloc),
        runs: Vec::new(alloc),
    };
    let lines = lines.as_slice();
    let mut place = 0;
    while place < lines.len() {
        let behind = &lines[place + 1..];
        let count = part_len(behind);
        gathered.add_begun(alloc, lines[place], &behind[..count])?;
        place += 1 + count;
    }
    let Gathered { runs, .. } = gathered;
    Ok(runs)
}
