//! Calls as cases ask for them.

use crate::faults::{Expected, Wrong};
use crate::lines::{cut_at, number_of, numbers_of};
use crate::texts::{NamedTexts, take_line};
use blocks_core::{Bytes, Memory};
use std::alloc::Global;

/// How many bytes a sink has room for where nothing is said of it.
const ROOM: usize = 65_536;

/// A program, by the top call that it makes.
#[derive(Clone, Copy, Debug, PartialEq, Eq)]
pub enum Program {
    /// `xorarray`, which calls `tool`.
    Array,
    /// `xorcheck`, which calls `check`.
    Checker,
    /// `xortarget`, which calls `serve`.
    Target,
}

/// How many bytes a sink has room for, and which of its calls fail, from 1.
#[derive(Drop)]
pub struct Outlet {
    pub room: usize,
    pub fails: Vec<u64>,
}

/// A top call, and what is handed to it.
#[derive(Drop)]
pub struct TopCall {
    pub program: Program,
    pub words: Vec<String>,
    pub input: Bytes,
    /// Which calls of the source fail, from 1.
    pub source_fails: Vec<u64>,
    /// How many bytes each read of the source gives at most.
    pub piece: usize,
    pub out: Outlet,
    pub notes: Outlet,
}

/// A call as the lines of a case make it: its program once that is said.
#[derive(Drop)]
pub struct Draft {
    program: Option<Program>,
    words: Vec<String>,
    input: Bytes,
    source_fails: Vec<u64>,
    piece: usize,
    out: Outlet,
    notes: Outlet,
}

impl Outlet {
    fn new(alloc: Global) -> Outlet {
        Outlet {
            room: ROOM,
            fails: Vec::new(alloc),
        }
    }
}

fn program_of(name: &[u8]) -> Result<Program, Wrong> {
    match name {
        b"xorarray" => Ok(Program::Array),
        b"xorcheck" => Ok(Program::Checker),
        b"xortarget" => Ok(Program::Target),
        _ => Err(Wrong::Unread(Expected::Program)),
    }
}

/// Words that single spaces part.
fn words_of(alloc: Global, text: &[u8]) -> Result<Vec<String>, Wrong> {
    let mut words = Vec::new(alloc);
    let mut rest = text;
    while !rest.is_empty() {
        let (word, behind) = cut_at(rest, b' ');
        let Ok(word) = str::from_utf8(word) else {
            return Err(Wrong::Unread(Expected::Text));
        };
        words
            .push(String::from_str(alloc, word).map_err(Memory::from)?)
            .map_err(Memory::from)?;
        rest = behind;
    }
    Ok(words)
}

impl Draft {
    /// No program, words or input; nothing fails, and there is ample room.
    pub fn new(alloc: Global) -> Draft {
        Draft {
            program: None,
            words: Vec::new(alloc),
            input: Bytes::new(alloc),
            source_fails: Vec::new(alloc),
            piece: usize::MAX,
            out: Outlet::new(alloc),
            notes: Outlet::new(alloc),
        }
    }

    /// The sink with this name.
    fn outlet(&mut self, name: &[u8]) -> Result<&mut Outlet, Wrong> {
        match name {
            b"out" => Ok(&mut self.out),
            b"notes" => Ok(&mut self.notes),
            _ => Err(Wrong::Unread(Expected::Medium)),
        }
    }

    /// Takes the program and its words.
    fn take_run(&mut self, alloc: Global, rest: &[u8]) -> Result<(), Wrong> {
        if self.program.is_some() {
            return Err(Wrong::Unread(Expected::Call));
        }
        let (name, words) = cut_at(rest, b' ');
        self.program = Some(program_of(name)?);
        self.words = words_of(alloc, words)?;
        Ok(())
    }

    /// Takes the numbers of calls that fail.
    fn take_fails(&mut self, alloc: Global, rest: &[u8]) -> Result<(), Wrong> {
        let (name, numbers) = cut_at(rest, b' ');
        let fails = numbers_of(alloc, numbers)?;
        match name {
            b"source" => self.source_fails = fails,
            _ => self.outlet(name)?.fails = fails,
        }
        Ok(())
    }

    fn take_room(&mut self, rest: &[u8]) -> Result<(), Wrong> {
        let (name, number) = cut_at(rest, b' ');
        self.outlet(name)?.room = number_of(number)? as usize;
        Ok(())
    }

    fn take_piece(&mut self, number: &[u8]) -> Result<(), Wrong> {
        self.piece = number_of(number)? as usize;
        Ok(())
    }

    /// Takes one more line of a case. Those that say what varies were taken already.
    pub fn take(&mut self, alloc: Global, blocks: &NamedTexts, line: &[u8]) -> Result<(), Wrong> {
        let (keyword, rest) = cut_at(line, b' ');
        match keyword {
            b"run" => self.take_run(alloc, rest),
            b"fail" => self.take_fails(alloc, rest),
            b"room" => self.take_room(rest),
            b"piece" => self.take_piece(rest),
            b"each" | b"from" => Ok(()),
            _ => take_line(alloc, blocks, &mut self.input, line),
        }
    }

    /// The call, where its program was said.
    pub fn finished(self) -> Result<TopCall, Wrong> {
        let Draft {
            program,
            words,
            input,
            source_fails,
            piece,
            out,
            notes,
        } = self;
        match program {
            Some(program) => Ok(TopCall {
                program,
                words,
                input,
                source_fails,
                piece,
                out,
                notes,
            }),
            None => Err(Wrong::Unread(Expected::Call)),
        }
    }
}
