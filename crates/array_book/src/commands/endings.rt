//! Which commands ended.

ghost use Rattle.std.specs.Prelude.{◌≡◌, ◌==◌, ◌||◌, ◌&&◌, ℕ, OnOk, OnErr, [], Some, true};
ghost use Rattle.array_book.specs.Endings.{KeepsEndings, has_ended_by, is_done_by, has_ended_in, is_done_in};

use crate::commands::by_number::ByNumber;
use blocks_core::Memory;
use std::alloc::Global;

/// How far a command is.
#[derive(Clone, Copy, Debug, PartialEq, Eq)]
pub enum Ending {
    Awaited,
    /// It ended, but isn't closed as done.
    Ended,
    Done,
}

/// The commands that ended, each with whether it is closed as done.
#[derive(Debug, Drop)]
pub struct Endings {
    ended: ByNumber<Ending>,
}

fn has_ended(ending: Option<Ending>) -> bool
    ensures { result ≡ has_ended_by ending }
{
    matches!(ending, Some(Ending::Ended | Ending::Done))
}

fn is_done(ending: Option<Ending>) -> bool
    ensures { result ≡ is_done_by ending }
{
    matches!(ending, Some(Ending::Done))
}

fn ending_of(done: bool) -> Ending
    ensures ended { has_ended_by (Some result) ≡ true }
    ensures done { is_done_by (Some result) ≡ done }
{
    if done { Ending::Done } else { Ending::Ended }
}

impl Endings {
    /// No command ended. Takes no memory.
    pub fn new(alloc: Global) -> Endings
        ensures { KeepsEndings [] result }
    {
        Endings {
            ended: ByNumber::new(alloc),
        }
    }

    /// One more end of a command. A command that is closed as done stays so, whatever ends it again.
    pub fn add(&mut self, command: u32, done: bool) -> Result<(), Memory>
        ensures ended { OnOk result ((c : ℕ) → has_ended_in self.new c ≡ ((command == c) || has_ended_in self.old c)) }
        ensures done { OnOk result ((c : ℕ) → is_done_in self.new c ≡ ((done && (command == c)) || is_done_in self.old c)) }
        ensures ended_err { OnErr result ((c : ℕ) → has_ended_in self.new c ≡ has_ended_in self.old c) }
        ensures done_err { OnErr result ((c : ℕ) → is_done_in self.new c ≡ is_done_in self.old c) }
    {
        let before = self.is_done(command);
        self.ended.put(command, ending_of(done || before))
    }

    /// A command is opened: whether it ended stays as it is. Commands are opened by rising numbers, while they end in
    /// any order, so it is here that they get their places in the row.
    pub fn expect(&mut self, command: u32) -> Result<(), Memory>
        ensures ended { (c : ℕ) → has_ended_in self.new c ≡ has_ended_in self.old c }
        ensures done { (c : ℕ) → is_done_in self.new c ≡ is_done_in self.old c }
    {
        let ending = self.ended.get(command).unwrap_or(Ending::Awaited);
        self.ended.put(command, ending)
    }

    pub fn has_ended(&self, command: u32) -> bool
        ensures { result ≡ has_ended_in self.now command }
    {
        has_ended(self.ended.get(command))
    }

    /// Whether a command is closed as done.
    pub fn is_done(&self, command: u32) -> bool
        ensures { result ≡ is_done_in self.now command }
    {
        is_done(self.ended.get(command))
    }
}
