//! What is wrong in a list of cases, and the line that says so.

ghost use Rattle.std.specs.Prelude.{◌≡◌, IfOk};
ghost use Rattle.worked_cases.specs.Faults.{placed, words_of, fault_line};

use blocks_core::{Bytes, Memory};
use std::alloc::Global;
use text_fields::push_number;

/// What was to stand in a line that is no line of a list.
#[derive(Clone, Copy, Debug, PartialEq, Eq)]
pub enum Expected {
    Size,
    Part,
    Step,
    Number,
    Numbers,
    Hexadecimal,
    Block,
    Place,
    Length,
    Program,
    Text,
    Medium,
    Call,
}

/// Why a line isn't taken.
#[derive(Clone, Copy, Debug, PartialEq, Eq)]
pub enum Wrong {
    /// It is none that may stand there.
    Unread(Expected),
    Memory,
}

/// Why a list isn't run.
#[derive(Clone, Copy, Debug, PartialEq, Eq)]
pub enum ListFault {
    /// This line of it, from 1, is none that may stand there.
    Line { number: u32, expected: Expected },
    Memory,
}

impl From<Memory> for Wrong {
    ghost use Rattle.std.specs.Prelude.{◌≡◌};
    ghost use Rattle.worked_cases.specs.declared.faults.Wrong.TheVariants as wrongs;

    ghost from_gives = { λ _ wrong. wrong ≡ wrongs.Memory };

    fn from(_error: Memory) -> Wrong {
        Wrong::Memory
    }
}

impl From<Memory> for ListFault {
    ghost use Rattle.std.specs.Prelude.{◌≡◌};
    ghost use Rattle.worked_cases.specs.declared.faults.ListFault.TheVariants as faults;

    ghost from_gives = { λ _ fault. fault ≡ faults.Memory };

    fn from(_error: Memory) -> ListFault {
        ListFault::Memory
    }
}

impl Wrong {
    /// The same, with the number of the line.
    pub fn at(self, number: u32) -> ListFault
        ensures { result ≡ placed self number }
    {
        match self {
            Wrong::Unread(expected) => ListFault::Line { number, expected },
            Wrong::Memory => ListFault::Memory,
        }
    }
}

/// What was expected, in words.
fn words_of(expected: Expected) -> &'static [u8]
    ensures { result.now ≡ words_of expected }
{
    match expected {
        Expected::Size => b"a list of at most 50331648 bytes",
        Expected::Part => b"a line `block NAME` or `case NAME`",
        Expected::Step => b"a line that a block or a case may have",
        Expected::Number => b"a number",
        Expected::Numbers => b"`from FIRST to LAST`",
        Expected::Hexadecimal => b"pairs of lower-case hexadecimal digits",
        Expected::Block => b"the name of a block above",
        Expected::Place => b"a place in the text above",
        Expected::Length => b"a text of at most 67108864 bytes",
        Expected::Program => b"`xorarray`, `xorcheck` or `xortarget`",
        Expected::Text => b"words in UTF-8",
        Expected::Medium => b"`source`, `out` or `notes`",
        Expected::Call => b"a case with one line `run`",
    }
}

/// The line of notes of a fault.
pub fn fault_line(alloc: Global, number: u32, expected: Expected) -> Result<Bytes, Memory>
    ensures { IfOk result (λ text. text ≡ fault_line number expected) }
{
    let mut text = Bytes::from_slice(alloc, b"line ")?;
    push_number(&mut text, u64::from(number))?;
    text.push_slice(b": expected ")?;
    text.push_slice(words_of(expected))?;
    text.push(b'\n')?;
    Ok(text)
}
