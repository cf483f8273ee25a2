//! Lines of notes, each ended by one byte 0Ah.

ghost use Rattle.std.specs.Prelude.{◌≡◌, IfOk};
ghost use Rattle.program_status.specs.Notes.{cause_word, excess_line, numbered_line, refused_line};

use blocks_core::{Bytes, Memory};
use host_scripts::{Cause, Limit};
use std::alloc::Global;
use text_fields::push_counted;

/// What there is too much of: bytes of the input, or something that is counted in the script or the bench that
/// it spells.
#[derive(Clone, Copy, Debug, PartialEq, Eq)]
pub enum Excess {
    Input,
    Counted(Limit),
}

/// The line of what there is too much of.
pub fn excess_line(excess: Excess) -> &'static [u8]
    ensures { result.now ≡ excess_line excess }
{
    match excess {
        Excess::Input => b"limit input\n",
        Excess::Counted(Limit::Calls) => b"limit calls\n",
        Excess::Counted(Limit::Blocks) => b"limit blocks\n",
        Excess::Counted(Limit::Moved) => b"limit moved\n",
        Excess::Counted(Limit::Media) => b"limit media\n",
        Excess::Counted(Limit::Passes) => b"limit passes\n",
    }
}

/// The word of a cause.
pub fn cause_word(cause: Cause) -> &'static [u8]
    ensures { result.now ≡ cause_word cause }
{
    match cause {
        Cause::Form => b"form",
        Cause::Range => b"range",
        Cause::Size => b"size",
    }
}

/// The line of words and a number.
pub fn numbered_line(alloc: Global, words: &[u8], number: u64) -> Result<Bytes, Memory>
    ensures { IfOk result (λ text. text ≡ numbered_line words.now number) }
{
    let mut text = Bytes::new(alloc);
    push_counted(&mut text, words, number)?;
    text.push(b'\n')?;
    Ok(text)
}

/// The line of a line of the input that is refused, counted from 1, with the word that says why.
pub fn refused_line(alloc: Global, line: u64, word: &[u8]) -> Result<Bytes, Memory>
    ensures { IfOk result (λ text. text ≡ refused_line line word.now) }
{
    let mut text = Bytes::new(alloc);
    push_counted(&mut text, b"refused line", line)?;
    text.push(b' ')?;
    text.push_slice(word)?;
    text.push(b'\n')?;
    Ok(text)
}
