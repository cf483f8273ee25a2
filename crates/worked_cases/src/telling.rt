//! How answers are told.

ghost use Rattle.std.specs.Prelude.{◌≡◌, ◌++◌, ◌∷◌, [], OnOk, IfOk, codes};
ghost use Rattle.text_fields.specs.Spelling.{hex};
ghost use Rattle.worked_cases.specs.Told.{is_plain, piece_told, lines_told, written_told, status_told, answer_told, heading_told};
ghost use Rattle.worked_cases.specs.Runs.{AreTold, IsTold};

use crate::answers::{TopAnswer, answer_to};
use crate::lists::{CaseRun, CaseValue, push_value};
use blocks_core::{Bytes, Memory};
use std::alloc::Global;
use text_fields::{push_hex, push_number};

/// Whether a text has only line ends and bytes of ASCII that are seen.
fn is_plain(text: &[u8]) -> bool
    ensures { result ≡ is_plain text.now }
{
    text.iter()
        .all(|byte| *byte == b'\n' || (b' ' <= *byte && *byte <= b'~'))
}

/// Tells a piece of a text behind its name and a mark.
fn push_piece(text: &mut Bytes, name: &[u8], mark: &[u8], piece: &[u8]) -> Result<(), Memory>
    ensures { OnOk result (text.new ≡ text.old ++ piece_told name.now mark.now piece.now) }
{
    text.push_slice(name)?;
    text.push_slice(mark)?;
    text.push_slice(piece)?;
    text.push(b'\n')
}

/// Tells the lines of a text.
fn push_lines(alloc: Global, text: &mut Bytes, name: &[u8], written: &[u8]) -> Result<(), Memory>
    ensures { OnOk result (text.new ≡ text.old ++ lines_told name.now [] written.now) }
{
    let mut begun = Bytes::new(alloc);
    for byte in written {
        if *byte == b'\n' {
            push_piece(text, name, b"| ", begun.as_slice())?;
            begun = Bytes::new(alloc);
        } else {
            begun.push(*byte)?;
        }
    }
    if begun.is_empty() {
        Ok(())
    } else {
        push_piece(text, name, b"+ ", begun.as_slice())
    }
}

/// Tells the bytes of a text in hexadecimal.
fn push_bytes(alloc: Global, text: &mut Bytes, name: &[u8], written: &[u8]) -> Result<(), Memory>
    ensures { OnOk result (text.new ≡ text.old ++ piece_told name.now (codes "hex ") (hex written.now)) }
{
    let mut digits = Bytes::new(alloc);
    push_hex(&mut digits, written)?;
    push_piece(text, name, b"hex ", digits.as_slice())
}

/// Tells what was written: its lines, each behind a bar, the last one behind a plus where it has no end; or
/// its bytes, where one isn't seen.
#[tactic(auto, unfolding(crate::specs::Told::written_told))]
fn push_written(alloc: Global, text: &mut Bytes, name: &[u8], written: &[u8]) -> Result<(), Memory>
    ensures { OnOk result (text.new ≡ text.old ++ written_told name.now written.now) }
{
    if is_plain(written) {
        push_lines(alloc, text, name, written)
    } else {
        push_bytes(alloc, text, name, written)
    }
}

fn push_status(text: &mut Bytes, status: u8) -> Result<(), Memory>
    ensures { OnOk result (text.new ≡ text.old ++ status_told status) }
{
    text.push_slice(b"  status ")?;
    push_number(text, u64::from(status))?;
    text.push(b'\n')
}

fn push_answer(alloc: Global, text: &mut Bytes, answer: &TopAnswer) -> Result<(), Memory>
    ensures { OnOk result (text.new ≡ text.old ++ answer_told answer.now) }
{
    push_status(text, answer.status)?;
    push_written(alloc, text, b"  out ", answer.out.as_slice())?;
    push_written(alloc, text, b"  notes ", answer.notes.as_slice())
}

/// Tells which run of a case it is.
fn push_heading(text: &mut Bytes, name: &[u8], value: &CaseValue) -> Result<(), Memory>
    ensures { OnOk result (text.new ≡ text.old ++ heading_told name.now value.now) }
{
    text.push_slice(name)?;
    match value {
        CaseValue::None => {}
        _ => text.push_slice(b": ")?,
    }
    push_value(text, value)?;
    text.push(b'\n')
}

/// Makes the call of a run, and tells what it answers.
pub fn push_run(alloc: Global, text: &mut Bytes, run: CaseRun) -> Result<(), Memory>
    ensures { OnOk result (IsTold run text.old text.new) }
{
    let CaseRun { name, value, call } = run;
    push_heading(text, name.as_slice(), &value)?;
    let answer = answer_to(alloc, call)?;
    push_answer(alloc, text, &answer)
}

/// Makes the calls of all runs in their order, and tells what they answer.
pub fn told(alloc: Global, runs: Vec<CaseRun>) -> Result<Bytes, Memory>
    ensures { IfOk result (AreTold runs.items []) }
{
    let mut text = Bytes::new(alloc);
    for run in runs {
        push_run(alloc, &mut text, run)?;
    }
    Ok(text)
}
