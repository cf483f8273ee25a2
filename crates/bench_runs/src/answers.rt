//! What is told of a line.

ghost use Rattle.std.specs.Prelude.{◌≡◌, ◌++◌, ℕ, List, Some, OnOk};
ghost use Rattle.bench_runs.specs.Answers.{answer_text, told_text};

use crate::line_answer::LineAnswer;
use answer_text::{check_of, push_check, push_good};
use blocks_core::{Bytes, Memory};
use xor_target::Answer;

/// What a target answered.
fn push_answer(text: &mut Bytes, answer: &Answer) -> Result<(), Memory>
    ensures { OnOk result ((told : List ℕ) × ((answer_text answer.now ≡ Some told) × (text.new ≡ text.old ++ told))) }
{
    match answer {
        Answer::Good { bytes, .. } => push_good(text, bytes.as_slice()),
        Answer::Check { sense, .. } => push_check(text, &check_of(sense)),
        Answer::Gone { .. } => text.push_slice(b"gone"),
        // No line shuts an owner, and requests were carried, so of these three only want of memory comes.
        Answer::Shut { .. } | Answer::Peer { .. } | Answer::Memory => Err(Memory),
    }
}

/// What a line came to.
pub fn push_told(text: &mut Bytes, came: &LineAnswer) -> Result<(), Memory>
    ensures { OnOk result ((told : List ℕ) × ((told_text came.now ≡ Some told) × (text.new ≡ text.old ++ told))) }
{
    match came {
        LineAnswer::Answered(answer) => push_answer(text, answer),
        LineAnswer::Done => text.push_slice(b"done"),
    }
}
