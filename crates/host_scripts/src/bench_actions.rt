//! The lines of a bench behind its header.

ghost use Rattle.std.specs.Prelude.{◌≡◌, ◌<◌, ◌≤◌, ◌+◌, ◌^◌, IfOk, length};
ghost use Rattle.text_fields.specs.Reading.{Reads};
ghost use Rattle.host_scripts.specs.Reading.{Gives, judged, any, line_at, each_at};
ghost use Rattle.host_scripts.specs.BenchLoose.{bench_word_of, bench_raw_of, bench_action_of, bench_line_of};
ghost use Rattle.host_scripts.specs.BenchReading.{is_on_bench, bench_line_at, bench_lines_at};

use crate::bench::{BenchAction, BenchLine};
use crate::bench_lines::BenchLines;
use crate::number_lines::next_line;
use crate::numbers::addressed;
use crate::raw_parts::raw_parts;
use crate::script::{Cause, ScriptFault, refused};
use std::alloc::Global;
use text_fields::{is_text, strip};

/// What is done to a target by a word alone.
#[tactic(auto, unfolding(crate::specs::BenchLoose::bench_word_of))]
fn word_action(text: &[u8]) -> Option<BenchAction>
    ensures { result ≡ bench_word_of text.now }
{
    if is_text(text, b"lose") {
        Some(BenchAction::Lose)
    } else if is_text(text, b"reset") {
        Some(BenchAction::Reset)
    } else if is_text(text, b"drop") {
        Some(BenchAction::DropNext)
    } else if is_text(text, b"fresh") {
        Some(BenchAction::Fresh)
    } else {
        None
    }
}

/// What stands behind `cdb `.
#[tactic(auto, unfolding(crate::specs::BenchLoose::bench_raw_of))]
fn raw_action(alloc: Global, line: u32, text: &[u8]) -> Result<BenchAction, ScriptFault>
    ensures { Gives (λ a. a) result (judged line any any (bench_raw_of text.now)) }
{
    let (cdb, bytes) = raw_parts(alloc, line, text)?;
    Ok(BenchAction::Raw { cdb, bytes })
}

/// What is asked of a target.
#[tactic(auto, unfolding(crate::specs::BenchLoose::bench_action_of))]
fn bench_action(alloc: Global, line: u32, text: &[u8]) -> Result<BenchAction, ScriptFault>
    ensures { Gives (λ a. a) result (judged line any any (bench_action_of text.now)) }
{
    if let Some(text) = strip(text, b"cdb ") {
        return raw_action(alloc, line, text);
    }
    match word_action(text) {
        Some(action) => Ok(action),
        None => Err(refused(line, Cause::Form)),
    }
}

/// A target, a space and what is asked of it. What is asked is read before the target is judged, since a
/// line that is wrong in form is refused for its form, whatever its target.
#[tactic(auto, unfolding(crate::specs::BenchLoose::bench_line_of))]
fn bench_line(alloc: Global, targets: u8, line: u32, text: &[u8]) -> Result<BenchLine, ScriptFault>
    ensures { Gives (λ l. l) result (judged line (is_on_bench targets) any (bench_line_of text.now)) }
{
    let Some((target, asked)) = addressed(text) else {
        return Err(refused(line, Cause::Form));
    };
    let action = bench_action(alloc, line, asked)?;
    if target < u64::from(targets) {
        Ok(BenchLine {
            target: target as u8,
            action,
        })
    } else {
        Err(refused(line, Cause::Range))
    }
}

/// What the next line asks, and what stands after it.
#[tactic(auto, unfolding(crate::specs::BenchReading::bench_line_at, crate::specs::Reading::line_at))]
fn next_bench_line(
    alloc: Global,
    targets: u8,
    line: u32,
    bytes: &[u8],
) -> Result<(BenchLine, &[u8]), ScriptFault>
    ensures value { Gives (λ x. (x.0, x.1.now)) result (bench_line_at targets line bytes.now) }
    ensures shorter { IfOk result (λ x. length x.1.now < length bytes.now) }
{
    let (text, rest) = next_line(bytes, line)?;
    let asked = bench_line(alloc, targets, line, text)?;
    Ok((asked, rest))
}

/// All lines behind the header, to the last byte; the first of them is this line.
pub fn all_bench_lines(
    alloc: Global,
    targets: u8,
    first: u32,
    bytes: &[u8],
) -> Result<BenchLines, ScriptFault>
    requires numbers { first + length bytes.now ≤ 2 ^ 32 }
    requires fewer { length bytes.now < 2 ^ 32 }
    ensures { Gives (λ x. x) result (bench_lines_at targets (length bytes.now) first bytes.now) }
{
    let mut lines = BenchLines::new(alloc);
    let mut rest = bytes;
    while !rest.is_empty() {
        let line = first + lines.len() as u32;
        let (asked, after) = next_bench_line(alloc, targets, line, rest)?;
        lines.push(asked)?;
        rest = after;
    }
    Ok(lines)
}
