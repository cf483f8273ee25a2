//! The lines that each bench begins with.

ghost use Rattle.std.specs.Prelude.{◌≤◌, ◌<◌, ◌+◌, IfOk, length};
ghost use Rattle.host_scripts.specs.Reading.{Gives, line_at, any};
ghost use Rattle.host_scripts.specs.BenchLoose.{bench_version_of};
ghost use Rattle.host_scripts.specs.BenchReading.{bench_head_at};

use crate::number_lines::{next_line, number_line, small_number_line};
use crate::script::{Cause, ScriptFault, refused};
use text_fields::is_text;

/// What these lines say.
#[derive(Clone, Copy)]
pub struct BenchHeader {
    pub targets: u8,
    pub block: u32,
    pub rows: u32,
    pub buffer: u32,
}

/// The first line.
#[tactic(auto, unfolding(crate::specs::BenchLoose::bench_version_of, crate::specs::Loose::exact_of, crate::specs::Reading::line_at))]
fn version_line(bytes: &[u8]) -> Result<&[u8], ScriptFault>
    ensures value { Gives (λ x. (1, x.now)) result (line_at 1 any any bench_version_of bytes.now) }
    ensures shorter { IfOk result (λ x. length x.now < length bytes.now) }
{
    let (text, rest) = next_line(bytes, 1)?;
    if is_text(text, b"xorbench 1") {
        Ok(rest)
    } else {
        Err(refused(1, Cause::Form))
    }
}

/// The line behind the header, counted from 1.
pub const FIRST_BENCH_LINE: u32 = 6;

/// All lines that a bench begins with, and what stands after them.
#[tactic(auto, unfolding(crate::specs::BenchReading::bench_head_at))]
pub fn bench_header(bytes: &[u8]) -> Result<(BenchHeader, &[u8]), ScriptFault>
    ensures value { Gives (λ x. (x.0, x.1.now)) result (bench_head_at bytes.now) }
    ensures shorter { IfOk result (λ x. length x.1.now + 5 ≤ length bytes.now) }
{
    let rest = version_line(bytes)?;
    let (targets, rest) = small_number_line(rest, 2, b"targets ", 1, 16)?;
    let (block, rest) = number_line(rest, 3, b"block ", 1, 4096)?;
    let (rows, rest) = number_line(rest, 4, b"rows ", 1, 65536)?;
    let (buffer, rest) = number_line(rest, 5, b"buffer ", 0, 65536)?;
    let header = BenchHeader {
        targets,
        block,
        rows,
        buffer,
    };
    Ok((header, rest))
}
