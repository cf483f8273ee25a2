//! The next line of a script, and lines of a keyword and a number.

ghost use Rattle.std.specs.Prelude.{◌≤◌, ◌<◌, IfOk, length};
ghost use Rattle.host_scripts.specs.Loose.{number_of};
ghost use Rattle.host_scripts.specs.Reading.{Gives, judged, any, within, next_at, number_at};

use crate::numbers::number_behind;
use crate::script::{Cause, ScriptFault, refused};
use text_fields::cut;

/// The text of the next line, and what stands after its end.
#[tactic(auto, unfolding(crate::specs::Reading::next_at))]
pub fn next_line(bytes: &[u8], line: u32) -> Result<(&[u8], &[u8]), ScriptFault>
    ensures value { Gives (λ x. (x.0.now, x.1.now)) result (next_at line bytes.now) }
    ensures shorter { IfOk result (λ x. length x.1.now < length bytes.now) }
{
    match cut(bytes, b'\n') {
        Some(parts) => Ok(parts),
        None => Err(refused(line, Cause::Form)),
    }
}

/// A keyword and a number in range.
fn number_text(
    text: &[u8],
    line: u32,
    keyword: &[u8],
    least: u32,
    most: u32,
) -> Result<u32, ScriptFault>
    ensures value { Gives (λ n. n) result (judged line (within least most) any (number_of keyword.now text.now)) }
    ensures range { IfOk result (λ n. (least ≤ n) × (n ≤ most)) }
{
    match number_behind(text, keyword) {
        None => Err(refused(line, Cause::Form)),
        Some(number) if u64::from(least) <= number && number <= u64::from(most) => {
            Ok(number as u32)
        }
        Some(_) => Err(refused(line, Cause::Range)),
    }
}

/// A line of a keyword and a number in range.
#[tactic(auto, unfolding(crate::specs::Reading::number_at, crate::specs::Reading::line_at))]
pub fn number_line<'a>(
    bytes: &'a [u8],
    line: u32,
    keyword: &[u8],
    least: u32,
    most: u32,
) -> Result<(u32, &'a [u8]), ScriptFault>
    ensures value { Gives (λ x. (x.0, x.1.now)) result (number_at line keyword.now least most bytes.now) }
    ensures range { IfOk result (λ x. (least ≤ x.0) × (x.0 ≤ most)) }
    ensures shorter { IfOk result (λ x. length x.1.now < length bytes.now) }
{
    let (text, rest) = next_line(bytes, line)?;
    let number = number_text(text, line, keyword, least, most)?;
    Ok((number, rest))
}

/// The same of a number that a byte holds.
pub fn small_number_line<'a>(
    bytes: &'a [u8],
    line: u32,
    keyword: &[u8],
    least: u8,
    most: u8,
) -> Result<(u8, &'a [u8]), ScriptFault>
    ensures value { Gives (λ x. (x.0, x.1.now)) result (number_at line keyword.now least most bytes.now) }
    ensures range { IfOk result (λ x. (least ≤ x.0) × (x.0 ≤ most)) }
    ensures shorter { IfOk result (λ x. length x.1.now < length bytes.now) }
{
    let (number, rest) = number_line(bytes, line, keyword, u32::from(least), u32::from(most))?;
    Ok((number as u8, rest))
}
