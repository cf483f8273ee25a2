//! The lines that each script begins with.

ghost use Rattle.std.specs.Prelude.{◌≤◌, ◌<◌, ◌+◌, ◌≡◌, [], ◌∷◌, IfOk, length};
ghost use Rattle.text_fields.specs.Reading.{Reads};
ghost use Rattle.stripe_layout.specs.Layout.{IsArray};
ghost use Rattle.host_scripts.specs.Loose.{three_of, maxima_of, mode_of};
ghost use Rattle.host_scripts.specs.Reading.{Gives, judged, any, line_at, are_maxima, is_maximum, targets_at, hosts_at, head_at, turns_line};
ghost use Rattle.host_scripts.specs.Heads.{head_of};

use crate::modes::mode_of;
use crate::number_lines::{next_line, number_line, small_number_line};
use crate::numbers::numeral;
use crate::script::{Cause, ScriptFault, refused};
use crate::shape::{buffer_line, shape_lines};
use stripe_layout::{Geometry, Mode};
use text_fields::{cut, strip};

/// What these lines say.
#[derive(Clone, Copy)]
pub struct ScriptHeader {
    pub version: u8,
    pub geometry: Geometry,
    pub buffer: u32,
    pub maxima: [u32; 3],
    pub mode: Mode,
    pub seed: u32,
    pub hosts: u8,
}

/// Three numerals, each of which is 2^32 where it is greater.
#[tactic(auto, unfolding(crate::specs::Loose::three_of))]
fn three_numbers(write: &[u8], regenerate: &[u8], rebuild: &[u8]) -> Option<(u64, u64, u64)>
    ensures { Reads (λ m. m.0 ∷ m.1 ∷ m.2 ∷ []) result (three_of write.now regenerate.now rebuild.now) }
{
    let write = numeral(write)?;
    let regenerate = numeral(regenerate)?;
    let rebuild = numeral(rebuild)?;
    Some((write, regenerate, rebuild))
}

#[tactic(auto, unfolding(crate::specs::Loose::maxima_of))]
fn maxima_text(text: &[u8]) -> Option<(u64, u64, u64)>
    ensures { Reads (λ m. m.0 ∷ m.1 ∷ m.2 ∷ []) result (maxima_of text.now) }
{
    let all = strip(text, b"maxima ")?;
    let (write, rest) = cut(all, b' ')?;
    let (regenerate, rebuild) = cut(rest, b' ')?;
    three_numbers(write, regenerate, rebuild)
}

/// Whether a number is no maximum, or one of at least a unit.
fn is_maximum(unit: u32, number: u64) -> bool
    ensures { result ≡ is_maximum unit number }
{
    number == 0 || (u64::from(unit) <= number && number <= 65535)
}

fn ranged_maxima(unit: u32, line: u32, text: &[u8]) -> Result<[u32; 3], ScriptFault>
    ensures { Gives (λ m. m) result (judged line (are_maxima unit) any (maxima_of text.now)) }
{
    let Some((write, regenerate, rebuild)) = maxima_text(text) else {
        return Err(refused(line, Cause::Form));
    };
    if write <= 65535 && is_maximum(unit, regenerate) && is_maximum(unit, rebuild) {
        Ok([write as u32, regenerate as u32, rebuild as u32])
    } else {
        Err(refused(line, Cause::Range))
    }
}

/// The three maxima of each target's first page.
#[tactic(auto, unfolding(crate::specs::Reading::line_at))]
fn maxima_line(unit: u32, line: u32, bytes: &[u8]) -> Result<([u32; 3], &[u8]), ScriptFault>
    ensures value { Gives (λ x. (x.0, x.1.now)) result (line_at line (are_maxima unit) any maxima_of bytes.now) }
    ensures shorter { IfOk result (λ x. length x.1.now < length bytes.now) }
{
    let (text, rest) = next_line(bytes, line)?;
    let maxima = ranged_maxima(unit, line, text)?;
    Ok((maxima, rest))
}

/// What each target starts with: its buffer and its maxima, on this line and the next.
#[tactic(auto, unfolding(crate::specs::Reading::targets_at))]
fn target_lines(unit: u32, line: u32, bytes: &[u8]) -> Result<(u32, [u32; 3], &[u8]), ScriptFault>
    requires { line ≤ 13 }
    ensures value { Gives (λ x. (x.0, x.1, x.2.now)) result (targets_at unit line bytes.now) }
    ensures shorter { IfOk result (λ x. length x.2.now + 2 ≤ length bytes.now) }
{
    let (buffer, rest) = number_line(bytes, line, b"buffer ", unit, 65536)?;
    let (maxima, rest) = maxima_line(unit, line + 1, rest)?;
    Ok((buffer, maxima, rest))
}

/// Who moves the deltas.
#[tactic(auto, unfolding(crate::specs::Reading::line_at))]
fn mode_line(line: u32, bytes: &[u8]) -> Result<(Mode, &[u8]), ScriptFault>
    ensures value { Gives (λ x. (x.0, x.1.now)) result (line_at line any any mode_of bytes.now) }
    ensures shorter { IfOk result (λ x. length x.1.now < length bytes.now) }
{
    let (text, rest) = next_line(bytes, line)?;
    match mode_of(text) {
        Some(mode) => Ok((mode, rest)),
        None => Err(refused(line, Cause::Form)),
    }
}

/// How the hosts run: the mode, the seed and how many there are, on this line and the next two.
#[tactic(auto, unfolding(crate::specs::Reading::hosts_at))]
fn host_lines(line: u32, bytes: &[u8]) -> Result<(Mode, u32, u8, &[u8]), ScriptFault>
    requires { line ≤ 15 }
    ensures value { Gives (λ x. (x.0, x.1, x.2, x.3.now)) result (hosts_at line bytes.now) }
    ensures shorter { IfOk result (λ x. length x.3.now + 3 ≤ length bytes.now) }
{
    let (mode, rest) = mode_line(line, bytes)?;
    let (seed, rest) = number_line(rest, line + 1, b"seed ", 0, u32::MAX)?;
    let (hosts, rest) = small_number_line(rest, line + 2, b"hosts ", 1, 26)?;
    Ok((mode, seed, hosts, rest))
}

/// The line behind the header, of the first turns or the first call, counted from 1.
pub fn turns_line(header: &ScriptHeader) -> u32
    ensures value { result ≡ turns_line (head_of header.now) }
    ensures few { result ≤ 18 }
{
    buffer_line(header.version, &header.geometry.areas) + 5
}

/// All lines that a script begins with.
#[tactic(auto, unfolding(crate::specs::Reading::head_at))]
pub fn header_of(bytes: &[u8]) -> Result<(ScriptHeader, &[u8]), ScriptFault>
    ensures value { Gives (λ x. (head_of x.0, x.1.now)) result (head_at bytes.now) }
    ensures array { IfOk result (λ x. IsArray x.0.geometry) }
    ensures shorter { IfOk result (λ x. length x.1.now + turns_line (head_of x.0) ≤ length bytes.now + 1) }
{
    // A `match` for the borrow checker's sake, as in `shape_lines`.
    let (version, geometry, rest) = match shape_lines(bytes) {
        Ok(read) => read,
        Err(fault) => return Err(fault),
    };
    let line = buffer_line(version, &geometry.areas);
    let (buffer, maxima, rest) = target_lines(geometry.greatest_unit(), line, rest)?;
    let (mode, seed, hosts, rest) = host_lines(line + 2, rest)?;
    let header = ScriptHeader {
        version,
        geometry,
        buffer,
        maxima,
        mode,
        seed,
        hosts,
    };
    Ok((header, rest))
}
