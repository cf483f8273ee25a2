//! The lines of a script's version and of its array's shape. Version 1 has one area, whose unit and stripes
//! have a line each; version 2 tells how many areas there are, and has a line for each.

ghost use Rattle.std.specs.Prelude.{◌≤◌, ◌<◌, ◌+◌, ◌≡◌, IfOk, length};
ghost use Rattle.std.specs.List.{AllByRecursion};
ghost use Rattle.text_fields.specs.Reading.{Reads};
ghost use Rattle.stripe_layout.specs.declared.areas.Area.{Area};
ghost use Rattle.stripe_layout.specs.Layout.{IsArray, IsArea};
ghost use Rattle.host_scripts.specs.Scripts.{most_targets};
ghost use Rattle.host_scripts.specs.Loose.{version_of, area_of};
ghost use Rattle.host_scripts.specs.Reading.{Gives, judged, any, line_at, version_at, is_area, area_at, areas_at, single_at, several_at, version_areas_at, shape_at, buffer_line};

use crate::number_lines::{next_line, number_line, small_number_line};
use crate::numbers::two_numbers;
use crate::script::{Cause, ScriptFault, refused};
use stripe_layout::{Area, Areas, Geometry};
use text_fields::{is_text, strip};

/// The version that has areas of more than one size.
pub const WITH_AREAS: u8 = 2;

/// The most blocks of a unit, and stripes of an area.
const MOST_OF_AREA: u32 = 4096;

/// The version of its line.
#[tactic(auto, unfolding(crate::specs::Loose::version_of, crate::specs::Loose::exact_of))]
fn version_of(text: &[u8]) -> Option<u8>
    ensures { result ≡ version_of text.now }
{
    if is_text(text, b"xorscript 1") {
        Some(1)
    } else if is_text(text, b"xorscript 2") {
        Some(2)
    } else {
        None
    }
}

/// The first line.
#[tactic(auto, unfolding(crate::specs::Reading::version_at, crate::specs::Reading::line_at))]
fn version_line(bytes: &[u8]) -> Result<(u8, &[u8]), ScriptFault>
    ensures value { Gives (λ x. (x.0, x.1.now)) result (version_at bytes.now) }
    ensures shorter { IfOk result (λ x. length x.1.now < length bytes.now) }
{
    let (text, rest) = next_line(bytes, 1)?;
    match version_of(text) {
        Some(version) => Ok((version, rest)),
        None => Err(refused(1, Cause::Form)),
    }
}

/// The most targets of an array.
fn most_targets(version: u8) -> u8
    ensures value { result ≡ most_targets version }
    ensures few { result ≤ 32 }
{
    if version == WITH_AREAS { 32 } else { 16 }
}

/// The unit and the stripes of an area, each of which is 2^32 where it is greater.
#[tactic(auto, unfolding(crate::specs::Loose::area_of))]
fn area_text(text: &[u8]) -> Option<(u64, u64)>
    ensures { Reads (λ n. record { unit = n.0; stripes = n.1 }) result (area_of text.now) }
{
    let numbers = strip(text, b"area ")?;
    two_numbers(numbers)
}

/// An area whose numbers are in range.
fn ranged_area(text: &[u8], line: u32) -> Result<Area, ScriptFault>
    ensures value { Gives (λ a. a) result (judged line is_area any (area_of text.now)) }
    ensures range { IfOk result IsArea }
{
    let Some((unit, stripes)) = area_text(text) else {
        return Err(refused(line, Cause::Form));
    };
    let most = u64::from(MOST_OF_AREA);
    if 1 <= unit && unit <= most && 1 <= stripes && stripes <= most {
        Ok(Area {
            unit: unit as u32,
            stripes: stripes as u32,
        })
    } else {
        Err(refused(line, Cause::Range))
    }
}

/// The line of an area.
#[tactic(auto, unfolding(crate::specs::Reading::area_at, crate::specs::Reading::line_at))]
fn area_line(bytes: &[u8], line: u32) -> Result<(Area, &[u8]), ScriptFault>
    ensures value { Gives (λ x. (x.0, x.1.now)) result (area_at line bytes.now) }
    ensures range { IfOk result (λ x. IsArea x.0) }
    ensures shorter { IfOk result (λ x. length x.1.now < length bytes.now) }
{
    let (text, rest) = next_line(bytes, line)?;
    let area = ranged_area(text, line)?;
    Ok((area, rest))
}

/// The lines of so many areas, from line 5 on.
fn area_lines(bytes: &[u8], count: u8) -> Result<(Areas, &[u8]), ScriptFault>
    requires some { 1 ≤ count }
    requires few { count ≤ 8 }
    ensures value { Gives (λ x. (x.0, x.1.now)) result (areas_at count 5 bytes.now) }
    ensures range { IfOk result (λ x. AllByRecursion IsArea x.0) }
    ensures counted { IfOk result (λ x. length x.0 ≡ count) }
    ensures shorter { IfOk result (λ x. length x.1.now + count ≤ length bytes.now) }
{
    let (first, mut rest) = area_line(bytes, 5)?;
    let mut areas = Areas::new(first);
    while areas.len() < count {
        let (area, after) = area_line(rest, 5 + u32::from(areas.len()))?;
        areas.push(area);
        rest = after;
    }
    Ok((areas, rest))
}

/// The one area of version 1.
#[tactic(auto, unfolding(crate::specs::Reading::single_at))]
fn single_area(bytes: &[u8]) -> Result<(Areas, &[u8]), ScriptFault>
    ensures value { Gives (λ x. (x.0, x.1.now)) result (single_at bytes.now) }
    ensures range { IfOk result (λ x. AllByRecursion IsArea x.0) }
    ensures counted { IfOk result (λ x. length x.0 ≡ 1) }
    ensures shorter { IfOk result (λ x. length x.1.now + 2 ≤ length bytes.now) }
{
    let (unit, rest) = number_line(bytes, 4, b"unit ", 1, MOST_OF_AREA)?;
    let (stripes, rest) = number_line(rest, 5, b"stripes ", 1, MOST_OF_AREA)?;
    Ok((Areas::new(Area { unit, stripes }), rest))
}

/// The areas of version 2.
#[tactic(auto, unfolding(crate::specs::Reading::several_at))]
fn several_areas(bytes: &[u8]) -> Result<(Areas, &[u8]), ScriptFault>
    ensures value { Gives (λ x. (x.0, x.1.now)) result (several_at bytes.now) }
    ensures range { IfOk result (λ x. AllByRecursion IsArea x.0) }
    ensures counted { IfOk result (λ x. (1 ≤ length x.0) × (length x.0 ≤ 8)) }
    ensures shorter { IfOk result (λ x. length x.1.now + length x.0 + 1 ≤ length bytes.now) }
{
    let (count, rest) = small_number_line(bytes, 4, b"areas ", 1, 8)?;
    area_lines(rest, count)
}

fn areas_of_version(bytes: &[u8], version: u8) -> Result<(Areas, &[u8]), ScriptFault>
    ensures value { Gives (λ x. (x.0, x.1.now)) result (version_areas_at version bytes.now) }
    ensures range { IfOk result (λ x. AllByRecursion IsArea x.0) }
    ensures counted { IfOk result (λ x. (1 ≤ length x.0) × (length x.0 ≤ 8)) }
    ensures shorter { IfOk result (λ x. length x.1.now + buffer_line version x.0 ≤ length bytes.now + 4) }
{
    if version == WITH_AREAS {
        several_areas(bytes)
    } else {
        single_area(bytes)
    }
}

/// The line behind those of the shape, counted from 1.
pub fn buffer_line(version: u8, areas: &Areas) -> u32
    ensures value { result ≡ buffer_line version areas.now }
    ensures few { result ≤ 13 }
{
    if version == WITH_AREAS {
        5 + u32::from(areas.len())
    } else {
        6
    }
}

/// The version and the shape of the array.
#[tactic(auto, unfolding(crate::specs::Reading::shape_at))]
pub fn shape_lines(bytes: &[u8]) -> Result<(u8, Geometry, &[u8]), ScriptFault>
    ensures value { Gives (λ x. (x.0, x.1, x.2.now)) result (shape_at bytes.now) }
    ensures array { IfOk result (λ x. IsArray x.1) }
    ensures shorter { IfOk result (λ x. length x.2.now + buffer_line x.0 x.1.areas ≤ length bytes.now + 1) }
{
    let (version, rest) = version_line(bytes)?;
    let (targets, rest) = small_number_line(rest, 2, b"targets ", 3, most_targets(version))?;
    let (block, rest) = number_line(rest, 3, b"block ", 1, 4096)?;
    // `?` has no rule of the borrow checker where areas come with a borrowed rest.
    let (areas, rest) = match areas_of_version(rest, version) {
        Ok(read) => read,
        Err(fault) => return Err(fault),
    };
    let geometry = Geometry {
        targets,
        block,
        areas,
    };
    Ok((version, geometry, rest))
}
