//! What a call line asks, behind its host's letter.

ghost use Rattle.std.specs.Prelude.{◌≡◌, ◌<◌, ◌==◌, ◌&&◌, nat_le, ◌*◌, ◌%◌, ◌≤◌, length};
ghost use Rattle.host_scripts.specs.declared.script.Action.TheVariants as actions;
ghost use Rattle.text_fields.specs.Reading.{Reads};
ghost use Rattle.host_scripts.specs.Loose.{operation_at, raw_parts_of, read_of, write_of, fill_of, raw_of, target_of, on_target, operator_of, action_of};
ghost use Rattle.host_scripts.specs.Reading.{Gives, judged, is_ranged, is_sized};

use crate::numbers::{addressed, numeral, two_numbers};
use crate::raw_parts::raw_parts;
use crate::script::{Action, Cause, ScriptFault, refused};
use std::alloc::Global;
use stripe_layout::Geometry;
use text_fields::{data_bytes, is_text, one_byte, strip};

/// What an operator does to one target.
#[derive(Clone, Copy)]
pub enum Operation {
    Losing,
    Resetting,
    Dropping,
    Replacing,
    Rebuilding,
}

#[tactic(auto, unfolding(crate::specs::Loose::read_of))]
fn read_action(geometry: &Geometry, line: u32, text: &[u8]) -> Result<Action, ScriptFault>
    ensures { Gives (λ a. a) result (judged line (is_ranged geometry.now) (is_sized geometry.now) (read_of text.now)) }
{
    let Some((lba, count)) = two_numbers(text) else {
        return Err(refused(line, Cause::Form));
    };
    if lba <= 4_294_967_295 && count <= 65535 {
        Ok(Action::Read {
            lba: lba as u32,
            count: count as u16,
        })
    } else {
        Err(refused(line, Cause::Range))
    }
}

/// Whether so many bytes are at most 65535 whole blocks.
fn are_blocks(block: u32, bytes: usize) -> bool
    requires { 1 ≤ block }
    ensures { result ≡ ((bytes % block == 0) && nat_le bytes (65535 * block)) }
{
    let size = block as usize;
    bytes % size == 0 && bytes <= 65535 * size
}

/// What stands behind `write `. Causes are tested in the order of `Cause`, form, range and size: so the
/// bytes are read before the number is judged.
#[tactic(auto, unfolding(crate::specs::Loose::write_of))]
fn write_action(
    alloc: Global,
    geometry: &Geometry,
    line: u32,
    text: &[u8],
) -> Result<Action, ScriptFault>
    requires { 1 ≤ geometry.now.block }
    ensures { Gives (λ a. a) result (judged line (is_ranged geometry.now) (is_sized geometry.now) (write_of text.now)) }
{
    let Some((lba, behind)) = addressed(text) else {
        return Err(refused(line, Cause::Form));
    };
    let Some(bytes) = data_bytes(alloc, behind)? else {
        return Err(refused(line, Cause::Form));
    };
    if lba > 4_294_967_295 {
        return Err(refused(line, Cause::Range));
    }
    if are_blocks(geometry.block, bytes.len()) {
        Ok(Action::Write {
            lba: lba as u32,
            bytes,
        })
    } else {
        Err(refused(line, Cause::Size))
    }
}

/// A number, another number and a byte.
#[tactic(auto, unfolding(crate::specs::Loose::fill_of))]
fn fill_numbers(text: &[u8]) -> Option<(u64, u64, u8)>
    ensures { Reads (λ x. actions.Fill x.0 x.1 x.2) result (fill_of text.now) }
{
    let (lba, rest) = addressed(text)?;
    let (count, rest) = addressed(rest)?;
    let byte = one_byte(rest)?;
    Some((lba, count, byte))
}

fn fill_action(geometry: &Geometry, line: u32, text: &[u8]) -> Result<Action, ScriptFault>
    ensures { Gives (λ a. a) result (judged line (is_ranged geometry.now) (is_sized geometry.now) (fill_of text.now)) }
{
    let Some((lba, count, byte)) = fill_numbers(text) else {
        return Err(refused(line, Cause::Form));
    };
    if lba <= 4_294_967_295 && count <= 65535 {
        Ok(Action::Fill {
            lba: lba as u32,
            count: count as u16,
            byte,
        })
    } else {
        Err(refused(line, Cause::Range))
    }
}

/// What stands behind `cdb `.
#[tactic(auto, unfolding(crate::specs::Loose::raw_of))]
fn raw_action(
    alloc: Global,
    geometry: &Geometry,
    line: u32,
    text: &[u8],
) -> Result<Action, ScriptFault>
    ensures { Gives (λ a. a) result (judged line (is_ranged geometry.now) (is_sized geometry.now) (raw_of text.now)) }
{
    let (cdb, bytes) = raw_parts(alloc, line, text)?;
    Ok(Action::Raw { cdb, bytes })
}

/// The action of an operation on a target.
fn operation_on(operation: Operation, target: u8) -> Action
    ensures { result ≡ on_target operation target }
{
    match operation {
        Operation::Losing => Action::Lose { target },
        Operation::Resetting => Action::Reset { target },
        Operation::Dropping => Action::DropNext { target },
        Operation::Replacing => Action::Replace { target },
        Operation::Rebuilding => Action::Rebuild { target },
    }
}

/// A target, behind the word of an operation.
#[tactic(auto, unfolding(crate::specs::Loose::target_of))]
fn target_action(
    geometry: &Geometry,
    line: u32,
    operation: Operation,
    text: &[u8],
) -> Result<Action, ScriptFault>
    ensures { Gives (λ a. a) result (judged line (is_ranged geometry.now) (is_sized geometry.now) (target_of operation text.now)) }
{
    match numeral(text) {
        None => Err(refused(line, Cause::Form)),
        Some(target) if target < u64::from(geometry.targets) => {
            Ok(operation_on(operation, target as u8))
        }
        Some(_) => Err(refused(line, Cause::Range)),
    }
}

/// The operation that a text begins with, and what stands behind its word.
#[tactic(auto, unfolding(crate::specs::Loose::operation_at))]
fn operation_of(text: &[u8]) -> Option<(Operation, &[u8])>
    ensures { Reads (λ x. (x.0, x.1.now)) result (operation_at text.now) }
{
    if let Some(rest) = strip(text, b"lose ") {
        return Some((Operation::Losing, rest));
    }
    if let Some(rest) = strip(text, b"reset ") {
        return Some((Operation::Resetting, rest));
    }
    if let Some(rest) = strip(text, b"drop ") {
        return Some((Operation::Dropping, rest));
    }
    if let Some(rest) = strip(text, b"replace ") {
        return Some((Operation::Replacing, rest));
    }
    let rest = strip(text, b"rebuild ")?;
    Some((Operation::Rebuilding, rest))
}

/// What an operator asks.
#[tactic(auto, unfolding(crate::specs::Loose::operator_of, crate::specs::Loose::exact_of))]
fn operator_action(geometry: &Geometry, line: u32, text: &[u8]) -> Result<Action, ScriptFault>
    ensures { Gives (λ a. a) result (judged line (is_ranged geometry.now) (is_sized geometry.now) (operator_of text.now)) }
{
    if let Some((operation, rest)) = operation_of(text) {
        return target_action(geometry, line, operation, rest);
    }
    if is_text(text, b"resync") {
        Ok(Action::Resync)
    } else {
        Err(refused(line, Cause::Form))
    }
}

/// What a host asks, or else an operator.
#[tactic(auto, unfolding(crate::specs::Loose::action_of))]
pub fn action(
    alloc: Global,
    geometry: &Geometry,
    line: u32,
    text: &[u8],
) -> Result<Action, ScriptFault>
    requires { 1 ≤ geometry.now.block }
    ensures { Gives (λ a. a) result (judged line (is_ranged geometry.now) (is_sized geometry.now) (action_of text.now)) }
{
    if let Some(text) = strip(text, b"read ") {
        return read_action(geometry, line, text);
    }
    if let Some(text) = strip(text, b"write ") {
        return write_action(alloc, geometry, line, text);
    }
    if let Some(text) = strip(text, b"fill ") {
        return fill_action(geometry, line, text);
    }
    if let Some(text) = strip(text, b"cdb ") {
        return raw_action(alloc, geometry, line, text);
    }
    operator_action(geometry, line, text)
}
