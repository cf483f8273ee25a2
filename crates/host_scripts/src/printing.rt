//! The text of a script. Each function puts one part of the grammar at the end of a text; its clause names
//! the part.

ghost use Rattle.std.specs.Prelude.{◌≡◌, ◌<◌, ◌≤◌, ◌++◌, ◌∷◌, [], ℕ, All, OnOk, IfOk, codes, get_or, map, length};
ghost use Rattle.std.specs.List.{flat_map};
ghost use Rattle.text_fields.specs.Spelling.{line, numeral, hex, hex_or_dash};
ghost use Rattle.host_scripts.specs.Scripts.{letter, maxima_text, mode_text, version_text, area_text, single_texts, several_texts, areas_texts, shape_texts, start_texts, order_texts, action_text, call_text, spelling, IsScript, SpellsScript};

use crate::modes::mode_text;
use crate::script::{Action, Call, Script};
use crate::shape::WITH_AREAS;
use blocks_core::{Bytes, Memory};
use std::alloc::Global;
use stripe_layout::{Area, Areas, Geometry, Mode};
use text_fields::{push_data, push_hex};

fn push_number(text: &mut Bytes, number: u32) -> Result<(), Memory>
    ensures { OnOk result (text.new ≡ text.old ++ numeral number) }
{
    text_fields::push_number(text, u64::from(number))
}

fn push_numbered(text: &mut Bytes, keyword: &[u8], number: u32) -> Result<(), Memory>
    ensures { OnOk result (text.new ≡ text.old ++ (keyword.now ++ numeral number)) }
{
    text.push_slice(keyword)?;
    push_number(text, number)
}

fn push_number_line(text: &mut Bytes, keyword: &[u8], number: u32) -> Result<(), Memory>
    ensures { OnOk result (text.new ≡ text.old ++ line (keyword.now ++ numeral number)) }
{
    push_numbered(text, keyword, number)?;
    text.push(b'\n')
}

fn push_two(text: &mut Bytes, keyword: &[u8], first: u32, second: u32) -> Result<(), Memory>
    ensures { OnOk result (text.new ≡ text.old ++ (keyword.now ++ (numeral first ++ 32 ∷ numeral second))) }
{
    push_numbered(text, keyword, first)?;
    text.push(b' ')?;
    push_number(text, second)
}

/// What stands behind a host's letter where it writes bytes.
fn push_write(text: &mut Bytes, lba: u32, bytes: &[u8]) -> Result<(), Memory>
    ensures { OnOk result (text.new ≡ text.old ++ (codes "write " ++ (numeral lba ++ 32 ∷ hex_or_dash bytes.now))) }
{
    push_numbered(text, b"write ", lba)?;
    text.push(b' ')?;
    push_data(text, bytes)
}

/// The same where it fills blocks with a byte.
fn push_fill(text: &mut Bytes, lba: u32, count: u32, byte: u8) -> Result<(), Memory>
    ensures { OnOk result (text.new ≡ text.old ++ (codes "fill " ++ (numeral lba ++ 32 ∷ (numeral count ++ 32 ∷ hex (byte ∷ []))))) }
{
    push_two(text, b"fill ", lba, count)?;
    text.push(b' ')?;
    push_hex(text, &[byte])
}

/// The same of a command descriptor block and its data.
fn push_raw(text: &mut Bytes, cdb: &[u8], bytes: &[u8]) -> Result<(), Memory>
    ensures { OnOk result (text.new ≡ text.old ++ (codes "cdb " ++ (hex cdb.now ++ 32 ∷ hex_or_dash bytes.now))) }
{
    text.push_slice(b"cdb ")?;
    push_hex(text, cdb)?;
    text.push(b' ')?;
    push_data(text, bytes)
}

/// What a host asks.
fn push_action(text: &mut Bytes, action: &Action) -> Result<(), Memory>
    ensures { OnOk result (text.new ≡ text.old ++ action_text action.now) }
{
    match action {
        Action::Read { lba, count } => push_two(text, b"read ", *lba, u32::from(*count)),
        Action::Write { lba, bytes } => push_write(text, *lba, bytes.as_slice()),
        Action::Fill { lba, count, byte } => push_fill(text, *lba, u32::from(*count), *byte),
        Action::Raw { cdb, bytes } => push_raw(text, cdb.as_slice(), bytes.as_slice()),
        Action::Lose { target } => push_numbered(text, b"lose ", u32::from(*target)),
        Action::Reset { target } => push_numbered(text, b"reset ", u32::from(*target)),
        Action::DropNext { target } => push_numbered(text, b"drop ", u32::from(*target)),
        Action::Replace { target } => push_numbered(text, b"replace ", u32::from(*target)),
        Action::Rebuild { target } => push_numbered(text, b"rebuild ", u32::from(*target)),
        Action::Resync => text.push_slice(b"resync"),
    }
}

fn push_call(text: &mut Bytes, call: &Call) -> Result<(), Memory>
    requires { call.now.host < 26 }
    ensures { OnOk result (text.new ≡ text.old ++ line (call_text call.now)) }
{
    text.push(b'A' + call.host)?;
    text.push(b' ')?;
    push_action(text, &call.action)?;
    text.push(b'\n')
}

fn push_calls(text: &mut Bytes, calls: &[Call]) -> Result<(), Memory>
    requires { All (λ call. call.host < 26) calls.now }
    ensures { OnOk result (text.new ≡ text.old ++ flat_map line (map call_text calls.now)) }
{
    for call in calls {
        push_call(text, call)?;
    }
    Ok(())
}

fn push_letters(text: &mut Bytes, hosts: &[u8]) -> Result<(), Memory>
    requires { All (λ host. host < 26) hosts.now }
    ensures { OnOk result (text.new ≡ text.old ++ map letter hosts.now) }
{
    for host in hosts {
        text.push(b'A' + *host)?;
    }
    Ok(())
}

/// The line of the first turns, where there are some.
fn push_order(text: &mut Bytes, hosts: &[u8]) -> Result<(), Memory>
    requires { All (λ host. host < 26) hosts.now }
    ensures { OnOk result (text.new ≡ text.old ++ flat_map line (order_texts hosts.now)) }
{
    if hosts.is_empty() {
        return Ok(());
    }
    text.push_slice(b"order ")?;
    push_letters(text, hosts)?;
    text.push(b'\n')
}

fn push_version(text: &mut Bytes, version: u8) -> Result<(), Memory>
    ensures { OnOk result (text.new ≡ text.old ++ line (version_text version)) }
{
    if version == WITH_AREAS {
        text.push_slice(b"xorscript 2\n")
    } else {
        text.push_slice(b"xorscript 1\n")
    }
}

/// The one area of version 1.
fn push_single(text: &mut Bytes, areas: &[Area]) -> Result<(), Memory>
    ensures { OnOk result (text.new ≡ text.old ++ flat_map line (single_texts areas.now)) }
{
    match areas {
        [] => Ok(()),
        [area, ..] => {
            push_number_line(text, b"unit ", area.unit)?;
            push_number_line(text, b"stripes ", area.stripes)
        }
    }
}

fn push_area(text: &mut Bytes, area: &Area) -> Result<(), Memory>
    ensures { OnOk result (text.new ≡ text.old ++ line (area_text area.now)) }
{
    push_two(text, b"area ", area.unit, area.stripes)?;
    text.push(b'\n')
}

fn push_each_area(text: &mut Bytes, areas: &[Area]) -> Result<(), Memory>
    ensures { OnOk result (text.new ≡ text.old ++ flat_map line (map area_text areas.now)) }
{
    for area in areas {
        push_area(text, area)?;
    }
    Ok(())
}

/// The areas of either version.
fn push_areas(text: &mut Bytes, version: u8, areas: &Areas) -> Result<(), Memory>
    ensures { OnOk result (text.new ≡ text.old ++ flat_map line (areas_texts version areas.now)) }
{
    if version == WITH_AREAS {
        push_number_line(text, b"areas ", u32::from(areas.len()))?;
        push_each_area(text, areas.as_slice())
    } else {
        push_single(text, areas.as_slice())
    }
}

/// The lines of the version and of the array's shape.
fn push_shape(text: &mut Bytes, version: u8, geometry: &Geometry) -> Result<(), Memory>
    ensures { OnOk result (text.new ≡ text.old ++ flat_map line (shape_texts version geometry.now)) }
{
    push_version(text, version)?;
    push_number_line(text, b"targets ", u32::from(geometry.targets))?;
    push_number_line(text, b"block ", geometry.block)?;
    push_areas(text, version, &geometry.areas)
}

fn push_maxima(text: &mut Bytes, maxima: &[u32; 3]) -> Result<(), Memory>
    ensures { OnOk result (text.new ≡ text.old ++ line (maxima_text (get_or maxima.now 0 0) (get_or maxima.now 1 0) (get_or maxima.now 2 0))) }
{
    push_two(text, b"maxima ", maxima[0], maxima[1])?;
    text.push(b' ')?;
    push_number(text, maxima[2])?;
    text.push(b'\n')
}

fn push_mode(text: &mut Bytes, mode: Mode) -> Result<(), Memory>
    ensures { OnOk result (text.new ≡ text.old ++ line (mode_text mode)) }
{
    text.push_slice(mode_text(mode))?;
    text.push(b'\n')
}

/// The lines of what each target starts with, and of how the hosts run.
fn push_starts(text: &mut Bytes, script: &Script) -> Result<(), Memory>
    ensures { OnOk result (text.new ≡ text.old ++ flat_map line (start_texts script.now)) }
{
    push_number_line(text, b"buffer ", script.buffer)?;
    push_maxima(text, &script.maxima)?;
    push_mode(text, script.mode)?;
    push_number_line(text, b"seed ", script.seed)?;
    push_number_line(text, b"hosts ", u32::from(script.hosts))
}

/// The one spelling of a script, which `parse` reads again.
pub fn print(alloc: Global, script: &Script) -> Result<Bytes, Memory>
    requires { IsScript script.now }
    ensures spelling { IfOk result (λ text. text ≡ spelling script.now) }
    ensures again { IfOk result (λ text. SpellsScript text script.now) }
{
    let mut text = Bytes::new(alloc);
    push_shape(&mut text, script.version, &script.geometry)?;
    push_starts(&mut text, script)?;
    push_order(&mut text, script.order.as_slice())?;
    push_calls(&mut text, script.calls.as_slice())?;
    Ok(text)
}
