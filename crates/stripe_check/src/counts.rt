//! The lines of a report behind the answers.

ghost use Rattle.std.specs.Prelude.{◌≡◌, ◌++◌, OnOk, IfOk, is_some};
ghost use Rattle.dirty_list.specs.Listings.{command_of};
ghost use Rattle.stripe_layout.specs.Layout.{IsArray, stripes_of};
ghost use Rattle.stripe_check.specs.Found.{any_lost, lost_stripes, lost_units, stripe_total, sums_to_zero, is_whole, zero_stripes, listed_count, dirty_briefly, listed_line, listed_lines, lost_lines, counts_line, entries_text};
ghost use Rattle.stripe_check.specs.Reports.{absent_text};

use crate::absent_units::Losses;
use crate::command_summary::{Brief, CommandSummary};
use crate::commands::command_at;
use crate::medium::ReplayedMedium;
use crate::sums::parts_sum;
use blocks_core::{Bytes, Memory, XorSum};
use dirty_list::DirtyList;
use std::alloc::Global;
use stripe_layout::Geometry;
use text_fields::push_counted;

/// Whether some unit of a stripe was lost.
fn is_any_lost(losses: &Losses, targets: u8, stripe: u32) -> bool
    ensures { result ≡ any_lost losses.now.lost.items losses.now.made.items targets stripe }
{
    for target in 0..targets {
        if losses.is_absent(usize::from(target), stripe as usize) {
            return true;
        }
    }
    false
}

/// How many stripes lost a unit.
pub fn count_lost(losses: &Losses, geometry: &Geometry) -> u32
    requires { IsArray geometry.now }
    ensures { result ≡ lost_stripes losses.now.lost.items losses.now.made.items geometry.now.targets (stripes_of geometry.now) }
{
    let mut count = 0;
    for stripe in 0..geometry.stripes() {
        if is_any_lost(losses, geometry.targets, stripe) {
            count += 1;
        }
    }
    count
}

/// The exclusive-or of a stripe's rows over all media.
pub fn stripe_sum(
    alloc: Global,
    geometry: &Geometry,
    media: &[ReplayedMedium],
    stripe: u32,
) -> Result<XorSum, Memory>
    requires { IsArray geometry.now }
    ensures { IfOk result (λ sum. sum ≡ stripe_total geometry.now media.now stripe) }
{
    let block = geometry.block as usize;
    let first = geometry.first_row(stripe) as usize;
    let rows = geometry.unit_rows(stripe) as usize;
    parts_sum(alloc, media, first * block, rows * block)
}

fn is_sum_zero(
    alloc: Global,
    geometry: &Geometry,
    media: &[ReplayedMedium],
    stripe: u32,
) -> Result<bool, Memory>
    requires { IsArray geometry.now }
    ensures { IfOk result (λ zero. zero ≡ sums_to_zero geometry.now media.now stripe) }
{
    let sum = stripe_sum(alloc, geometry, media, stripe)?;
    Ok(sum.is_zero())
}

/// Whether a stripe has all its units, and comes to zero.
fn is_whole(
    alloc: Global,
    geometry: &Geometry,
    media: &[ReplayedMedium],
    losses: &Losses,
    stripe: u32,
) -> Result<bool, Memory>
    requires { IsArray geometry.now }
    ensures { IfOk result (λ whole. whole ≡ is_whole geometry.now media.now losses.now.lost.items losses.now.made.items stripe) }
{
    if is_any_lost(losses, geometry.targets, stripe) {
        return Ok(false);
    }
    is_sum_zero(alloc, geometry, media, stripe)
}

/// How many stripes have all their units and come to zero.
pub fn count_zero(
    alloc: Global,
    geometry: &Geometry,
    media: &[ReplayedMedium],
    losses: &Losses,
) -> Result<u32, Memory>
    requires { IsArray geometry.now }
    ensures { IfOk result (λ n. n ≡ zero_stripes geometry.now media.now losses.now.lost.items losses.now.made.items (stripes_of geometry.now)) }
{
    let mut count = 0;
    for stripe in 0..geometry.stripes() {
        let whole = is_whole(alloc, geometry, media, losses, stripe)?;
        if whole {
            count += 1;
        }
    }
    Ok(count)
}

fn is_listed(listed: &DirtyList, stripe: u32) -> bool
    ensures { result ≡ is_some (command_of stripe listed.now) }
{
    listed.find(stripe).is_some()
}

/// How many stripes are listed.
pub fn count_listed(listed: &DirtyList, stripes: u32) -> u32
    ensures { result ≡ listed_count listed.now stripes }
{
    let mut count = 0;
    for stripe in 0..stripes {
        if is_listed(listed, stripe) {
            count += 1;
        }
    }
    count
}

/// How many units a target lost.
fn count_units(losses: &Losses, target: u8, stripes: u32) -> u32
    ensures { result ≡ lost_units losses.now.lost.items losses.now.made.items stripes target }
{
    let mut count = 0;
    for stripe in 0..stripes {
        if losses.is_absent(usize::from(target), stripe as usize) {
            count += 1;
        }
    }
    count
}

pub fn push_entries(text: &mut Bytes, count: u64) -> Result<(), Memory>
    ensures { OnOk result (text.new ≡ text.old ++ entries_text count) }
{
    push_counted(text, b"entries", count)?;
    text.push(b'\n')
}

pub fn push_counts(
    text: &mut Bytes,
    stripes: u32,
    zero: u32,
    listed: u32,
    absent: u32,
) -> Result<(), Memory>
    ensures { OnOk result (text.new ≡ text.old ++ counts_line stripes zero listed absent) }
{
    push_counted(text, b"stripes", u64::from(stripes))?;
    push_counted(text, b" zero", u64::from(zero))?;
    push_counted(text, b" listed", u64::from(listed))?;
    push_counted(text, b" absent", u64::from(absent))?;
    text.push(b'\n')
}

fn push_dirty(text: &mut Bytes, stripe: u32, brief: &Brief) -> Result<(), Memory>
    ensures { OnOk result (text.new ≡ text.old ++ dirty_briefly stripe (Some brief.now)) }
{
    push_counted(text, b"dirty", u64::from(stripe))?;
    push_counted(text, b" call", u64::from(brief.call))?;
    push_counted(text, b" piece", u64::from(brief.piece))?;
    text.push(b'\n')
}

/// The line of a stripe, if it is listed.
fn push_listed(
    text: &mut Bytes,
    commands: &[CommandSummary],
    stripe: u32,
    listed: Option<u32>,
) -> Result<(), Memory>
    ensures { OnOk result (text.new ≡ text.old ++ listed_line commands.now stripe listed) }
{
    let Some(command) = listed else {
        return Ok(());
    };
    match command_at(commands, command).brief {
        Some(brief) => push_dirty(text, stripe, &brief),
        None => Ok(()),
    }
}

/// The lines of the listed stripes.
pub fn push_all_listed(
    text: &mut Bytes,
    commands: &[CommandSummary],
    listed: &DirtyList,
    stripes: u32,
) -> Result<(), Memory>
    ensures { OnOk result (text.new ≡ text.old ++ listed_lines commands.now listed.now stripes) }
{
    for stripe in 0..stripes {
        push_listed(text, commands, stripe, listed.find(stripe))?;
    }
    Ok(())
}

/// The line of a target, if some of its units are absent.
fn push_absent(text: &mut Bytes, target: u8, units: u32) -> Result<(), Memory>
    ensures { OnOk result (text.new ≡ text.old ++ absent_text target units) }
{
    if units == 0 {
        return Ok(());
    }
    push_counted(text, b"absent", u64::from(target))?;
    push_counted(text, b" units", u64::from(units))?;
    text.push(b'\n')
}

/// The lines of the targets with absent units.
pub fn push_all_absent(text: &mut Bytes, losses: &Losses, geometry: &Geometry) -> Result<(), Memory>
    requires { IsArray geometry.now }
    ensures { OnOk result (text.new ≡ text.old ++ lost_lines losses.now.lost.items losses.now.made.items geometry.now.targets (stripes_of geometry.now)) }
{
    let stripes = geometry.stripes();
    for target in 0..geometry.targets {
        push_absent(text, target, count_units(losses, target, stripes))?;
    }
    Ok(())
}
