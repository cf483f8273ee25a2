//! Reports and summaries.

ghost use Rattle.std.specs.Prelude.{◌≡◌, ◌++◌, ◌+◌, ◌<◌, [], ◌∷◌, None, Option, List, get_or, length, reverse, OnOk, IfOk};
ghost use Rattle.std.specs.List.{AllByRecursion};
ghost use Rattle.stripe_layout.specs.Layout.{IsArray};
ghost use Rattle.array_journal.specs.declared.setting.Setting.{Setting};
ghost use Rattle.host_scripts.specs.declared.script.Call.{Call};
ghost use Rattle.host_scripts.specs.Scripts.{IsScript};
ghost use Rattle.stripe_check.specs.Findings.{IsFound};
ghost use Rattle.stripe_check.specs.Found.{summary_found, replies_found};
ghost use Rattle.host_requests.specs.Settings.{setting_of};
ghost use Rattle.stripe_check.specs.Reports.{summary_of, report_of};
ghost use Rattle.stripe_check.specs.Sums.{sum_of};
ghost use Rattle.stripe_check.specs.Tallies.{untold};

use crate::absent_units::{Losses, losses_of};
use crate::call_outcomes::{Story, story_of};
use crate::command_summary::Tally;
use crate::counts::{
    count_listed, count_lost, count_zero, push_all_absent, push_all_listed, push_counts,
    push_entries, stripe_sum,
};
use crate::failure::Failure;
use crate::media::media_of;
use crate::medium::ReplayedMedium;
use crate::reply::push_reply;
use array_journal::{Journal, Setting};
use blocks_core::{Bytes, Memory};
use host_requests::setting_of;
use host_scripts::{Call, Script};
use std::alloc::Global;
use stripe_layout::{Geometry, Mode};

/// What a report needs of a journal.
#[derive(Drop)]
struct Findings {
    media: Vec<ReplayedMedium>,
    story: Story,
    losses: Losses,
}

/// What a journal says of so many calls.
fn found_in(
    alloc: Global,
    setting: &Setting,
    calls: usize,
    journal: &Journal,
) -> Result<Findings, Memory>
    requires { IsArray setting.now.geometry }
    ensures { IfOk result (λ f. IsFound setting.now calls (reverse journal.now) f.media.items f.story f.losses) }
{
    let media = media_of(alloc, setting, journal)?;
    let story = story_of(alloc, calls, journal)?;
    let losses = losses_of(alloc, &setting.geometry, &story.commands, journal)?;
    Ok(Findings {
        media,
        story,
        losses,
    })
}

/// What a call was told, by its place.
fn read_at(reads: &[Bytes], place: usize) -> &[u8]
    ensures { result.now ≡ get_or reads.now place [] }
{
    match reads.get(place) {
        Some(bytes) => bytes.as_slice(),
        None => &[],
    }
}

/// Why a call failed, by its place.
fn failure_at(failures: &[Option<Failure>], place: usize) -> Option<Failure>
    ensures { result ≡ get_or failures.now place None }
{
    match failures.get(place) {
        Some(failure) => *failure,
        None => None,
    }
}

/// The tally of a call, by its place.
fn tally_at(tallies: &[Tally], place: usize) -> Tally
    ensures { result ≡ get_or tallies.now place untold }
{
    match tallies.get(place) {
        Some(tally) => *tally,
        None => Tally { done: 0, left: 0 },
    }
}

fn push_replies(text: &mut Bytes, calls: &[Call], story: &Story) -> Result<(), Memory>
    requires { AllByRecursion (λ (call : Call). call.host < 26) calls.now }
    ensures { OnOk result (text.new ≡ text.old ++ replies_found story.now.reads.items story.now.failures.items story.now.tallies.items 0 calls.now) }
{
    for (place, call) in calls.iter().enumerate() {
        let failure = failure_at(&story.failures, place);
        let tally = tally_at(&story.tallies, place);
        push_reply(
            text,
            place as u64 + 1,
            call,
            read_at(&story.reads, place),
            &failure,
            &tally,
        )?;
    }
    Ok(())
}

/// The lines behind the answers, over a journal of so many entries.
fn push_summary(
    alloc: Global,
    text: &mut Bytes,
    setting: &Setting,
    entries: usize,
    found: &Findings,
) -> Result<(), Memory>
    requires { IsArray setting.now.geometry }
    ensures { OnOk result (text.new ≡ text.old ++ summary_found setting.now.geometry entries found.now.media.items found.now.story.commands.items found.now.story.listed found.now.losses.lost.items found.now.losses.made.items) }
{
    let geometry = &setting.geometry;
    let zero = count_zero(alloc, geometry, &found.media, &found.losses)?;
    let listed = count_listed(&found.story.listed, geometry.stripes());
    let absent = count_lost(&found.losses, geometry);
    push_entries(text, entries as u64)?;
    push_counts(text, geometry.stripes(), zero, listed, absent)?;
    push_all_listed(
        text,
        &found.story.commands,
        &found.story.listed,
        geometry.stripes(),
    )?;
    push_all_absent(text, &found.losses, geometry)
}

/// What the hosts of a script were answered, a line for each call, and what a journal leaves: how many
/// entries it has, how many stripes come to zero over all targets, are listed and have lost a unit,
/// then the listed stripes and the targets with lost units.
pub fn report(alloc: Global, script: &Script, journal: &Journal) -> Result<Bytes, Memory>
    requires { IsScript script.now }
    ensures { IfOk result (λ text. text ≡ report_of script.now journal.now) }
{
    let setting = setting_of(script);
    let found = found_in(alloc, &setting, script.calls.len(), journal)?;
    let mut text = Bytes::new(alloc);
    push_replies(&mut text, script.calls.as_slice(), &found.story)?;
    push_summary(alloc, &mut text, &setting, journal.len(), &found)?;
    Ok(text)
}

/// The lines of a report behind the answers. Nothing of the single calls is looked at.
pub fn summary(alloc: Global, script: &Script, journal: &Journal) -> Result<Bytes, Memory>
    requires { IsScript script.now }
    ensures { IfOk result (λ text. text ≡ summary_of script.now journal.now) }
{
    let setting = setting_of(script);
    let found = found_in(alloc, &setting, 0, journal)?;
    let mut text = Bytes::new(alloc);
    push_summary(alloc, &mut text, &setting, journal.len(), &found)?;
    Ok(text)
}

/// The exclusive-or of a stripe's rows over all targets, as a journal leaves them: as many bytes as a
/// unit has.
pub fn sum(
    alloc: Global,
    journal: &Journal,
    geometry: &Geometry,
    stripe: u32,
) -> Result<Bytes, Memory>
    requires { IsArray geometry.now }
    ensures { IfOk result (λ bytes. (s : Setting) → s.geometry ≡ geometry.now → bytes ≡ sum_of s (reverse journal.now) stripe) }
{
    // Media don't hang on buffer or mode: any setting of this shape gives the same sum, which is what the
    // clause says.
    let setting = Setting {
        geometry: *geometry,
        buffer: geometry.greatest_unit(),
        mode: Mode::Supervised,
    };
    let media = media_of(alloc, &setting, journal)?;
    Ok(stripe_sum(alloc, geometry, &media, stripe)?.into_bytes())
}
