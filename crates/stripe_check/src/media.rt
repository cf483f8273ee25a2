//! The media of all targets, as a journal leaves them.

ghost use Rattle.std.specs.Prelude.{◌≡◌, ◌+◌, ◌*◌, ◌≤◌, ◌<◌, ◌==◌, ℕ, [], ◌∷◌, List, length, get_or, OnOk, OnErr, IfOk, reverse, if◌then◌else◌};
ghost use Rattle.blocks_core.specs.Xor.{zeros};
ghost use Rattle.stripe_layout.specs.Layout.{IsArray, rows_of};
ghost use Rattle.array_journal.specs.Media.{medium_after, media};
ghost use Rattle.array_journal.specs.declared.entry.Entry.{Entry};
ghost use Rattle.stripe_check.specs.Folds.{AreMedia};

use crate::medium::ReplayedMedium;
use array_journal::{Entry, Event, Journal, Setting};
use blocks_core::Memory;
use std::alloc::Global;
use stripe_layout::Geometry;

/// How many bytes all rows of a target have.
fn medium_size(geometry: &Geometry) -> usize
    requires { IsArray geometry.now }
    ensures { result ≡ rows_of geometry.now * geometry.now.block }
{
    geometry.rows() as usize * geometry.block as usize
}

/// What an event at a target does to its medium.
pub fn write_event(
    alloc: Global,
    medium: &mut ReplayedMedium,
    setting: &Setting,
    event: &Event,
) -> Result<(), Memory>
    requires { IsArray setting.now.geometry }
    ensures ok { OnOk result (medium.new ≡ medium_after setting.now event.now medium.old) }
    ensures err { OnErr result (medium.new ≡ medium.old) }
{
    let block = setting.geometry.block as usize;
    match event {
        Event::Put { row, bytes, .. } | Event::Diff { row, bytes, .. } => {
            medium.put(*row as usize * block, bytes.as_slice())
        }
        Event::Fold { row, bytes, .. } => medium.fold(*row as usize * block, bytes.as_slice()),
        Event::Fresh { .. } => {
            // The new medium is made first: where memory for it is wanting, the old one stands as it was.
            *medium = ReplayedMedium::zeros(alloc, medium_size(&setting.geometry))?;
            Ok(())
        }
        _ => Ok(()),
    }
}

/// What an entry does to the media: that of lock i + 1 is target i's.
pub fn write_entry(
    alloc: Global,
    media: &mut Vec<ReplayedMedium>,
    setting: &Setting,
    entry: &Entry,
) -> Result<(), Memory>
    requires { IsArray setting.now.geometry }
    ensures ok { OnOk result ((past : List Entry) → AreMedia setting.now past media.old.items → AreMedia setting.now (entry.now ∷ past) media.new.items) }
    ensures err { OnErr result (media.new.items ≡ media.old.items) }
{
    let lock = usize::from(entry.lock);
    // A journal that is no run may name any lock.
    if lock == 0 || lock > media.len() {
        return Ok(());
    }
    write_event(alloc, &mut media[lock - 1], setting, &entry.event)
}

/// The media before any entry.
pub fn first_media(alloc: Global, setting: &Setting) -> Result<Vec<ReplayedMedium>, Memory>
    requires { IsArray setting.now.geometry }
    ensures { IfOk result (λ m. AreMedia setting.now [] m.items) }
{
    let mut media = Vec::new(alloc);
    for _ in 0..setting.geometry.targets {
        media.push(ReplayedMedium::zeros(alloc, medium_size(&setting.geometry))?)?;
    }
    Ok(media)
}

/// The media after all entries of a journal.
pub fn media_of(
    alloc: Global,
    setting: &Setting,
    journal: &Journal,
) -> Result<Vec<ReplayedMedium>, Memory>
    requires { IsArray setting.now.geometry }
    ensures { IfOk result (λ m. AreMedia setting.now (reverse journal.now) m.items) }
{
    let mut media = first_media(alloc, setting)?;
    for entry in journal.as_slice() {
        write_entry(alloc, &mut media, setting, entry)?;
    }
    Ok(media)
}
