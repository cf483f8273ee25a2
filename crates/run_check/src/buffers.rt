//! What the buffers of the targets hold, as a journal leaves them.

ghost use Rattle.std.specs.Prelude.{◌≡◌, ◌*◌, ◌∷◌, [], List, OnOk, IfOk};
ghost use Rattle.stripe_layout.specs.Layout.{IsArray};
ghost use Rattle.array_journal.specs.declared.entry.Entry.{Entry};
ghost use Rattle.xor_buffers.specs.Held.{take_rows};
ghost use Rattle.array_journal.specs.Media.{held_after};
ghost use Rattle.stripe_check.specs.Folds.{AreMedia};
ghost use Rattle.run_check.specs.Buffers.{AreBuffers};

use crate::deltas::delta_of;
use array_journal::{Entry, Event, Setting, What};
use blocks_core::Memory;
use std::alloc::Global;
use stripe_check::ReplayedMedium;
use xor_buffers::{HeldList, Rows};

/// Takes a command's rows out of a buffer.
fn take_rows(
    alloc: Global,
    setting: &Setting,
    buffer: &mut HeldList,
    row: u32,
    len: usize,
) -> Result<(), Memory>
    requires { IsArray setting.now.geometry }
    ensures { OnOk result (buffer.new ≡ take_rows setting.now.geometry.block row len buffer.old) }
{
    let rows = Rows {
        row,
        len,
        block: setting.geometry.block,
    };
    buffer.take(alloc, rows)
}

/// What an event at a target does to its buffer, over the medium before it.
fn hold_event(
    alloc: Global,
    setting: &Setting,
    medium: &ReplayedMedium,
    buffer: &mut HeldList,
    event: &Event,
) -> Result<(), Memory>
    requires { IsArray setting.now.geometry }
    ensures { OnOk result (buffer.new ≡ held_after setting.now medium.now event.now buffer.old) }
{
    match event {
        Event::Diff {
            command,
            row,
            bytes,
            sent: false,
            back: false,
            ..
        } => {
            let delta = delta_of(alloc, setting, medium, *row, bytes.as_slice())?;
            buffer.hold(*command, *row, delta)
        }
        Event::Hold {
            command,
            row,
            bytes,
            kept: true,
            ..
        } => {
            let held = bytes.copy(alloc)?;
            buffer.hold(*command, *row, held)
        }
        Event::Take { row, bytes, .. } => take_rows(alloc, setting, buffer, *row, bytes.len()),
        Event::Shut { command, .. } => {
            buffer.wipe_owner(*command);
            Ok(())
        }
        Event::Gone { .. }
        | Event::Wiped {
            what: What::Buffers,
            ..
        }
        | Event::Fresh { .. } => {
            buffer.wipe();
            Ok(())
        }
        _ => Ok(()),
    }
}

/// What an entry does to the buffers, over the media before it: that of lock i + 1 is target i's.
pub fn hold_entry(
    alloc: Global,
    setting: &Setting,
    media: &[ReplayedMedium],
    buffers: &mut Vec<HeldList>,
    entry: &Entry,
) -> Result<(), Memory>
    requires { IsArray setting.now.geometry }
    ensures { OnOk result ((past : List Entry) → AreMedia setting.now past media.now → AreBuffers setting.now past buffers.old.items → AreBuffers setting.now (entry.now ∷ past) buffers.new.items) }
{
    let lock = usize::from(entry.lock);
    // A journal that is no run may name any lock.
    if lock == 0 || lock > buffers.len() || lock > media.len() {
        return Ok(());
    }
    hold_event(
        alloc,
        setting,
        &media[lock - 1],
        &mut buffers[lock - 1],
        &entry.event,
    )
}

/// The buffers before any entry.
pub fn first_buffers(alloc: Global, setting: &Setting) -> Result<Vec<HeldList>, Memory>
    ensures { IfOk result (λ b. AreBuffers setting.now [] b.items) }
{
    let mut buffers = Vec::new(alloc);
    for _ in 0..setting.geometry.targets {
        buffers.push(HeldList::new(alloc))?;
    }
    Ok(buffers)
}
