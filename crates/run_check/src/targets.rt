//! What the targets hold, as a journal leaves them.

ghost use Rattle.std.specs.Prelude.{[], ◌∷◌, List, OnOk, IfOk};
ghost use Rattle.array_journal.specs.declared.entry.Entry.{Entry};
ghost use Rattle.array_journal.specs.May.{May};
ghost use Rattle.array_journal.specs.Run.{IsSetting};
ghost use Rattle.run_check.specs.TargetStates.{AreStates};

use crate::buffers::{first_buffers, hold_entry};
use crate::deltas::SentDeltas;
use array_journal::{Entry, Setting};
use blocks_core::Memory;
use std::alloc::Global;
use stripe_check::{ReplayedMedium, first_media, write_entry};
use xor_buffers::HeldList;

/// What one target holds, and the deltas that left all of them.
#[derive(Clone, Copy)]
pub struct TargetState<'a> {
    pub number: usize,
    pub medium: &'a ReplayedMedium,
    pub buffer: &'a HeldList,
    pub deltas: &'a SentDeltas,
}

/// The media and the buffers of all targets in their order, and the deltas that left them.
#[derive(Drop)]
pub struct TargetStates {
    pub media: Vec<ReplayedMedium>,
    pub buffers: Vec<HeldList>,
    pub deltas: SentDeltas,
}

impl TargetStates {
    /// Those before any entry.
    pub fn new(alloc: Global, setting: &Setting) -> Result<TargetStates, Memory>
        requires { IsSetting setting.now }
        ensures { IfOk result (λ states. AreStates setting.now [] states) }
    {
        let media = first_media(alloc, setting)?;
        let buffers = first_buffers(alloc, setting)?;
        let deltas = SentDeltas::new(alloc);
        Ok(TargetStates {
            media,
            buffers,
            deltas,
        })
    }

    /// Does what one more entry does. The media are written last, since what a diff leaves behind hangs on what
    /// stood there before it.
    pub fn apply(&mut self, alloc: Global, setting: &Setting, entry: &Entry) -> Result<(), Memory>
        requires { IsSetting setting.now }
        ensures { OnOk result ((past : List Entry) → May setting.now past entry.now → AreStates setting.now past self.old → AreStates setting.now (entry.now ∷ past) self.new) }
    {
        let before = self.media.as_slice();
        self.deltas.add(alloc, setting, before, entry)?;
        hold_entry(alloc, setting, before, &mut self.buffers, entry)?;
        write_entry(alloc, &mut self.media, setting, entry)?;
        Ok(())
    }
}
