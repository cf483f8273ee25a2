//! The deltas that left their targets.

ghost use Rattle.std.specs.Prelude.{◌≡◌, ◌+◌, ◌*◌, ◌<◌, ◌≤◌, [], ◌∷◌, ℕ, List, true, OnOk, IfOk, Some, length, option_map, if◌then◌else◌};
ghost use Rattle.array_journal.specs.declared.at.At.{At};
ghost use Rattle.array_journal.specs.Entries.{name_of, same_at};
ghost use Rattle.blocks_core.specs.Xor.{xor};
ghost use Rattle.array_journal.specs.declared.entry.Entry.{Entry};
ghost use Rattle.array_journal.specs.declared.setting.Setting.{Setting};
ghost use Rattle.array_journal.specs.Deltas.{delta_of, delta_in};
ghost use Rattle.blocks_core.specs.Lists.{slice};
ghost use Rattle.stripe_check.specs.Folds.{AreMedia};
ghost use Rattle.run_check.specs.SentDeltas.{sends_away, kept_delta, first_of, KeepsDeltas};

use crate::act::byte_of;
use array_journal::{At, Entry, Event, Setting};
use blocks_core::{Bytes, Memory, XorSum};
use std::alloc::Global;
use std::collections::BTreeMap;
use stripe_check::ReplayedMedium;

/// The deltas that diffs sent or handed back, by the stamps and locks of the diffs. Each is kept when its
/// diff is read: once later entries have written over the medium, what stood there before the diff could
/// only be found by reading the journal from its beginning.
#[derive(Debug, Drop)]
pub struct SentDeltas {
    kept: BTreeMap<(u64, u8), Bytes>,
}

/// The exclusive-or of what stands on a medium from a row on, and bytes.
pub fn delta_of(
    alloc: Global,
    setting: &Setting,
    medium: &ReplayedMedium,
    row: u32,
    bytes: &[u8],
) -> Result<Bytes, Memory>
    ensures { IfOk result (λ delta. delta ≡ xor (slice medium.now (row * setting.now.geometry.block) (length bytes.now)) bytes.now) }
{
    let old = medium.part(byte_of(setting, row), bytes.len());
    let mut delta = XorSum::new(alloc, 0)?;
    delta.add(old)?;
    delta.add(bytes)?;
    Ok(delta.into_bytes())
}

/// The delta of bytes written under a lock from a row on, if it is that of a target.
fn delta_under(
    alloc: Global,
    setting: &Setting,
    media: &[ReplayedMedium],
    lock: u8,
    row: u32,
    bytes: &[u8],
) -> Result<Option<Bytes>, Memory>
    ensures { IfOk result (λ delta. (i : ℕ) (past : List Entry) → AreMedia setting.now past media.now → lock ≡ i + 1 → i < setting.now.geometry.targets
        → delta ≡ Some (delta_of setting.now i past row bytes.now)) }
{
    let lock = usize::from(lock);
    if lock == 0 || lock > media.len() {
        return Ok(None);
    }
    let delta = delta_of(alloc, setting, &media[lock - 1], row, bytes)?;
    Ok(Some(delta))
}

/// The delta of an entry that is a diff and sent it or handed it back, over the media before the entry.
fn sent_delta(
    alloc: Global,
    setting: &Setting,
    media: &[ReplayedMedium],
    entry: &Entry,
) -> Result<Option<Bytes>, Memory>
    ensures { IfOk result (λ delta. (i : ℕ) (past : List Entry) → AreMedia setting.now past media.now → entry.now.lock ≡ i + 1 → i < setting.now.geometry.targets
        → sends_away entry.now.event ≡ true → delta ≡ delta_in setting.now i past entry.now.event) }
{
    match &entry.event {
        Event::Diff {
            row,
            bytes,
            sent,
            back,
            ..
        } => {
            if !*sent && !*back {
                return Ok(None);
            }
            delta_under(alloc, setting, media, entry.lock, *row, bytes.as_slice())
        }
        _ => Ok(None),
    }
}

impl SentDeltas {
    /// Those of no entries. Takes no memory.
    pub fn new(alloc: Global) -> SentDeltas
        ensures { (s : Setting) → KeepsDeltas s [] result }
    {
        SentDeltas {
            kept: BTreeMap::new(alloc),
        }
    }

    /// Takes one more entry in, over the media before it.
    pub fn add(
        &mut self,
        alloc: Global,
        setting: &Setting,
        media: &[ReplayedMedium],
        entry: &Entry,
    ) -> Result<(), Memory>
        ensures { OnOk result ((past : List Entry) → entry.now.lock ≤ setting.now.geometry.targets → AreMedia setting.now past media.now
            → KeepsDeltas setting.now past self.old → KeepsDeltas setting.now (entry.now ∷ past) self.new) }
    {
        let sent = sent_delta(alloc, setting, media, entry)?;
        self.put(entry, sent)?;
        Ok(())
    }

    /// Keeps the delta of an entry, if there is one.
    fn put(&mut self, entry: &Entry, sent: Option<Bytes>) -> Result<(), Memory>
        ensures { OnOk result ((name : At) → kept_delta self.new name ≡ (if same_at name (name_of entry.now) then first_of sent (kept_delta self.old name) else kept_delta self.old name)) }
    {
        if let Some(delta) = sent {
            self.kept.insert((entry.stamp, entry.lock), delta)?;
        }
        Ok(())
    }

    /// The delta of the diff of a name.
    pub fn delta_of(&self, name: At) -> Option<&[u8]>
        ensures { option_map (λ bytes. bytes.now) result ≡ kept_delta self.now name }
    {
        match self.kept.get(&(name.stamp, name.lock)) {
            Some(delta) => Some(delta.as_slice()),
            None => None,
        }
    }
}
