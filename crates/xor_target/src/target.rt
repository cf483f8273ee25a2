//! One target: its disk and log, and its mode pages.

ghost use Rattle.std.specs.Prelude.{◌≡◌, ◌≤◌, ◌<◌, ◌+◌, ◌*◌, false, [], reverse, IfSome, IfOk};
ghost use Rattle.std.specs.List.{AllByRecursion};
ghost use Rattle.blocks_core.specs.Xor.{zeros};
ghost use Rattle.array_journal.specs.Entries.{count_at};
ghost use Rattle.array_journal.specs.Lives.{is_gone};
ghost use Rattle.array_journal.specs.Merge.{Rises};
ghost use Rattle.xor_target.specs.State.{is_failure, is_waiting, IsRecorded, limits_of};

mod befalling;
mod early;
mod executing;
mod fresh;
mod modes;
mod resuming;

use crate::disk::Disk;
use crate::limits::TargetLimits;
use crate::log::TargetLog;
use crate::logged_disk::LoggedDisk;
use crate::logical_unit::LogicalUnit;
use crate::waiting::WaitingList;
use array_journal::Entries;
use blocks_core::Memory;
use sector_media::Medium;
use std::alloc::Global;
use std::marker::Model;
use xor_mode_page::XorPage;

/// A disk that knows the XOR commands (SBC).
#[derive(Drop)]
pub struct Target<M: Medium + Drop> {
    targets: u8,
    first: XorPage,
    page: XorPage,
    unit: LogicalUnit<M>,
}

impl<M: Medium + Drop> Model for Target<M> {
    ghost use Rattle.xor_target.specs.State.{TargetState, state_of, IsTarget};

    ghost Value = { TargetState };

    ghost view = { λ t. state_of t.targets t.first t.page t.unit.waiting.list t.unit.logged.disk t.unit.logged.log };

    ghost invariant = { λ t. IsTarget (state_of t.targets t.first t.page t.unit.waiting.list t.unit.logged.disk t.unit.logged.log) };
}

impl<M: Medium + Drop> Target<M> {
    /// Target `number` of so many, with a medium of zeros in blocks of this size, a buffer for so many blocks,
    /// and its first mode page.
    pub fn new(
        alloc: Global,
        number: u8,
        targets: u8,
        block: u32,
        buffer: u32,
        page: XorPage,
        medium: M,
    ) -> Result<Target<M>, Memory>
        requires number { number < targets }
        requires block { 1 ≤ block }
        requires medium { M.block medium ≡ block }
        requires zeros { IfSome (M.contents medium) (λ told. told ≡ zeros (M.row_count medium * block)) }
        ensures { IfOk result (λ t. t ≡ record {
          number = number;
          targets = targets;
          block = block;
          rows = M.row_count medium;
          buffer = buffer;
          first = page;
          page = page;
          past = [];
          held = [];
          contents = M.contents medium;
          faults = M.faults medium;
          waiting = [];
        }) }
    {
        let disk = Disk::new(alloc, block, buffer, medium)?;
        let log = TargetLog::new(alloc, number);
        Ok(Target {
            targets,
            first: page,
            page,
            unit: LogicalUnit {
                logged: LoggedDisk { disk, log },
                waiting: WaitingList::new(alloc),
            },
        })
    }

    /// What of it decides whether a CDB is admitted, besides its page.
    fn limits(&self) -> TargetLimits
        ensures limits { result ≡ limits_of self.now }
    {
        TargetLimits {
            number: self.unit.logged.log.number(),
            targets: self.targets,
            block: self.unit.logged.disk.block(),
            rows: self.unit.logged.disk.rows(),
        }
    }

    /// Whether an order of the owner isn't answered yet, since another target is asked for it.
    pub fn waits(&self, owner: u32) -> bool
        ensures { result ≡ is_waiting self.now owner }
    {
        self.unit.waiting.of(owner).is_some()
    }

    /// The entries, the oldest first. All are of the target's lock, and their stamps rise. Where the medium
    /// tells its bytes, it and the buffer hold what the entries say.
    pub fn entries(&self) -> &Entries
        ensures entries { result.now.list ≡ reverse self.now.past }
        ensures of_lock { AllByRecursion (λ e. e.lock ≡ self.now.number + 1) result.now.list }
        ensures rise { Rises result.now.list }
        ensures recorded { IfSome self.now.contents (IsRecorded self.now) }
        ensures failures { count_at (self.now.number + 1) is_failure self.now.past ≤ self.now.faults }
    {
        self.unit.logged.log.entries()
    }

    /// The entries, the medium, and whether the disk is lost. No memory is taken.
    pub fn into_parts(self) -> (Entries, M, bool)
        ensures entries { result.0.list ≡ reverse self.past }
        ensures of_lock { AllByRecursion (λ e. e.lock ≡ self.number + 1) result.0.list }
        ensures rise { Rises result.0.list }
        ensures contents { M.contents result.1 ≡ self.contents }
        ensures faults { M.faults result.1 ≡ self.faults }
        ensures gone { result.2 ≡ is_gone self.number self.past }
        ensures recorded { IfSome self.contents (IsRecorded self) }
        ensures failures { count_at (self.number + 1) is_failure self.past ≤ self.faults }
    {
        let Target { unit, .. } = self;
        let LogicalUnit { logged, .. } = unit;
        let LoggedDisk { disk, log } = logged;
        let gone = log.gone().is_some();
        (log.into_entries(), disk.into_medium(), gone)
    }
}
