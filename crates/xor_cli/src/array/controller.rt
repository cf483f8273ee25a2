ghost use Rattle.std.specs.Prelude.{◌≡◌, ◌+◌, ◌*◌, ◌<◌, ◌≤◌, [], ◌∷◌, ◌++◌, length, IfOk, OnOk, None, true, false};
ghost use Rattle.blocks_core.specs.Lists.{slice};
ghost use Rattle.xor_cli.specs.Disks.{disk_of, IsOnDisk, with_diff, with_take, with_fold};
ghost use Rattle.xor_cli.specs.Serving.{next_at, with_next};

use crate::array::book::Book;
use crate::array::target::Target;
use array_journal::{At, Entry, Event, Names, Setting, Task};
use blocks_core::{Bytes, Memory};
use sbc_cdbs::Cdb;
use std::alloc::Global;

/// The array's controller: its book and its targets, each with the entries of its lock, and the last
/// stamp that it gave. Stamps are 1, 2, 3 and so on over all locks.
#[derive(Debug, Drop)]
pub struct Controller {
    pub setting: Setting,
    pub book: Book,
    pub targets: Vec<Target>,
    pub stamp: u64,
}

/// What each act of a command goes by.
#[derive(Clone, Copy, Debug)]
pub struct Served {
    pub command: u32,
    pub opened: At,
    pub row: u32,
    pub count: u16,
}

impl Controller {
    ghost use Rattle.xor_cli.specs.Arrays.{array_of, IsKept};

    /// Appends an entry in the book, with the next stamp.
    fn append_in_book(&mut self, event: Event) -> Result<At, Memory>
        requires kept { IsKept self.old }
        ensures kept { OnOk result (IsKept self.new) }
        ensures name { IfOk result (λ at. at ≡ next_at (array_of self.old).journal 0) }
        ensures entry { OnOk result (array_of self.new ≡ record (array_of self.old) {
          journal = with_next (array_of self.old).journal 0 event;
        }) }
    {
        // Past the type's end there is no further stamp. That is want of memory: any other answer would
        // need a cause that it hasn't.
        let stamp = self.stamp.checked_add(1).ok_or(Memory)?;
        self.book.entries.push(Entry {
            stamp,
            lock: 0,
            event,
        })?;
        // Only once the entry stands: a stamp that was handed out and not used would leave a gap, and
        // stamps are to be 1, 2, 3 and so on.
        self.stamp = stamp;
        Ok(At { stamp, lock: 0 })
    }

    /// Appends an entry at a target, with the next stamp.
    fn append_at_target(&mut self, target: u8, event: Event) -> Result<At, Memory>
        requires kept { IsKept self.old }
        requires number { target < 255 }
        requires there { target < length self.old.targets.items }
        ensures kept { OnOk result (IsKept self.new) }
        ensures name { IfOk result (λ at. at ≡ next_at (array_of self.old).journal (target + 1)) }
        ensures entry { OnOk result (array_of self.new ≡ record (array_of self.old) {
          journal = with_next (array_of self.old).journal (target + 1) event;
        }) }
    {
        let stamp = self.stamp.checked_add(1).ok_or(Memory)?;
        let lock = target + 1;
        self.targets[target as usize].keep(Entry { stamp, lock, event })?;
        // Only once the entry stands, as in the book.
        self.stamp = stamp;
        Ok(At { stamp, lock })
    }

    /// Opens a command in the book.
    pub fn open(&mut self, task: Task) -> Result<Served, Memory>
        requires kept { IsKept self.old }
        requires count { task.count < 65536 }
        ensures kept { OnOk result (IsKept self.new) }
        ensures served { IfOk result (λ served. served ≡ record {
          command = self.old.book.commands;
          opened = next_at (array_of self.old).journal 0;
          row = task.row;
          count = task.count;
        }) }
        ensures entry { OnOk result (array_of self.new ≡ record (array_of self.old) {
          journal = with_next (array_of self.old).journal 0 (Event.Open self.old.book.commands task);
          commands = self.old.book.commands + 1;
        }) }
    {
        let command = self.book.commands;
        let commands = command.checked_add(1).ok_or(Memory)?;
        let (row, count) = (task.row, task.count as u16);
        let opened = self.append_in_book(Event::Open { command, task })?;
        self.book.commands = commands;
        Ok(Served {
            command,
            opened,
            row,
            count,
        })
    }

    /// The place of a row on a medium, in bytes.
    fn byte_of(&self, row: u32) -> usize
        ensures { result ≡ row * self.now.setting.geometry.block }
    {
        row as usize * self.setting.geometry.block as usize
    }

    /// Reads the command's rows at a target.
    pub fn fetch(
        &mut self,
        alloc: Global,
        served: Served,
        target: u8,
        cdb: Cdb,
    ) -> Result<At, Memory>
        requires kept { IsKept self.old }
        requires number { target < 255 }
        requires on_disk { IsOnDisk (array_of self.old).disks target (served.row * self.old.setting.geometry.block) (served.count * self.old.setting.geometry.block) }
        ensures kept { OnOk result (IsKept self.new) }
        ensures name { IfOk result (λ at. at ≡ next_at (array_of self.old).journal (target + 1)) }
        ensures entry { OnOk result (array_of self.new ≡ record (array_of self.old) {
          journal = with_next (array_of self.old).journal (target + 1) (Event.Fetch served.command served.opened cdb served.row
              (slice (disk_of (array_of self.old).disks target).medium (served.row * self.old.setting.geometry.block) (served.count * self.old.setting.geometry.block)));
        }) }
    {
        let at = self.byte_of(served.row);
        let len = self.byte_of(u32::from(served.count));
        let read = self.targets[target as usize].read(at, len);
        let event = Event::Fetch {
            command: served.command,
            opened: served.opened,
            cdb,
            row: served.row,
            bytes: Bytes::from_slice(alloc, read)?,
        };
        self.append_at_target(target, event)
    }

    /// Writes bytes over rows at a target, which holds their exclusive-or with what stood there.
    fn write(&mut self, alloc: Global, row: u32, target: u8, bytes: &[u8]) -> Result<(), Memory>
        requires kept { IsKept self.old }
        requires on_disk { IsOnDisk (array_of self.old).disks target (row * self.old.setting.geometry.block) (length bytes.now) }
        ensures kept { OnOk result (IsKept self.new) }
        ensures array { OnOk result (array_of self.new ≡ record (array_of self.old) {
          disks = with_diff (array_of self.old).disks target (row * self.old.setting.geometry.block) bytes.now;
        }) }
    {
        let at = self.byte_of(row);
        self.targets[target as usize].xdwrite(alloc, at, bytes)?;
        Ok(())
    }

    /// Writes a host's blocks at a target, which holds their delta.
    pub fn diff(
        &mut self,
        alloc: Global,
        served: Served,
        target: u8,
        cdb: Cdb,
        bytes: Bytes,
    ) -> Result<At, Memory>
        requires kept { IsKept self.old }
        requires number { target < 255 }
        requires on_disk { IsOnDisk (array_of self.old).disks target (served.row * self.old.setting.geometry.block) (length bytes) }
        ensures kept { OnOk result (IsKept self.new) }
        ensures name { IfOk result (λ at. at ≡ next_at (array_of self.old).journal (target + 1)) }
        ensures array { OnOk result (array_of self.new ≡ record (array_of self.old) {
          journal = with_next (array_of self.old).journal (target + 1) (Event.Diff served.command served.opened cdb served.row bytes false false false);
          disks = with_diff (array_of self.old).disks target (served.row * self.old.setting.geometry.block) bytes;
        }) }
    {
        // The medium changes before its entry stands. Where memory for the entry is wanting, the whole run
        // is given up and its journal is never handed out; a controller that went on after want of memory
        // would have to append first.
        self.write(alloc, served.row, target, bytes.as_slice())?;
        let event = Event::Diff {
            command: served.command,
            opened: served.opened,
            cdb,
            row: served.row,
            bytes,
            sent: false,
            dropped: false,
            back: false,
        };
        self.append_at_target(target, event)
    }

    /// Takes what a target holds.
    fn release(&mut self, alloc: Global, target: u8) -> Bytes
        requires kept { IsKept self.old }
        requires there { target < length self.old.targets.items }
        ensures kept { IsKept self.new }
        ensures delta { result ≡ (disk_of (array_of self.old).disks target).held }
        ensures array { array_of self.new ≡ record (array_of self.old) { disks = with_take (array_of self.old).disks target } }
    {
        self.targets[target as usize].xdread(alloc)
    }

    /// Takes the delta that a target holds.
    pub fn take(
        &mut self,
        alloc: Global,
        served: Served,
        target: u8,
        cdb: Cdb,
    ) -> Result<(At, Bytes), Memory>
        requires kept { IsKept self.old }
        requires number { target < 255 }
        requires on_disk { target < length self.old.targets.items }
        ensures kept { OnOk result (IsKept self.new) }
        ensures name { IfOk result (λ x. x.0 ≡ next_at (array_of self.old).journal (target + 1)) }
        ensures delta { IfOk result (λ x. x.1 ≡ (disk_of (array_of self.old).disks target).held) }
        ensures array { OnOk result (array_of self.new ≡ record (array_of self.old) {
          journal = with_next (array_of self.old).journal (target + 1)
              (Event.Take served.command served.opened cdb served.row (disk_of (array_of self.old).disks target).held);
          disks = with_take (array_of self.old).disks target;
        }) }
    {
        // The delta is let go before its entry stands, as in `diff`.
        let delta = self.release(alloc, target);
        let event = Event::Take {
            command: served.command,
            opened: served.opened,
            cdb,
            row: served.row,
            bytes: delta.copy(alloc)?,
        };
        Ok((self.append_at_target(target, event)?, delta))
    }

    /// Folds bytes into rows at a target.
    fn fold_in(&mut self, row: u32, target: u8, bytes: &[u8])
        requires kept { IsKept self.old }
        requires on_disk { IsOnDisk (array_of self.old).disks target (row * self.old.setting.geometry.block) (length bytes.now) }
        ensures kept { IsKept self.new }
        ensures array { array_of self.new ≡ record (array_of self.old) {
          disks = with_fold (array_of self.old).disks target (row * self.old.setting.geometry.block) bytes.now;
        } }
    {
        let at = self.byte_of(row);
        self.targets[target as usize].xpwrite(at, bytes);
    }

    /// Folds a delta into the parity target.
    pub fn fold(
        &mut self,
        alloc: Global,
        served: Served,
        target: u8,
        cdb: Cdb,
        delta: Bytes,
        taken: At,
    ) -> Result<At, Memory>
        requires kept { IsKept self.old }
        requires number { target < 255 }
        requires on_disk { IsOnDisk (array_of self.old).disks target (served.row * self.old.setting.geometry.block) (length delta) }
        ensures kept { OnOk result (IsKept self.new) }
        ensures name { IfOk result (λ at. at ≡ next_at (array_of self.old).journal (target + 1)) }
        ensures array { OnOk result (array_of self.new ≡ record (array_of self.old) {
          journal = with_next (array_of self.old).journal (target + 1)
              (Event.Fold served.command served.opened cdb served.row delta (taken ∷ []));
          disks = with_fold (array_of self.old).disks target (served.row * self.old.setting.geometry.block) delta;
        }) }
    {
        // The medium changes before its entry stands, as in `diff`.
        self.fold_in(served.row, target, delta.as_slice());
        let mut names = Names::new(alloc);
        names.push(taken)?;
        let event = Event::Fold {
            command: served.command,
            opened: served.opened,
            cdb,
            row: served.row,
            bytes: delta,
            names,
        };
        self.append_at_target(target, event)
    }

    /// Closes a command as done, all its acts named.
    pub fn close(&mut self, alloc: Global, served: Served, names: Names) -> Result<At, Memory>
        requires kept { IsKept self.old }
        ensures kept { OnOk result (IsKept self.new) }
        ensures array { OnOk result (array_of self.new ≡ record (array_of self.old) {
          journal = with_next (array_of self.old).journal 0 (Event.Close served.command true names None []);
        }) }
    {
        let event = Event::Close {
            command: served.command,
            done: true,
            names,
            cause: None,
            bytes: Bytes::new(alloc),
        };
        self.append_in_book(event)
    }
}
