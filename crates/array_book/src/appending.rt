//! How the book makes an entry: under the next stamp, and with the indexes of open commands kept beside the entries.

ghost use Rattle.std.specs.Prelude.{◌≡◌, ◌<◌, ◌+◌, ◌∷◌, true, false, OnOk, OnErr, IfOk, max};
ghost use Rattle.array_journal.specs.declared.event.Event.TheVariants as events;
ghost use Rattle.array_journal.specs.Commands.{ends_command, open_count};
ghost use Rattle.array_journal.specs.Entries.{some_at};
ghost use Rattle.array_journal.specs.May.{IsTask};
ghost use Rattle.array_book.specs.CommandSteps.{step_by, Neither, IsEnd};
ghost use Rattle.array_book.specs.Ledgers.{newest_stamp, next_name, with_event, book_entry};

use crate::ledger::Book;
use array_journal::{At, Entry, Event, Task};
use blocks_core::Memory;

impl Book {
    /// The stamp of the next entry, if a stamp can have it.
    fn next_stamp(&self, stamp: u64) -> Result<u64, Memory>
        ensures value { IfOk result (λ next. next ≡ max (newest_stamp self.now.past) stamp + 1) }
        ensures later { IfOk result (λ next. newest_stamp self.now.past < next) }
    {
        self.records
            .newest_stamp()
            .max(stamp)
            .checked_add(1)
            .ok_or(Memory)
    }

    /// Makes an entry that neither opens a command nor ends one. After want of memory nothing has changed.
    pub(crate) fn put(&mut self, event: Event, stamp: u64) -> Result<At, Memory>
        requires { step_by event ≡ Neither }
        ensures name { IfOk result (λ at. at ≡ next_name self.old stamp) }
        ensures made { OnOk result (self.new ≡ with_event self.old stamp event) }
        ensures err { OnErr result (self.new ≡ self.old) }
        ensures setting { self.new.setting ≡ self.old.setting }
    {
        let stamp = self.next_stamp(stamp)?;
        let entry = Entry {
            stamp,
            lock: 0,
            event,
        };
        self.records.append(self.alloc, entry)?;
        Ok(At { stamp, lock: 0 })
    }

    /// Makes an entry that ends a command. After want of memory nothing has changed.
    pub(crate) fn put_end(&mut self, command: u32, event: Event, stamp: u64) -> Result<At, Memory>
        requires { IsEnd command event }
        ensures name { IfOk result (λ at. at ≡ next_name self.old stamp) }
        ensures made { OnOk result (self.new ≡ with_event self.old stamp event) }
        ensures err { OnErr result (self.new ≡ self.old) }
        ensures setting { self.new.setting ≡ self.old.setting }
    {
        let stamp = self.next_stamp(stamp)?;
        let entry = Entry {
            stamp,
            lock: 0,
            event,
        };
        let was_open = self.records.is_open(command);
        self.records.append(self.alloc, entry)?;
        let task = self.records.task_if(command, was_open);
        self.index.end(&self.setting, command, task);
        Ok(At { stamp, lock: 0 })
    }

    /// Makes an entry that opens a command. After want of memory nothing has changed.
    pub(crate) fn put_opening(
        &mut self,
        command: u32,
        task: &Task,
        stamp: u64,
    ) -> Result<At, Memory>
        requires numbered { command ≡ open_count self.old.past }
        requires sound { IsTask self.old.setting task.now }
        ensures name { IfOk result (λ at. at ≡ next_name self.old stamp) }
        ensures made { OnOk result (self.new ≡ with_event self.old stamp (events.Open command task.now)) }
        ensures err { OnErr result (self.new ≡ self.old) }
        ensures setting { self.new.setting ≡ self.old.setting }
    {
        let stamp = self.next_stamp(stamp)?;
        let event = Event::Open {
            command,
            task: task.copy(self.alloc)?,
        };
        let entry = Entry {
            stamp,
            lock: 0,
            event,
        };
        self.append_opening(entry, command, task)?;
        Ok(At { stamp, lock: 0 })
    }

    /// Puts an opening behind the other entries. A command that ended before it was opened isn't open: whoever ends
    /// commands answers for it.
    fn append_opening(&mut self, entry: Entry, command: u32, task: &Task) -> Result<(), Memory>
        requires opens { entry ≡ book_entry entry.stamp (events.Open command task.now) }
        requires later { newest_stamp self.old.past < entry.stamp }
        requires numbered { command ≡ open_count self.old.past }
        requires sound { IsTask self.old.setting task.now }
        ensures ok { OnOk result (self.new ≡ record { setting = self.old.setting; past = entry ∷ self.old.past }) }
        ensures err { OnErr result (self.new ≡ self.old) }
        ensures setting { self.new.setting ≡ self.old.setting }
    {
        if self.records.has_ended(command) {
            self.append_idle(entry, command, task)
        } else {
            self.append_open(entry, command, task)
        }
    }

    /// Puts the opening of a command that ended behind the other entries.
    fn append_idle(&mut self, entry: Entry, command: u32, task: &Task) -> Result<(), Memory>
        requires opens { entry ≡ book_entry entry.stamp (events.Open command task.now) }
        requires later { newest_stamp self.old.past < entry.stamp }
        requires numbered { command ≡ open_count self.old.past }
        requires sound { IsTask self.old.setting task.now }
        requires ended { some_at 0 (ends_command command) self.old.past ≡ true }
        ensures ok { OnOk result (self.new ≡ record { setting = self.old.setting; past = entry ∷ self.old.past }) }
        ensures err { OnErr result (self.new ≡ self.old) }
        ensures setting { self.new.setting ≡ self.old.setting }
    {
        self.records.append(self.alloc, entry)
    }

    /// Puts the opening of a command that didn't end behind the other entries.
    fn append_open(&mut self, entry: Entry, command: u32, task: &Task) -> Result<(), Memory>
        requires opens { entry ≡ book_entry entry.stamp (events.Open command task.now) }
        requires later { newest_stamp self.old.past < entry.stamp }
        requires numbered { command ≡ open_count self.old.past }
        requires sound { IsTask self.old.setting task.now }
        requires not_ended { some_at 0 (ends_command command) self.old.past ≡ false }
        ensures ok { OnOk result (self.new ≡ record { setting = self.old.setting; past = entry ∷ self.old.past }) }
        ensures err { OnErr result (self.new ≡ self.old) }
        ensures setting { self.new.setting ≡ self.old.setting }
    {
        self.index.open(self.alloc, &self.setting, command, task)?;
        if self.records.append(self.alloc, entry).is_err() {
            self.index.end(&self.setting, command, Some(task));
            return Err(Memory);
        }
        Ok(())
    }
}
