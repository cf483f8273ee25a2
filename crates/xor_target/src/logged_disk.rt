//! A disk with the log of what is done to it. What a command needs is taken before the medium is touched, so
//! that what has happened is always written down.

ghost use Rattle.std.specs.Prelude.{◌≡◌, ◌≤◌, ◌<◌, ◌+◌, ◌^◌, [], ◌∷◌, length, IfOk};
ghost use Rattle.array_journal.specs.Lives.{life_of};
ghost use Rattle.array_journal.specs.declared.event.Event.TheVariants as events;
ghost use Rattle.xor_buffers.specs.Held.{owners_of};
ghost use Rattle.xor_target.specs.Logs.{last_stamp};
ghost use Rattle.xor_target.specs.Acts.{IsPrepared};
ghost use Rattle.xor_target.specs.Answers.{next_stamp};

mod acting;
mod befalling;
mod perform;
mod reading;
mod writing;
mod xdwrite;
mod xdwrite_extended;
mod xdwriteread;

use crate::act::Prepared;
use crate::answer::GoneAt;
use crate::disk::Disk;
use crate::log::TargetLog;
use array_journal::{At, Event, Names};
use blocks_core::Memory;
use sector_media::Medium;
use std::alloc::Global;

/// A target's disk and its log.
#[derive(Drop)]
pub struct LoggedDisk<M: Medium + Drop> {
    pub disk: Disk<M>,
    pub log: TargetLog,
}

impl<M: Medium + Drop> LoggedDisk<M> {
    /// Takes what the entry of a command needs, or that of a loss. `seen` is the greatest stamp that the
    /// sender has seen.
    pub fn prepare(&mut self, alloc: Global, seen: u64) -> Result<Prepared, Memory>
        ensures disk { self.new.disk ≡ self.old.disk }
        ensures past { self.new.log.past ≡ self.old.log.past }
        ensures number { self.new.log.number ≡ self.old.log.number }
        ensures ready { IfOk result (IsPrepared M.NEVER_FAILS self.new.disk self.new.log seen) }
    {
        let stamp = self.log.next_stamp(seen)?;
        let owners = self.disk.owners_at_risk(alloc)?;
        self.log.reserve(1, owners.len().max(1))?;
        let mut made = Names::new(alloc);
        made.push(At {
            stamp,
            lock: self.log.number() + 1,
        })?;
        Ok(Prepared {
            stamp,
            made,
            owners,
        })
    }

    /// The name of the next entry, by one who has seen stamps up to this one.
    pub fn next_name(&self, seen: u64) -> Result<At, Memory>
        ensures { IfOk result (λ name. name ≡ record { stamp = next_stamp self.now.log.past seen; lock = self.now.log.number + 1 }) }
    {
        Ok(At {
            stamp: self.log.next_stamp(seen)?,
            lock: self.log.number() + 1,
        })
    }

    /// The medium failed: the disk is lost, with all that is held.
    fn fail(&mut self, ready: Prepared) -> GoneAt
        requires room { 1 ≤ self.old.log.room }
        requires seats { length ready.owners ≤ self.old.log.seats }
        requires later { last_stamp self.old.log.past < ready.stamp }
        ensures disk { self.new.disk ≡ record self.old.disk { buffer = record self.old.disk.buffer { list = [] } } }
        ensures past { self.new.log.past ≡ record { stamp = ready.stamp; lock = self.old.log.number + 1; event = events.Gone (life_of self.old.log.number self.old.log.past) 0 ready.owners } ∷ self.old.log.past }
        ensures number { self.new.log.number ≡ self.old.log.number }
        ensures few { length self.new.log.past < 2 ^ 63 }
        ensures says { result ≡ record { at = record { stamp = ready.stamp; lock = self.old.log.number + 1 }; life = life_of self.old.log.number self.old.log.past } }
    {
        let Prepared { stamp, owners, .. } = ready;
        let life = self.log.life();
        let event = Event::Gone {
            life,
            call: 0,
            commands: owners,
        };
        let at = self.log.append(event, stamp);
        self.disk.wipe();
        GoneAt { at, life }
    }
}
