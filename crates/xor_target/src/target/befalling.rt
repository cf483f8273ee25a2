//! What befalls a target besides commands: owners are shut, the disk is lost, the buffer is reset, requests
//! to peers are dropped.

ghost use Rattle.std.specs.Prelude.{◌≡◌, ◌≢◌, None, IfOk, OnErr};
ghost use Rattle.array_journal.specs.Owners.{shut_at};
ghost use Rattle.xor_target.specs.Befalls.{IsShut, IsLost, IsReset, IsDropping};

use super::Target;
use crate::answer::{GoneAt, ShutAnswer};
use array_journal::{At, Event, What};
use blocks_core::{Memory, Owners};
use sector_media::Medium;
use std::alloc::Global;

impl<M: Medium + Drop> Target<M> {
    /// Takes no more orders of an owner, and lets go what it holds. No shut of it stands here.
    pub fn shut(&mut self, owner: u32, opened: At, stamp: u64) -> Result<ShutAnswer, Memory>
        requires { shut_at self.old.number owner self.old.past ≡ None }
        ensures shut { IfOk result (λ answer. IsShut self.old owner opened stamp answer self.new) }
        ensures memory { OnErr result (self.new ≡ self.old) }
    {
        self.unit.shut(owner, opened, stamp)
    }

    /// The disk is lost, for a call, with all that is held; also where it is lost already.
    pub fn lose(&mut self, alloc: Global, call: u32, stamp: u64) -> Result<GoneAt, Memory>
        requires { call ≢ 0 }
        ensures lost { IfOk result (λ answer. IsLost self.old call stamp answer self.new) }
        ensures memory { OnErr result (self.new ≡ self.old) }
    {
        self.unit.lose(alloc, call, stamp)
    }

    /// The buffer is reset: all that is held is let go, and nothing else is changed.
    pub fn wipe(&mut self, alloc: Global, call: u32, stamp: u64) -> Result<At, Memory>
        ensures reset { IfOk result (λ at. IsReset self.old call stamp at self.new) }
        ensures memory { OnErr result (self.new ≡ self.old) }
    {
        self.unit.logged.wipe(alloc, call, stamp)
    }

    /// The next request to a peer will be dropped.
    pub fn drop_next(&mut self, alloc: Global, call: u32, stamp: u64) -> Result<At, Memory>
        ensures dropping { IfOk result (λ at. IsDropping self.old call stamp at self.new) }
        ensures memory { OnErr result (self.new ≡ self.old) }
    {
        self.unit.logged.drop_next(alloc, call, stamp)
    }
}
