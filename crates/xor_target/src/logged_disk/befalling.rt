//! What befalls a disk besides commands, written down in its log.

ghost use Rattle.std.specs.Prelude.{◌≡◌, ◌<◌, ◌^◌, ℕ, List, length, IfOk, OnOk, OnErr};
ghost use Rattle.xor_mode_page.specs.declared.pages.XorPage.{XorPage};
ghost use Rattle.xor_target.specs.Befalls.{IsShut, IsLost, IsReset, IsDropping};
ghost use Rattle.xor_target.specs.Acts.{IsRenewedAs};
ghost use Rattle.xor_target.specs.State.{state_of};
ghost use Rattle.xor_target.specs.Waits.{without_gathering, without_gatherings};
ghost use Rattle.xor_target.specs.declared.waiting.Waiting.{Waiting};

use super::LoggedDisk;
use crate::answer::{GoneAt, ShutAnswer};
use array_journal::{At, Event, Names, What};
use blocks_core::{Memory, Owners};
use outer_io::Failed;
use sector_media::Medium;
use std::alloc::Global;

impl<M: Medium + Drop> LoggedDisk<M> {
    /// An owner is shut, and what it holds is let go.
    pub fn shut(&mut self, owner: u32, opened: At, seen: u64) -> Result<ShutAnswer, Memory>
        ensures shut { IfOk result (λ answer. (targets : ℕ) (first page : XorPage) (waiting : List Waiting) → IsShut (state_of targets first page waiting self.old.disk self.old.log) owner opened seen answer (state_of targets first page (without_gathering owner waiting) self.new.disk self.new.log)) }
        ensures memory { OnErr result ((targets : ℕ) (first page : XorPage) (waiting : List Waiting) → state_of targets first page waiting self.new.disk self.new.log ≡ state_of targets first page waiting self.old.disk self.old.log) }
    {
        let stamp = self.log.next_stamp(seen)?;
        self.log.reserve(1, 1)?;
        let acted = self.log.acted(owner);
        let gone = self.log.gone();
        let life = self.log.life();
        let event = Event::Shut {
            command: owner,
            opened,
            acted,
            gone,
        };
        let at = self.log.append(event, stamp);
        self.disk.wipe_owner(owner);
        Ok(ShutAnswer {
            at,
            acted,
            gone,
            life,
        })
    }

    /// The disk is lost for a call, and what is held with it.
    pub fn lose(&mut self, alloc: Global, call: u32, seen: u64) -> Result<GoneAt, Memory>
        ensures lost { IfOk result (λ answer. (targets : ℕ) (first page : XorPage) (waiting : List Waiting) → IsLost (state_of targets first page waiting self.old.disk self.old.log) call seen answer (state_of targets first page (without_gatherings waiting) self.new.disk self.new.log)) }
        ensures memory { OnErr result ((targets : ℕ) (first page : XorPage) (waiting : List Waiting) → state_of targets first page waiting self.new.disk self.new.log ≡ state_of targets first page waiting self.old.disk self.old.log) }
    {
        let stamp = self.log.next_stamp(seen)?;
        let owners = self.disk.owners(alloc)?;
        self.log.reserve(1, owners.len())?;
        let life = self.log.life();
        let event = Event::Gone {
            life,
            call,
            commands: owners,
        };
        let at = self.log.append(event, stamp);
        self.disk.wipe();
        Ok(GoneAt { at, life })
    }

    /// What is held is let go.
    pub fn wipe(&mut self, alloc: Global, call: u32, seen: u64) -> Result<At, Memory>
        ensures reset { IfOk result (λ at. (targets : ℕ) (first page : XorPage) (waiting : List Waiting) → IsReset (state_of targets first page waiting self.old.disk self.old.log) call seen at (state_of targets first page waiting self.new.disk self.new.log)) }
        ensures memory { OnErr result ((targets : ℕ) (first page : XorPage) (waiting : List Waiting) → state_of targets first page waiting self.new.disk self.new.log ≡ state_of targets first page waiting self.old.disk self.old.log) }
    {
        let stamp = self.log.next_stamp(seen)?;
        let owners = self.disk.owners(alloc)?;
        self.log.reserve(1, owners.len())?;
        let event = Event::Wiped {
            what: What::Buffers,
            call,
            commands: owners,
        };
        let at = self.log.append(event, stamp);
        self.disk.wipe();
        Ok(at)
    }

    /// The next request to a peer is to be dropped.
    pub fn drop_next(&mut self, alloc: Global, call: u32, seen: u64) -> Result<At, Memory>
        ensures dropping { IfOk result (λ at. (targets : ℕ) (first page : XorPage) (waiting : List Waiting) → IsDropping (state_of targets first page waiting self.old.disk self.old.log) call seen at (state_of targets first page waiting self.new.disk self.new.log)) }
        ensures memory { OnErr result ((targets : ℕ) (first page : XorPage) (waiting : List Waiting) → state_of targets first page waiting self.new.disk self.new.log ≡ state_of targets first page waiting self.old.disk self.old.log) }
    {
        let stamp = self.log.next_stamp(seen)?;
        self.log.reserve(1, 0)?;
        let event = Event::Wiped {
            what: What::Request,
            call,
            commands: Owners::new(alloc),
        };
        Ok(self.log.append(event, stamp))
    }

    /// A fresh disk of zeros comes, and its entry's name is told; or the medium fails at it.
    pub fn renew(
        &mut self,
        alloc: Global,
        call: u32,
        swap: At,
        seen: u64,
    ) -> Result<Result<Names, GoneAt>, Memory>
        ensures renewed { IfOk result (λ renewed. (targets : ℕ) (first page : XorPage) (waiting : List Waiting) → IsRenewedAs M.NEVER_FAILS targets first page waiting self.old.disk self.old.log call swap seen self.new.disk self.new.log renewed) }
        ensures few { OnOk result (length self.new.log.past < 2 ^ 63) }
        ensures memory { OnErr result ((targets : ℕ) (first page : XorPage) (waiting : List Waiting) → state_of targets first page waiting self.new.disk self.new.log ≡ state_of targets first page waiting self.old.disk self.old.log) }
    {
        // The number of a life has 32 bits.
        if self.log.life() == u32::MAX {
            return Err(Memory);
        }
        let ready = self.prepare(alloc, seen)?;
        match self.disk.renew() {
            Ok(()) => {
                self.disk.wipe();
                self.log.append(Event::Fresh { call, swap }, ready.stamp);
                Ok(Ok(ready.made))
            }
            Err(Failed) => Ok(Err(self.fail(ready))),
        }
    }
}
