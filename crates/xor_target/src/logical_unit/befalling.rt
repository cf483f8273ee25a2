//! What befalls a logical unit: a loss of the disk ends all gatherings, and the shut of an owner its own.

ghost use Rattle.std.specs.Prelude.{◌≡◌, ◌<◌, ◌^◌, ℕ, length, IfOk, OnOk, OnErr};
ghost use Rattle.sbc_cdbs.specs.Cdbs.{cdb_bytes};
ghost use Rattle.xor_mode_page.specs.declared.pages.XorPage.{XorPage};
ghost use Rattle.xor_target.specs.Acts.{IsPossible, IsFewWhereGone, IsUnitRenewed};
ghost use Rattle.xor_target.specs.Answers.{IsActed};
ghost use Rattle.xor_target.specs.Befalls.{IsShut, IsLost};
ghost use Rattle.xor_target.specs.State.{state_of};

use super::LogicalUnit;
use crate::admission::Admitted;
use crate::answer::{Answer, GoneAt, ShutAnswer};
use crate::order::Order;
use array_journal::{At, Names};
use blocks_core::Memory;
use sector_media::Medium;
use std::alloc::Global;

impl<M: Medium + Drop> LogicalUnit<M> {
    /// Does a command of blocks and answers it; or answers that the disk is lost, with all gatherings, since the
    /// medium failed. Want of memory leaves all as it was.
    pub fn act(
        &mut self,
        alloc: Global,
        order: &Order,
        admitted: &Admitted,
    ) -> Result<Answer, Memory>
        requires sent { cdb_bytes admitted.now.cdb ≡ order.now.cdb }
        requires possible { IsPossible self.old.logged.disk order.now admitted.now.command }
        ensures acted { IfOk result (λ answer. (targets : ℕ) (first page : XorPage) → IsActed M.NEVER_FAILS (state_of targets first page self.old.waiting.list self.old.logged.disk self.old.logged.log) order.now admitted.now.command answer (state_of targets first page self.new.waiting.list self.new.logged.disk self.new.logged.log)) }
        ensures few { IfOk result (IsFewWhereGone self.new.logged.log.past) }
        ensures memory { OnErr result ((targets : ℕ) (first page : XorPage) → state_of targets first page self.new.waiting.list self.new.logged.disk self.new.logged.log ≡ state_of targets first page self.old.waiting.list self.old.logged.disk self.old.logged.log) }
    {
        let answer = self.logged.act(alloc, order, admitted)?;
        self.waiting.leave(&answer);
        Ok(answer)
    }

    /// An owner is shut: what it holds is let go, and its gathering ends.
    pub fn shut(&mut self, owner: u32, opened: At, seen: u64) -> Result<ShutAnswer, Memory>
        ensures shut { IfOk result (λ answer. (targets : ℕ) (first page : XorPage) → IsShut (state_of targets first page self.old.waiting.list self.old.logged.disk self.old.logged.log) owner opened seen answer (state_of targets first page self.new.waiting.list self.new.logged.disk self.new.logged.log)) }
        ensures memory { OnErr result ((targets : ℕ) (first page : XorPage) → state_of targets first page self.new.waiting.list self.new.logged.disk self.new.logged.log ≡ state_of targets first page self.old.waiting.list self.old.logged.disk self.old.logged.log) }
    {
        let answer = self.logged.shut(owner, opened, seen)?;
        self.waiting.discard_gathering(owner);
        Ok(answer)
    }

    /// The disk is lost for a call, and what is held and gathered with it.
    pub fn lose(&mut self, alloc: Global, call: u32, seen: u64) -> Result<GoneAt, Memory>
        ensures lost { IfOk result (λ answer. (targets : ℕ) (first page : XorPage) → IsLost (state_of targets first page self.old.waiting.list self.old.logged.disk self.old.logged.log) call seen answer (state_of targets first page self.new.waiting.list self.new.logged.disk self.new.logged.log)) }
        ensures memory { OnErr result ((targets : ℕ) (first page : XorPage) → state_of targets first page self.new.waiting.list self.new.logged.disk self.new.logged.log ≡ state_of targets first page self.old.waiting.list self.old.logged.disk self.old.logged.log) }
    {
        let answer = self.logged.lose(alloc, call, seen)?;
        self.waiting.discard_gatherings();
        Ok(answer)
    }

    /// A fresh disk comes, and its entry's name is told; or the medium fails at it, and all gatherings end.
    pub fn renew(
        &mut self,
        alloc: Global,
        call: u32,
        swap: At,
        seen: u64,
    ) -> Result<Result<Names, GoneAt>, Memory>
        ensures renewed { IfOk result (λ renewed. (targets : ℕ) (first page : XorPage) → IsUnitRenewed M.NEVER_FAILS targets first page self.old.waiting.list self.old.logged.disk self.old.logged.log call swap seen self.new.waiting.list self.new.logged.disk self.new.logged.log renewed) }
        ensures few { OnOk result (length self.new.logged.log.past < 2 ^ 63) }
        ensures memory { OnErr result ((targets : ℕ) (first page : XorPage) → state_of targets first page self.new.waiting.list self.new.logged.disk self.new.logged.log ≡ state_of targets first page self.old.waiting.list self.old.logged.disk self.old.logged.log) }
    {
        match self.logged.renew(alloc, call, swap, seen)? {
            Ok(made) => Ok(Ok(made)),
            Err(gone) => {
                self.waiting.discard_gatherings();
                Ok(Err(gone))
            }
        }
    }
}
