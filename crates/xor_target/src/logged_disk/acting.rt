//! A command of blocks, from what it needs to what it answers.

ghost use Rattle.std.specs.Prelude.{◌≡◌, ℕ, List, IfOk, OnErr};
ghost use Rattle.sbc_cdbs.specs.Cdbs.{cdb_bytes};
ghost use Rattle.xor_mode_page.specs.declared.pages.XorPage.{XorPage};
ghost use Rattle.xor_target.specs.Acts.{IsPossible, IsFewWhereGone, waiting_left};
ghost use Rattle.xor_target.specs.Answers.{IsActed};
ghost use Rattle.xor_target.specs.State.{state_of};
ghost use Rattle.xor_target.specs.declared.waiting.Waiting.{Waiting};

use super::LoggedDisk;
use crate::act::{ActStop, BlockAct};
use crate::admission::Admitted;
use crate::answer::Answer;
use crate::order::Order;
use blocks_core::Memory;
use sector_media::Medium;
use std::alloc::Global;

impl<M: Medium + Drop> LoggedDisk<M> {
    /// Does a command of blocks and answers it; or answers that the disk is lost, since the medium failed.
    /// Want of memory leaves all as it was.
    pub fn act(
        &mut self,
        alloc: Global,
        order: &Order,
        admitted: &Admitted,
    ) -> Result<Answer, Memory>
        requires sent { cdb_bytes admitted.now.cdb ≡ order.now.cdb }
        requires possible { IsPossible self.old.disk order.now admitted.now.command }
        ensures acted { IfOk result (λ answer. (targets : ℕ) (first page : XorPage) (waiting : List Waiting) → IsActed M.NEVER_FAILS (state_of targets first page waiting self.old.disk self.old.log) order.now admitted.now.command answer (state_of targets first page (waiting_left answer waiting) self.new.disk self.new.log)) }
        ensures few { IfOk result (IsFewWhereGone self.new.log.past) }
        ensures memory { OnErr result ((targets : ℕ) (first page : XorPage) (waiting : List Waiting) → state_of targets first page waiting self.new.disk self.new.log ≡ state_of targets first page waiting self.old.disk self.old.log) }
    {
        let ready = self.prepare(alloc, order.stamp)?;
        let act = BlockAct {
            cdb: admitted.cdb,
            row: admitted.command.first_block().unwrap_or(0),
            count: admitted.command.block_count().unwrap_or(0),
            stamp: ready.stamp,
        };
        match self.perform(alloc, order, &admitted.command, &act) {
            Ok(bytes) => Ok(Answer::Good {
                bytes,
                made: ready.made,
            }),
            Err(ActStop::Memory) => Err(Memory),
            Err(ActStop::Failed) => {
                let lost = self.fail(ready);
                Ok(Answer::Gone {
                    at: lost.at,
                    life: lost.life,
                    loss: self.log.discarded_at(order.owner),
                })
            }
        }
    }
}
