//! XDWRITE EXTENDED (SBC): the delta is sent to the secondary target, and its answer waited for.

ghost use Rattle.std.specs.Prelude.{◌≡◌, ◌≤◌, ◌+◌, ◌∷◌, [], ℕ, IfOk, OnErr};
ghost use Rattle.sbc_cdbs.specs.Cdbs.{cdb_bytes};
ghost use Rattle.xor_mode_page.specs.declared.pages.XorPage.{XorPage};
ghost use Rattle.xor_target.specs.Acts.{IsPossible, IsFewWhereGone};
ghost use Rattle.xor_target.specs.Answers.{IsSent, next_stamp, fold_order, fold_request};
ghost use Rattle.xor_target.specs.declared.answer.Answer.TheVariants as answers;
ghost use Rattle.xor_target.specs.Sending.{sent_answer, waiting_sent};
ghost use Rattle.xor_target.specs.State.{state_of};

use super::LogicalUnit;
use crate::admission::Admitted;
use crate::answer::Answer;
use crate::failure::communication_failure;
use crate::logged_disk::LoggedDisk;
use crate::order::{Order, PeerRequest};
use crate::waiting::Waiting;
use array_journal::{At, Names};
use blocks_core::{Bytes, Memory};
use sbc_cdbs::{Command, encode};
use sector_media::Medium;
use std::alloc::Global;

/// Where a delta is folded: the first row, how many blocks it has, and the target.
#[derive(Clone, Copy, Debug)]
pub struct Secondary {
    pub row: u32,
    pub count: u16,
    pub target: u8,
}

/// What sending a delta takes besides the delta itself, taken before anything is done: the name of the entry that
/// makes the delta, the same for the command that waits, and the request, still without bytes.
#[derive(Debug, Drop)]
pub struct Sending {
    pub name: At,
    pub kept: Names,
    pub request: PeerRequest,
}

impl<M: Medium + Drop> LoggedDisk<M> {
    /// Takes what sending the delta of the next entry takes.
    fn sending(&self, alloc: Global, order: &Order, secondary: Secondary) -> Result<Sending, Memory>
        ensures name { IfOk result (λ s. s.name ≡ record { stamp = next_stamp self.now.log.past order.now.stamp; lock = self.now.log.number + 1 }) }
        ensures kept { IfOk result (λ s. s.kept ≡ s.name ∷ []) }
        ensures request { IfOk result (λ s. s.request ≡ fold_request self.now.log.number s.name order.now secondary.row secondary.count secondary.target []) }
    {
        let name = self.next_name(order.stamp)?;
        Ok(Sending {
            name,
            kept: one_name(alloc, name)?,
            request: PeerRequest {
                from: self.log.number(),
                to: secondary.target,
                order: fold_order(alloc, order, name, secondary)?,
            },
        })
    }
}

/// An XPWRITE that rests on an entry, still without bytes.
fn fold_order(alloc: Global, order: &Order, name: At, secondary: Secondary) -> Result<Order, Memory>
    ensures { IfOk result (λ fold. fold ≡ fold_order name order.now secondary.row secondary.count []) }
{
    let fold = encode(&Command::XpWrite {
        dpo: false,
        fua: false,
        lba: secondary.row,
        length: secondary.count,
    });
    Ok(Order {
        owner: order.owner,
        opened: order.opened,
        names: one_name(alloc, name)?,
        stamp: name.stamp,
        cdb: Bytes::from_slice(alloc, fold.as_slice())?,
        bytes: Bytes::new(alloc),
    })
}

fn one_name(alloc: Global, name: At) -> Result<Names, Memory>
    ensures { IfOk result (λ names. names ≡ name ∷ []) }
{
    let mut names = Names::new(alloc);
    names.push(name)?;
    Ok(names)
}

impl<M: Medium + Drop> LogicalUnit<M> {
    /// Does an XDWRITE EXTENDED, and has its delta folded at the secondary target, unless that request is to be
    /// dropped. Want of memory leaves all as it was.
    pub fn send(
        &mut self,
        alloc: Global,
        order: &Order,
        admitted: &Admitted,
        secondary: Secondary,
    ) -> Result<Answer, Memory>
        requires sent { cdb_bytes admitted.now.cdb ≡ order.now.cdb }
        requires possible { IsPossible self.old.logged.disk order.now admitted.now.command }
        ensures sent { IfOk result (λ answer. (targets : ℕ) (first page : XorPage) → IsSent M.NEVER_FAILS (state_of targets first page self.old.waiting.list self.old.logged.disk self.old.logged.log) order.now admitted.now.command secondary.row secondary.count secondary.target answer (state_of targets first page self.new.waiting.list self.new.logged.disk self.new.logged.log)) }
        ensures few { IfOk result (IsFewWhereGone self.new.logged.log.past) }
        ensures memory { OnErr result ((targets : ℕ) (first page : XorPage) → state_of targets first page self.new.waiting.list self.new.logged.disk self.new.logged.log ≡ state_of targets first page self.old.waiting.list self.old.logged.disk self.old.logged.log) }
    {
        let dropped = self.logged.log.drops_next();
        let sending = self.logged.sending(alloc, order, secondary)?;
        self.waiting.reserve()?;
        let answer = self.logged.act(alloc, order, admitted)?;
        Ok(self.sent(order.owner, answer, sending, dropped))
    }

    /// The answer to an XDWRITE EXTENDED that was done, or failed with this answer; it waits where it sends its
    /// delta. A loss of the disk ends all gatherings.
    fn sent(&mut self, owner: u32, answer: Answer, sending: Sending, dropped: bool) -> Answer
        requires { 1 ≤ self.old.waiting.room }
        ensures says { result ≡ sent_answer sending dropped answer }
        ensures waits { self.new.waiting.list ≡ waiting_sent self.old.waiting.list owner sending dropped answer }
        ensures same { self.new.logged ≡ self.old.logged }
    {
        match answer {
            Answer::Good { bytes, made } => {
                self.made_delta(owner, bytes, made, sending, dropped)
            }
            Answer::Gone { at, life, loss } => {
                self.waiting.discard_gatherings();
                Answer::Gone { at, life, loss }
            }
            answer => answer,
        }
    }

    /// A delta that was made is sent, unless that request is dropped.
    fn made_delta(
        &mut self,
        owner: u32,
        bytes: Bytes,
        made: Names,
        sending: Sending,
        dropped: bool,
    ) -> Answer
        requires { 1 ≤ self.old.waiting.room }
        ensures says { result ≡ sent_answer sending dropped (answers.Good bytes made) }
        ensures waits { self.new.waiting.list ≡ waiting_sent self.old.waiting.list owner sending dropped (answers.Good bytes made) }
        ensures same { self.new.logged ≡ self.old.logged }
    {
        if dropped {
            return Answer::Check {
                sense: communication_failure(),
                made,
                loss: Some(sending.name),
            };
        }
        let Sending {
            kept,
            mut request,
            ..
        } = sending;
        self.waiting.begin(Waiting {
            owner,
            made: kept,
            gathering: None,
        });
        request.order.bytes = bytes;
        Answer::Peer { request, made }
    }
}
