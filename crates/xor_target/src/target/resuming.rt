//! What other targets answered to requests of this one.

ghost use Rattle.std.specs.Prelude.{◌≡◌, ℕ, List, true, false, Some, None, MatchOption, IfOk, OnErr};
ghost use Rattle.xor_target.specs.Resumes.{IsResumed, HasContinued, IsFitting, may_resume, ended_answer, is_sending, goes_on};
ghost use Rattle.xor_target.specs.State.{is_waiting};
ghost use Rattle.xor_target.specs.declared.answer.PeerBack.TheVariants as back;

use super::Target;
use crate::answer::{Answer, PeerBack};
use crate::failure::communication_failure;
use crate::waiting::Waiting;
use array_journal::Names;
use blocks_core::{Bytes, Memory};
use sector_media::Medium;
use std::alloc::Global;

impl<M: Medium + Drop> Target<M> {
    /// Goes on with the command of an owner that waits, by what another target answered to its request. `stamp`
    /// is the greatest that the sender has seen, of the other target's entries too. That the request failed takes
    /// no memory. Want of memory leaves the command waiting.
    pub fn resume(&mut self, alloc: Global, owner: u32, back: &PeerBack, stamp: u64) -> Answer
        requires may { may_resume self.old owner ≡ true }
        requires fits { IsFitting self.old owner back.now }
        ensures { IsResumed M.NEVER_FAILS self.old owner back.now stamp result self.new }
    {
        if let Some(answer) = self.ended(owner) {
            return answer;
        }
        match back {
            PeerBack::Good { bytes, made } => self.answered(alloc, owner, bytes, made, stamp),
            PeerBack::Failed => self.refused(owner),
        }
    }

    /// What is said to an owner whose command doesn't go on: it was shut, or the disk lost.
    fn ended(&self, owner: u32) -> Option<Answer>
        ensures { MatchOption result (goes_on self.now owner ≡ true) (λ answer. (goes_on self.now owner ≡ false) × (ended_answer self.now owner ≡ Some answer)) }
    {
        if self.unit.waiting.sends(owner) {
            return None;
        }
        if let Some(answer) = self.shut_row(owner) {
            return Some(answer);
        }
        self.gone_row(owner)
    }

    /// The other target did what it was asked, by these entries.
    fn answered(
        &mut self,
        alloc: Global,
        owner: u32,
        bytes: &Bytes,
        made: &Names,
        stamp: u64,
    ) -> Answer
        requires goes_on { goes_on self.old owner ≡ true }
        requires waits { is_waiting self.old owner ≡ true }
        requires fits { IsFitting self.old owner (back.Good bytes.now made.now) }
        ensures { IsResumed M.NEVER_FAILS self.old owner (back.Good bytes.now made.now) stamp result self.new }
    {
        if self.unit.waiting.sends(owner) {
            return self.folded(alloc, owner, made);
        }
        match self.gathered(alloc, owner, bytes, made, stamp) {
            Ok(answer) => answer,
            Err(Memory) => Answer::Memory,
        }
    }

    /// A source gave its blocks.
    fn gathered(
        &mut self,
        alloc: Global,
        owner: u32,
        bytes: &Bytes,
        made: &Names,
        stamp: u64,
    ) -> Result<Answer, Memory>
        requires sound { ended_answer self.old owner ≡ None }
        requires waits { is_waiting self.old owner ≡ true }
        requires gathers { is_sending self.old owner ≡ false }
        requires fits { IsFitting self.old owner (back.Good bytes.now made.now) }
        ensures continued { IfOk result (λ answer. HasContinued M.NEVER_FAILS self.old owner bytes.now made.now stamp answer self.new) }
        ensures memory { OnErr result (self.new ≡ self.old) }
    {
        self.unit
            .gathered(alloc, owner, bytes.as_slice(), made, stamp)
    }

    /// The delta was folded at the secondary target, by these entries.
    fn folded(&mut self, alloc: Global, owner: u32, made: &Names) -> Answer
        requires { is_sending self.old owner ≡ true }
        ensures { (bytes : List ℕ) (seen : ℕ) → IsResumed M.NEVER_FAILS self.old owner (back.Good bytes made.now) seen result self.new }
    {
        let waiting = self.unit.waiting.of(owner).unwrap();
        let Ok(made) = waiting.made_with(alloc, made) else {
            return Answer::Memory;
        };
        self.unit.waiting.end(owner);
        Answer::Good {
            bytes: Bytes::new(alloc),
            made,
        }
    }

    /// The request failed; the entries that the command made stand.
    fn refused(&mut self, owner: u32) -> Answer
        requires goes_on { goes_on self.old owner ≡ true }
        requires waits { is_waiting self.old owner ≡ true }
        ensures { (seen : ℕ) → IsResumed M.NEVER_FAILS self.old owner back.Failed seen result self.new }
    {
        let loss = self.unit.logged.log.discarded_at(owner);
        let Waiting { made, .. } = self.unit.waiting.end(owner).unwrap();
        Answer::Check {
            sense: communication_failure(),
            made,
            loss,
        }
    }
}
