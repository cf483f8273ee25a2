//! REBUILD and REGENERATE (SBC): the sources are asked one after another, then the command is done.

ghost use Rattle.std.specs.Prelude.{◌≡◌, ◌≤◌, ◌++◌, [], ◌∷◌, ℕ, Some, length, IfOk, OnOk, OnErr};
ghost use Rattle.sbc_cdbs.specs.Cdbs.{cdb_bytes};
ghost use Rattle.xor_mode_page.specs.declared.pages.XorPage.{XorPage};
ghost use Rattle.xor_target.specs.Acts.{IsGatherable, IsGathering, IsFewWhereGone, IsPossible};
ghost use Rattle.xor_target.specs.Admission.{count_of};
ghost use Rattle.xor_target.specs.Answers.{IsActed, IsGathered, newest_stamp};
ghost use Rattle.xor_target.specs.Gathers.{done_order, read_request};
ghost use Rattle.xor_target.specs.declared.answer.Answer.TheVariants as answers;
ghost use Rattle.xor_target.specs.Resumes.{HasContinued, IsFinished, renamed};
ghost use Rattle.xor_target.specs.State.{state_of};

use super::LogicalUnit;
use crate::admission::Admitted;
use crate::answer::Answer;
use crate::gathering::Gathering;
use crate::order::Order;
use crate::waiting::Waiting;
use array_journal::Names;
use blocks_core::Memory;
use sector_media::Medium;
use std::alloc::Global;
use xor_params::Descriptor;

impl<M: Medium + Drop> LogicalUnit<M> {
    /// Begins to gather, and asks the first source; what has no sources is done at once.
    pub fn gather(
        &mut self,
        alloc: Global,
        order: &Order,
        admitted: &Admitted,
    ) -> Result<Answer, Memory>
        requires { IsGatherable self.old.logged.disk order.now admitted.now }
        ensures gathered { IfOk result (λ answer. (targets : ℕ) (first page : XorPage) → IsGathered M.NEVER_FAILS (state_of targets first page self.old.waiting.list self.old.logged.disk self.old.logged.log) order.now admitted.now.command answer (state_of targets first page self.new.waiting.list self.new.logged.disk self.new.logged.log)) }
        ensures few { IfOk result (IsFewWhereGone self.new.logged.log.past) }
        ensures memory { OnErr result ((targets : ℕ) (first page : XorPage) → state_of targets first page self.new.waiting.list self.new.logged.disk self.new.logged.log ≡ state_of targets first page self.old.waiting.list self.old.logged.disk self.old.logged.log) }
    {
        let gathering = Gathering::new(alloc, order, admitted, self.logged.disk.block())?;
        match gathering.first() {
            Some(source) => self.ask_first(alloc, gathering, source, order.stamp),
            None => self.do_alone(alloc, &gathering, order.stamp),
        }
    }

    /// Does a command that has no sources, with its intermediate data alone.
    fn do_alone(
        &mut self,
        alloc: Global,
        gathering: &Gathering,
        stamp: u64,
    ) -> Result<Answer, Memory>
        requires sent { cdb_bytes gathering.now.admitted.cdb ≡ gathering.now.order.cdb }
        requires possible { IsPossible self.old.logged.disk (done_order gathering.now [] [] stamp) gathering.now.admitted.command }
        ensures acted { IfOk result (λ answer. (targets : ℕ) (first page : XorPage) → IsActed M.NEVER_FAILS (state_of targets first page self.old.waiting.list self.old.logged.disk self.old.logged.log) (done_order gathering.now [] [] stamp) gathering.now.admitted.command answer (state_of targets first page self.new.waiting.list self.new.logged.disk self.new.logged.log)) }
        ensures few { IfOk result (IsFewWhereGone self.new.logged.log.past) }
        ensures memory { OnErr result ((targets : ℕ) (first page : XorPage) → state_of targets first page self.new.waiting.list self.new.logged.disk self.new.logged.log ≡ state_of targets first page self.old.waiting.list self.old.logged.disk self.old.logged.log) }
    {
        let order = gathering.done_order(alloc, &Names::new(alloc), &[], stamp)?;
        self.act(alloc, &order, &gathering.admitted())
    }

    /// Asks the first source; the command waits for it.
    fn ask_first(
        &mut self,
        alloc: Global,
        gathering: Gathering,
        source: Descriptor,
        seen: u64,
    ) -> Result<Answer, Memory>
        requires { count_of gathering.admitted.command ≤ 65535 }
        ensures asks { IfOk result (λ answer. answer ≡ answers.Peer (read_request self.old.logged.log.number (newest_stamp self.old.logged.log.past seen) gathering source) []) }
        ensures waits { OnOk result (self.new.waiting.list ≡ self.old.waiting.list ++ record { owner = gathering.order.owner; made = []; gathering = Some gathering } ∷ []) }
        ensures memory { OnErr result (self.new.waiting.list ≡ self.old.waiting.list) }
        ensures same { self.new.logged ≡ self.old.logged }
    {
        let log = &self.logged.log;
        let request = gathering.request(alloc, source, log.number(), log.newest(seen))?;
        self.waiting.reserve()?;
        self.waiting.begin(Waiting {
            owner: request.order.owner,
            made: Names::new(alloc),
            gathering: Some(gathering),
        });
        Ok(Answer::Peer {
            request,
            made: Names::new(alloc),
        })
    }

    /// Takes the blocks of the source that an owner's gathering asked, with the entries that this made, and asks
    /// the next source, or does the command. Want of memory leaves the gathering as it was.
    pub fn gathered(
        &mut self,
        alloc: Global,
        owner: u32,
        bytes: &[u8],
        made: &Names,
        seen: u64,
    ) -> Result<Answer, Memory>
        requires { IsGathering self.old.logged.disk owner (length bytes.now) self.old.waiting.list }
        ensures continued { IfOk result (λ answer. (targets : ℕ) (first page : XorPage) → HasContinued M.NEVER_FAILS (state_of targets first page self.old.waiting.list self.old.logged.disk self.old.logged.log) owner bytes.now made.now seen answer (state_of targets first page self.new.waiting.list self.new.logged.disk self.new.logged.log)) }
        ensures few { IfOk result (IsFewWhereGone self.new.logged.log.past) }
        ensures memory { OnErr result ((targets : ℕ) (first page : XorPage) → state_of targets first page self.new.waiting.list self.new.logged.disk self.new.logged.log ≡ state_of targets first page self.old.waiting.list self.old.logged.disk self.old.logged.log) }
    {
        let waiting = self.waiting.of(owner).unwrap();
        let Some(gathering) = &waiting.gathering else {
            unreachable!()
        };
        let made = waiting.made_with(alloc, made)?;
        let Some(source) = gathering.next() else {
            let admitted = gathering.admitted();
            let order = gathering.done_order(alloc, &made, bytes, seen)?;
            return self.finish(alloc, order, &admitted, made);
        };
        let log = &self.logged.log;
        let request = gathering.request(alloc, source, log.number(), log.newest(seen))?;
        let kept = made.copy(alloc)?;
        self.waiting.accept(owner, kept, bytes);
        Ok(Answer::Peer { request, made })
    }

    /// Does the command of a gathering that has all its blocks; it waits no longer. `made` are the entries that
    /// its requests made.
    fn finish(
        &mut self,
        alloc: Global,
        order: Order,
        admitted: &Admitted,
        made: Names,
    ) -> Result<Answer, Memory>
        requires sent { cdb_bytes admitted.now.cdb ≡ order.cdb }
        requires possible { IsPossible self.old.logged.disk order admitted.now.command }
        ensures finished { IfOk result (λ answer. (targets : ℕ) (first page : XorPage) → IsFinished M.NEVER_FAILS (state_of targets first page self.old.waiting.list self.old.logged.disk self.old.logged.log) order admitted.now.command made answer (state_of targets first page self.new.waiting.list self.new.logged.disk self.new.logged.log)) }
        ensures few { IfOk result (IsFewWhereGone self.new.logged.log.past) }
        ensures memory { OnErr result ((targets : ℕ) (first page : XorPage) → state_of targets first page self.new.waiting.list self.new.logged.disk self.new.logged.log ≡ state_of targets first page self.old.waiting.list self.old.logged.disk self.old.logged.log) }
    {
        let mut made = made;
        let name = self.logged.next_name(order.stamp)?;
        made.push(name)?;
        let answer = self.logged.act(alloc, &order, admitted)?;
        self.waiting.end(order.owner);
        self.waiting.leave(&answer);
        Ok(named(answer, made))
    }
}

/// GOOD with these entries, or what else was answered.
fn named(answer: Answer, made: Names) -> Answer
    ensures { result ≡ renamed made answer }
{
    match answer {
        Answer::Good { bytes, .. } => Answer::Good { bytes, made },
        answer => answer,
    }
}
