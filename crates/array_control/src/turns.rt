//! Turns of a host: in each it goes on with its next call by at most one entry.

ghost use Rattle.std.specs.Prelude.{◌≡◌, ◌≢◌, ◌<◌, ◌≤◌, ◌+◌, ◌^◌, [], true, ℕ, IsTrue, List, Option, Some, None, drop, length, OnOk, IfOk, MatchOption};
ghost use Rattle.array_journal.specs.declared.entry.Entry.{Entry};
ghost use Rattle.array_journal.specs.Calls.{IsNewCall};
ghost use Rattle.array_journal.specs.Run.{IsSetting};
ghost use Rattle.host_requests.specs.Forms.{sense_of, transfer_as};
ghost use Rattle.host_requests.specs.Requests.{Fails};
ghost use Rattle.unit_plans.specs.Buses.{merged};
ghost use Rattle.array_control.specs.Arrays.{HasGrownBy, IsArrayOf, IsCalm, IsHeldUpBy, IsTransferOf};
ghost use Rattle.array_control.specs.Begins.{IsOfHost, pieces_by};
ghost use Rattle.array_control.specs.HostCalls.{calls_from, left_of, next_as, settled};
ghost use Rattle.array_control.specs.Progress.{IsRefused};
ghost use Rattle.array_control.specs.declared.turns.Work.TheVariants as works;
ghost use Rattle.array_control.specs.Turns.{AreOfHosts, HasComeTo, HasTurned, HasMadeFor, HasServed, IsAtWork, IsFirstOf, IsFirstWork, IsRunnable, IsSameHost, StandsAt, Tells, request_in, turned_by, upcoming};

use crate::array::Array;
use crate::call_run::CallRun;
use crate::host_run::{HostRun, NextCall};
use crate::serving::Advanced;
use array_book::{Ask, Begun, Want};
use blocks_core::{Bytes, Memory};
use host_requests::{Request, RequestFault, request_of};
use host_scripts::Call;
use std::alloc::Global;
use unit_plans::{BookAct, BookActed, Bus, Reply, Stop};

/// What a turn of a host has come to.
#[derive(Clone, Copy, Debug, PartialEq, Eq)]
pub enum Turned {
    /// One entry was made.
    Made,
    /// The host's next act has to wait for this command, and nothing was done.
    Blocked { by: u32 },
    /// No call is left, and nothing was done.
    Finished,
}

/// What is to be done for a call.
#[derive(Debug, Drop)]
pub(crate) enum Work<'a> {
    /// To move its blocks.
    Moves { call: CallRun<'a> },
    /// To refuse it for the test that it fails.
    Fails { number: u32, fault: RequestFault },
}

impl<B: Bus + Drop> Array<B> {
    /// What is to be done for a call of a host: nothing, where it is of no blocks.
    fn first_work<'a>(&self, alloc: Global, next: NextCall<'a>) -> Option<Work<'a>>
        requires array { IsArrayOf (B.setting self.now.bus) self.now.geometry self.now.mode self.now.max }
        requires in_range { IsSetting (B.setting self.now.bus).array }
        requires of_host { IsOfHost (request_in (B.setting self.now.bus) (next_as next)) }
        ensures { IsFirstWork (B.setting self.now.bus) (next_as next.entry) result }
    {
        let number = next.number;
        match request_of(&self.geometry, next.action) {
            Request::Illegal { fault } => Some(Work::Fails { number, fault }),
            Request::Blocks { transfer } => {
                let call = self.call(alloc, number, transfer);
                if call.is_done() {
                    return None;
                }
                Some(Work::Moves { call })
            }
            _ => unreachable!(),
        }
    }

    /// Comes to the host's next call that has something to do, where none was taken up. Those before it, of no blocks, are told that
    /// they are good: no entry is made for them.
    fn come_to_work<'a>(
        &self,
        alloc: Global,
        run: &mut HostRun<'a>,
    ) -> Result<Option<Work<'a>>, Memory>
        requires array { IsArrayOf (B.setting self.now.bus) self.now.geometry self.now.mode self.now.max }
        requires in_range { IsSetting (B.setting self.now.bus).array }
        requires hosts { AreOfHosts (B.setting self.now.bus) (left_of run.old) }
        requires idle { run.old.current ≡ None }
        ensures { IfOk result (λ work. (journal : List Entry) → StandsAt (B.setting self.now.bus) run.old journal → HasComeTo (B.setting self.now.bus) run.old run.new work journal) }
    {
        while let Some(next) = run.come_to_call() {
            if let Some(work) = self.first_work(alloc, next) {
                return Ok(Some(work));
            }
            let bytes = Bytes::new(alloc);
            run.tell(Reply::Good { bytes })?;
        }
        Ok(None)
    }

    /// The host's next work: to go on with the call that was taken up, or else its next call that has something to do.
    fn next_work<'a>(
        &self,
        alloc: Global,
        run: &mut HostRun<'a>,
    ) -> Result<Option<Work<'a>>, Memory>
        requires array { IsArrayOf (B.setting self.now.bus) self.now.geometry self.now.mode self.now.max }
        requires in_range { IsSetting (B.setting self.now.bus).array }
        requires hosts { AreOfHosts (B.setting self.now.bus) (left_of run.old) }
        ensures { IfOk result (λ work. (journal : List Entry) → StandsAt (B.setting self.now.bus) run.old journal → HasComeTo (B.setting self.now.bus) run.old run.new work journal) }
    {
        match run.take_current() {
            Some(call) => Ok(Some(Work::Moves { call })),
            None => self.come_to_work(alloc, run),
        }
    }

    /// Refuses a call that fails a test, by one entry.
    pub(crate) fn refuse(
        &mut self,
        alloc: Global,
        pass: B::Pass,
        number: u32,
        fault: RequestFault,
    ) -> Result<B::Pass, Stop>
        requires pass { B.IsPass self.old.bus pass }
        requires calm { IsCalm B.alone B.reliable (B.setting self.old.bus) (merged (B.history self.old.bus pass)) }
        requires new { IsNewCall number (merged (B.history self.old.bus pass)) }
        ensures grown { IfOk result (λ back. HasGrownBy (B.setting self.old.bus) number (Fails (sense_of fault)) (merged (B.history self.old.bus pass)) (merged (B.history self.new.bus back))) }
        ensures refused { IfOk result (λ back. IsRefused (B.setting self.old.bus).array.geometry number (sense_of fault) (merged (B.history self.new.bus back))) }
        ensures calm { IfOk result (λ back. IsCalm B.alone B.reliable (B.setting self.old.bus) (merged (B.history self.new.bus back))) }
        ensures pass { IfOk result (λ back. B.IsPass self.new.bus back) }
        ensures setting { B.setting self.new.bus ≡ B.setting self.old.bus }
        ensures same { self.new ≡ record self.old { bus = self.new.bus } }
    {
        let want = Want::Illegal {
            sense: fault.sense(),
        };
        let ask = Ask {
            call: number,
            piece: 0,
            want,
        };
        let (acted, pass) = self.bus.book(alloc, pass, BookAct::Begin { ask })?;
        let BookActed::Begun { answer } = acted else {
            unreachable!();
        };
        match answer {
            Begun::Refused { .. } => Ok(pass),
            _ => unreachable!(),
        }
    }

    /// Refuses the host's next call, and tells it so.
    fn refuse_next<'a>(
        &mut self,
        alloc: Global,
        pass: B::Pass,
        run: &mut HostRun<'a>,
        number: u32,
        fault: RequestFault,
    ) -> Result<B::Pass, Stop>
        requires pass { B.IsPass self.old.bus pass }
        requires calm { IsCalm B.alone B.reliable (B.setting self.old.bus) (merged (B.history self.old.bus pass)) }
        requires at_work { IsAtWork (B.setting self.old.bus) run.old (Some (works.Fails number fault)) (merged (B.history self.old.bus pass)) }
        ensures acted { IfOk result (λ back. HasMadeFor (B.setting self.old.bus) (left_of run.old) (merged (B.history self.old.bus pass)) (merged (B.history self.new.bus back))) }
        ensures stands { IfOk result (λ back. StandsAt (B.setting self.old.bus) run.new (merged (B.history self.new.bus back))) }
        ensures run { OnOk result (IsSameHost run.old run.new) }
        ensures calm { IfOk result (λ back. IsCalm B.alone B.reliable (B.setting self.old.bus) (merged (B.history self.new.bus back))) }
        ensures pass { IfOk result (λ back. B.IsPass self.new.bus back) }
        ensures setting { B.setting self.new.bus ≡ B.setting self.old.bus }
        ensures same { self.new ≡ record self.old { bus = self.new.bus } }
    {
        let pass = self.refuse(alloc, pass, number, fault)?;
        run.tell(Reply::Check {
            sense: fault.sense(),
        })?;
        Ok(pass)
    }

    /// Goes on with the host's next call.
    fn serve<'a>(
        &mut self,
        alloc: Global,
        pass: B::Pass,
        run: &mut HostRun<'a>,
        mut call: CallRun<'a>,
    ) -> Result<(Turned, B::Pass), Stop>
        requires array { IsArrayOf (B.setting self.old.bus) self.old.geometry self.old.mode self.old.max }
        requires pass { B.IsPass self.old.bus pass }
        requires calm { IsCalm B.alone B.reliable (B.setting self.old.bus) (merged (B.history self.old.bus pass)) }
        requires at_work { IsAtWork (B.setting self.old.bus) run.old (Some (works.Moves call)) (merged (B.history self.old.bus pass)) }
        ensures turned { IfOk result (λ r. HasServed (B.setting self.old.bus) (left_of run.old) call.entry r.0 (merged (B.history self.old.bus pass)) (merged (B.history self.new.bus r.1))) }
        ensures stands { IfOk result (λ r. StandsAt (B.setting self.old.bus) run.new (merged (B.history self.new.bus r.1))) }
        ensures run { OnOk result (IsSameHost run.old run.new) }
        ensures calm { IfOk result (λ r. IsCalm B.alone B.reliable (B.setting self.old.bus) (merged (B.history self.new.bus r.1))) }
        ensures pass { IfOk result (λ r. B.IsPass self.new.bus r.1) }
        ensures setting { B.setting self.new.bus ≡ B.setting self.old.bus }
        ensures same { self.new ≡ record self.old { bus = self.new.bus } }
    {
        let (advanced, pass) = self.advance(alloc, pass, &mut call)?;
        settle(run, call)?;
        Ok((turned_by(advanced), pass))
    }

    /// Lets a host act once. Its calls of no blocks that come up are told that they are good, without an entry. A call is told its
    /// reply with its last entry.
    pub fn turn<'a>(
        &mut self,
        alloc: Global,
        pass: B::Pass,
        run: &mut HostRun<'a>,
    ) -> Result<(Turned, B::Pass), Stop>
        requires array { IsArrayOf (B.setting self.old.bus) self.old.geometry self.old.mode self.old.max }
        requires pass { B.IsPass self.old.bus pass }
        requires calm { IsCalm B.alone B.reliable (B.setting self.old.bus) (merged (B.history self.old.bus pass)) }
        requires stands { StandsAt (B.setting self.old.bus) run.old (merged (B.history self.old.bus pass)) }
        ensures turned { IfOk result (λ r. HasTurned (B.setting self.old.bus) run.old r.0 run.new (merged (B.history self.old.bus pass)) (merged (B.history self.new.bus r.1))) }
        ensures stands { IfOk result (λ r. StandsAt (B.setting self.old.bus) run.new (merged (B.history self.new.bus r.1))) }
        ensures run { OnOk result (IsSameHost run.old run.new) }
        ensures calm { IfOk result (λ r. IsCalm B.alone B.reliable (B.setting self.old.bus) (merged (B.history self.new.bus r.1))) }
        ensures pass { IfOk result (λ r. B.IsPass self.new.bus r.1) }
        ensures setting { B.setting self.new.bus ≡ B.setting self.old.bus }
        ensures same { self.new ≡ record self.old { bus = self.new.bus } }
    {
        match self.next_work(alloc, run)? {
            Some(Work::Moves { call }) => self.serve(alloc, pass, run, call),
            Some(Work::Fails { number, fault }) => {
                let pass = self.refuse_next(alloc, pass, run, number, fault)?;
                Ok((Turned::Made, pass))
            }
            None => Ok((Turned::Finished, pass)),
        }
    }

    /// The first work among the calls of a host that are left, from a place among all calls on.
    fn work_from<'a>(
        &self,
        alloc: Global,
        calls: &'a [Call],
        host: u8,
        from: usize,
    ) -> Option<Work<'a>>
        requires array { IsArrayOf (B.setting self.now.bus) self.now.geometry self.now.mode self.now.max }
        requires in_range { IsSetting (B.setting self.now.bus).array }
        requires short { length calls.now < 2 ^ 32 }
        requires within { from ≤ length calls.now }
        requires hosts { AreOfHosts (B.setting self.now.bus) (calls_from host (from + 1) (drop from calls.now)) }
        ensures { IsFirstOf (B.setting self.now.bus) (upcoming (B.setting self.now.bus) (calls_from host (from + 1) (drop from calls.now))) result }
    {
        for place in from..calls.len() {
            if calls[place].host == host {
                let next = NextCall {
                    number: place as u32 + 1,
                    action: &calls[place].action,
                };
                if let Some(work) = self.first_work(alloc, next) {
                    return Some(work);
                }
            }
        }
        None
    }

    /// Whether the piece that a call is at can be gone on with now. An act of a command that is open never waits.
    fn is_free(&mut self, alloc: Global, call: &CallRun) -> Result<bool, Memory>
        requires array { IsArrayOf (B.setting self.old.bus) self.old.geometry self.old.mode self.old.max }
        requires in_range { IsSetting (B.setting self.old.bus).array }
        requires transfer { IsTransferOf (B.setting self.old.bus) (transfer_as call.now.transfer) }
        requires more { call.now.piece < length (pieces_by (B.setting self.old.bus) (transfer_as call.now.transfer)) }
        ensures free { IfOk result (λ free. IsTrue B.alone → (pass : B.Pass) → B.IsPass self.old.bus pass → Tells free ((by : ℕ) → IsHeldUpBy (B.setting self.old.bus) call.now by (merged (B.history self.old.bus pass)) → ⊥)) }
        ensures same { self.new ≡ self.old }
    {
        if call.doing.is_some() {
            return Ok(true);
        }
        let ask = self.ask_for(alloc, call)?;
        Ok(self.bus.look(&ask).is_none())
    }

    /// Whether a host has something to do, and its next act wouldn't have to wait. Nothing is changed.
    pub fn runnable(&mut self, alloc: Global, run: &HostRun) -> Result<bool, Memory>
        requires array { IsArrayOf (B.setting self.old.bus) self.old.geometry self.old.mode self.old.max }
        requires in_range { IsSetting (B.setting self.old.bus).array }
        requires stands { (journal : List Entry) × StandsAt (B.setting self.old.bus) run.now journal }
        ensures runs { IfOk result (λ runs. IsTrue B.alone → (pass : B.Pass) → B.IsPass self.old.bus pass → Tells runs (IsRunnable (B.setting self.old.bus) run.now (merged (B.history self.old.bus pass)))) }
        ensures same { self.new ≡ self.old }
    {
        if let Some(call) = run.current() {
            return self.is_free(alloc, call);
        }
        let (calls, from) = run.rest();
        match self.work_from(alloc, calls, run.host(), from) {
            Some(Work::Moves { call }) => self.is_free(alloc, &call),
            Some(Work::Fails { .. }) => Ok(true),
            None => Ok(false),
        }
    }
}

/// Tells a call its reply where all its pieces are done, and else keeps it.
fn settle<'a>(run: &mut HostRun<'a>, call: CallRun<'a>) -> Result<(), Memory>
    requires { 0 < length (left_of run.old) }
    ensures { OnOk result (run.new ≡ settled run.old call.entry) }
{
    if call.is_done() {
        let bytes = call.into_read();
        return run.tell(Reply::Good { bytes });
    }
    run.keep(call);
    Ok(())
}

/// A turn comes to what the step of its call has come to.
fn turned_by(advanced: Advanced) -> Turned
    ensures { result ≡ turned_by advanced }
{
    match advanced {
        Advanced::Made => Turned::Made,
        Advanced::Blocked { by } => Turned::Blocked { by },
    }
}
