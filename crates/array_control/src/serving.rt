//! How a piece of a call is served: it is begun in the book, and then its plan is followed, one entry after the other.

ghost use Rattle.std.specs.Prelude.{◌≡◌, ◌<◌, ◌≤◌, ◌-◌, ◌*◌, List, Some, None, length, OnOk, IfOk};
ghost use Rattle.blocks_core.specs.Lists.{slice};
ghost use Rattle.stripe_layout.specs.Layout.{IsArray};
ghost use Rattle.array_journal.specs.May.{IsTask};
ghost use Rattle.host_requests.specs.Forms.{transfer_as, payload_bytes};
ghost use Rattle.array_journal.specs.declared.entry.Entry.{Entry};
ghost use Rattle.array_journal.specs.Calls.{IsNewCall};
ghost use Rattle.array_journal.specs.Run.{Grows, IsSetting};
ghost use Rattle.unit_plans.specs.Buses.{merged};
ghost use Rattle.unit_plans.specs.Follows.{HasAsked, CanDo};
ghost use Rattle.unit_plans.specs.Plans.{IsPlan, IsPlanned, HasNext, begun};
ghost use Rattle.array_control.specs.Begins.{pieces_by};
ghost use Rattle.array_control.specs.Arrays.{ActsOrReads, IsArrayOf, IsAskFor, IsCalm, IsAct, IsTransferOf, IsUnderWay, ComesTo, DidDo, WentOn, kept_by, want_for};

use crate::array::Array;
use crate::call_run::{CallRun, PieceRun};
use array_book::{Ask, Begun, Want};
use array_journal::{At, Task, Want as Service};
use blocks_core::{Bytes, Memory};
use host_requests::Transfer;
use std::alloc::Global;
use std::mem;
use stripe_layout::Piece;
use unit_plans::{BookAct, BookActed, Bus, Do, Plan, Reply, Said, Stop};

/// What a step of a call has come to.
#[derive(Clone, Copy, Debug, PartialEq, Eq)]
pub(crate) enum Advanced {
    /// One entry was made.
    Made,
    /// The piece has to wait for this command, and nothing was done.
    Blocked { by: u32 },
}

impl<B: Bus + Drop> Array<B> {
    /// Has done what a plan asks for.
    fn perform(&mut self, alloc: Global, pass: B::Pass, next: Do) -> Result<(Said, B::Pass), Stop>
        requires pass { B.IsPass self.old.bus pass }
        requires calm { IsCalm B.alone B.reliable (B.setting self.old.bus) (merged (B.history self.old.bus pass)) }
        requires next { IsAct next }
        requires may { CanDo (B.setting self.old.bus) (merged (B.history self.old.bus pass)) (merged (B.history self.old.bus pass)) next }
        ensures done { IfOk result (λ r. DidDo (B.setting self.old.bus) next r.0 (merged (B.history self.old.bus pass)) (merged (B.history self.new.bus r.1))) }
        ensures runs { IfOk result (λ r. Grows (B.setting self.old.bus).array (merged (B.history self.new.bus r.1))) }
        ensures pass { IfOk result (λ r. B.IsPass self.new.bus r.1) }
        ensures setting { B.setting self.new.bus ≡ B.setting self.old.bus }
        ensures same { self.new ≡ record self.old { bus = self.new.bus } }
    {
        match next {
            Do::Target { number, act } => {
                let (acted, pass) = self.bus.target(alloc, number, pass, act)?;
                Ok((Said::Target { acted }, pass))
            }
            Do::Book { act } => {
                let (acted, pass) = self.bus.book(alloc, pass, act)?;
                Ok((Said::Book { acted }, pass))
            }
            Do::Reply { .. } | Do::Anew => unreachable!(),
        }
    }

    /// Has done what a plan has asked for, and asks it what comes next.
    fn go_on(
        &mut self,
        alloc: Global,
        pass: B::Pass,
        doing: PieceRun,
    ) -> Result<(PieceRun, B::Pass), Stop>
        requires pass { B.IsPass self.old.bus pass }
        requires calm { IsCalm B.alone B.reliable (B.setting self.old.bus) (merged (B.history self.old.bus pass)) }
        requires plan { IsPlan doing.plan }
        requires asked { HasAsked (B.setting self.old.bus) doing.plan doing.next (merged (B.history self.old.bus pass)) }
        ensures went_on { IfOk result (λ r. WentOn (B.setting self.old.bus) doing.plan r.0 (merged (B.history self.old.bus pass)) (merged (B.history self.new.bus r.1))) }
        ensures plan { IfOk result (λ r. IsPlan r.0.plan) }
        ensures runs { IfOk result (λ r. Grows (B.setting self.old.bus).array (merged (B.history self.new.bus r.1))) }
        ensures pass { IfOk result (λ r. B.IsPass self.new.bus r.1) }
        ensures setting { B.setting self.new.bus ≡ B.setting self.old.bus }
        ensures same { self.new ≡ record self.old { bus = self.new.bus } }
    {
        let PieceRun { mut plan, next } = doing;
        let (said, pass) = self.perform(alloc, pass, next)?;
        let next = plan.next(alloc, Some(said))?;
        Ok((PieceRun { plan, next }, pass))
    }

    /// A call that moves blocks, before its first piece. Its number is new to the array. Takes no memory.
    pub(crate) fn call<'a>(&self, alloc: Global, number: u32, transfer: Transfer<'a>) -> CallRun<'a>
        requires array { IsArrayOf (B.setting self.now.bus) self.now.geometry self.now.mode self.now.max }
        requires in_range { IsSetting (B.setting self.now.bus).array }
        requires transfer { IsTransferOf (B.setting self.now.bus) (transfer_as transfer) }
        ensures same { (result.number ≡ number) × (result.transfer ≡ transfer.entry) }
        ensures starts { (journal : List Entry) → IsNewCall number journal → IsUnderWay (B.setting self.now.bus) result journal }
    {
        let count = self
            .geometry
            .piece_count(transfer.lba, transfer.count, self.max);
        CallRun {
            number,
            transfer,
            count,
            piece: 0,
            read: Bytes::new(alloc),
            doing: None,
        }
    }

    /// What is asked of the book about the next piece of a call.
    pub(crate) fn ask_for(&self, alloc: Global, run: &CallRun) -> Result<Ask, Memory>
        requires array { IsArrayOf (B.setting self.now.bus) self.now.geometry self.now.mode self.now.max }
        requires in_range { IsSetting (B.setting self.now.bus).array }
        requires transfer { IsTransferOf (B.setting self.now.bus) (transfer_as run.now.transfer) }
        requires more { run.now.piece < length (pieces_by (B.setting self.now.bus) (transfer_as run.now.transfer)) }
        ensures { IfOk result (λ ask. IsAskFor (B.setting self.now.bus) run.now.number (transfer_as run.now.transfer) run.now.piece ask) }
    {
        let transfer = run.transfer;
        let Some(piece) = self
            .geometry
            .piece_at(transfer.lba, transfer.count, self.max, run.piece)
        else {
            unreachable!();
        };
        let want = self.want_of(alloc, transfer, piece)?;
        Ok(Ask {
            call: run.number,
            piece: run.piece,
            want,
        })
    }

    /// To read a piece, or to write it with its part of the bytes that came.
    fn want_of(&self, alloc: Global, transfer: Transfer, piece: Piece) -> Result<Want, Memory>
        requires from { transfer.lba ≤ piece.first }
        ensures { IfOk result (λ want. want ≡ want_for transfer.entry.wanted piece (slice (payload_bytes transfer.entry.bytes) ((piece.first - transfer.entry.lba) * self.now.geometry.block) (piece.count * self.now.geometry.block))) }
    {
        if transfer.wanted != Service::Write {
            return Ok(Want::Read { piece });
        }
        let block = u64::from(self.geometry.block);
        let at = u64::from(piece.first - transfer.lba) * block;
        let bytes = transfer.bytes.part(at, u64::from(piece.count) * block);
        Ok(Want::Write {
            piece,
            bytes: bytes.copy(alloc)?,
        })
    }

    /// The plan of a command that was just opened, and what it asks for first.
    fn plan_of(
        &self,
        alloc: Global,
        task: Task,
        command: u32,
        opened: At,
    ) -> Result<PieceRun, Memory>
        requires array { IsArray self.now.geometry }
        requires sound { IsTask (record { geometry = self.now.geometry; buffer = 0; mode = self.now.mode }) task }
        requires planned { IsPlanned self.now.mode task.kind }
        ensures next { IfOk result (λ doing. HasNext (begun self.now.geometry self.now.mode task command opened) None doing.next doing.plan) }
        ensures plan { IfOk result (λ doing. IsPlan doing.plan) }
    {
        let mut plan = Plan::new(alloc, task, command, opened, self.mode, self.geometry);
        let next = plan.next(alloc, None)?;
        Ok(PieceRun { plan, next })
    }

    /// Begins the next piece of a call: a command is opened for it, and its plan asks for its first act.
    fn begin<'a>(
        &mut self,
        alloc: Global,
        pass: B::Pass,
        run: &mut CallRun<'a>,
    ) -> Result<(Advanced, B::Pass), Stop>
        requires array { IsArrayOf (B.setting self.old.bus) self.old.geometry self.old.mode self.old.max }
        requires pass { B.IsPass self.old.bus pass }
        requires calm { IsCalm B.alone B.reliable (B.setting self.old.bus) (merged (B.history self.old.bus pass)) }
        requires run { IsUnderWay (B.setting self.old.bus) run.old (merged (B.history self.old.bus pass)) }
        requires idle { run.old.doing ≡ None }
        requires more { run.old.piece < run.old.count }
        ensures comes { IfOk result (λ r. ComesTo (B.setting self.old.bus) run.old r.0 run.new (merged (B.history self.old.bus pass)) (merged (B.history self.new.bus r.1))) }
        ensures calm { IfOk result (λ r. IsCalm B.alone B.reliable (B.setting self.old.bus) (merged (B.history self.new.bus r.1))) }
        ensures pass { IfOk result (λ r. B.IsPass self.new.bus r.1) }
        ensures setting { B.setting self.new.bus ≡ B.setting self.old.bus }
        ensures same { self.new ≡ record self.old { bus = self.new.bus } }
    {
        let ask = self.ask_for(alloc, run)?;
        let (acted, pass) = self.bus.book(alloc, pass, BookAct::Begin { ask })?;
        let BookActed::Begun { answer } = acted else {
            unreachable!();
        };
        match answer {
            Begun::Opened { at, command, task } => {
                run.doing = Some(self.plan_of(alloc, task, command, at)?);
                Ok((Advanced::Made, pass))
            }
            Begun::Again { by } => Ok((Advanced::Blocked { by }, pass)),
            // Nothing is missing, so no piece of a sound call is refused; and a bus stops for want of memory.
            Begun::Refused { .. } | Begun::Memory => unreachable!(),
        }
    }

    /// Follows the plan of a piece by one entry.
    fn follow<'a>(
        &mut self,
        alloc: Global,
        pass: B::Pass,
        run: &mut CallRun<'a>,
        doing: PieceRun,
    ) -> Result<(Advanced, B::Pass), Stop>
        requires array { IsArrayOf (B.setting self.old.bus) self.old.geometry self.old.mode self.old.max }
        requires pass { B.IsPass self.old.bus pass }
        requires calm { IsCalm B.alone B.reliable (B.setting self.old.bus) (merged (B.history self.old.bus pass)) }
        requires run { IsUnderWay (B.setting self.old.bus) (record run.old { doing = Some doing }) (merged (B.history self.old.bus pass)) }
        requires taken { run.old.doing ≡ None }
        ensures comes { IfOk result (λ r. ComesTo (B.setting self.old.bus) (record run.old { doing = Some doing }) r.0 run.new (merged (B.history self.old.bus pass)) (merged (B.history self.new.bus r.1))) }
        ensures calm { IfOk result (λ r. IsCalm B.alone B.reliable (B.setting self.old.bus) (merged (B.history self.new.bus r.1))) }
        ensures pass { IfOk result (λ r. B.IsPass self.new.bus r.1) }
        ensures setting { B.setting self.new.bus ≡ B.setting self.old.bus }
        ensures same { self.new ≡ record self.old { bus = self.new.bus } }
    {
        let (doing, pass) = self.go_on(alloc, pass, doing)?;
        keep(run, doing)?;
        Ok((Advanced::Made, pass))
    }

    /// Goes on with a call that isn't at its end: its next piece is begun, or the one that is served is served further.
    pub(crate) fn advance<'a>(
        &mut self,
        alloc: Global,
        pass: B::Pass,
        run: &mut CallRun<'a>,
    ) -> Result<(Advanced, B::Pass), Stop>
        requires array { IsArrayOf (B.setting self.old.bus) self.old.geometry self.old.mode self.old.max }
        requires pass { B.IsPass self.old.bus pass }
        requires calm { IsCalm B.alone B.reliable (B.setting self.old.bus) (merged (B.history self.old.bus pass)) }
        requires run { IsUnderWay (B.setting self.old.bus) run.old (merged (B.history self.old.bus pass)) }
        requires more { run.old.piece < run.old.count }
        ensures comes { IfOk result (λ r. ComesTo (B.setting self.old.bus) run.old r.0 run.new (merged (B.history self.old.bus pass)) (merged (B.history self.new.bus r.1))) }
        ensures calm { IfOk result (λ r. IsCalm B.alone B.reliable (B.setting self.old.bus) (merged (B.history self.new.bus r.1))) }
        ensures pass { IfOk result (λ r. B.IsPass self.new.bus r.1) }
        ensures setting { B.setting self.new.bus ≡ B.setting self.old.bus }
        ensures same { self.new ≡ record self.old { bus = self.new.bus } }
    {
        match mem::replace(&mut run.doing, None) {
            Some(doing) => self.follow(alloc, pass, run, doing),
            None => self.begin(alloc, pass, run),
        }
    }
}

/// Keeps what a plan has asked for; a reply ends its piece, with what was read.
fn keep<'a>(run: &mut CallRun<'a>, doing: PieceRun) -> Result<(), Memory>
    requires taken { run.old.doing ≡ None }
    requires more { run.old.piece < run.old.count }
    requires next { ActsOrReads doing.next }
    ensures { OnOk result (run.new ≡ kept_by run.old doing doing.next) }
{
    let PieceRun { plan, next } = doing;
    match next {
        Do::Reply {
            reply: Reply::Good { bytes },
        } => {
            run.read.push_slice(bytes.as_slice())?;
            run.piece += 1;
        }
        Do::Target { number, act } => {
            let next = Do::Target { number, act };
            run.doing = Some(PieceRun { plan, next });
        }
        Do::Book { act } => {
            let next = Do::Book { act };
            run.doing = Some(PieceRun { plan, next });
        }
        Do::Reply { .. } | Do::Anew => unreachable!(),
    }
    Ok(())
}
