//! The plan of one command: its acts in order, its close and its reply.

ghost use Rattle.std.specs.Prelude.{◌≡◌, ◌++◌, [], Some, OnOk, IfOk};
ghost use Rattle.stripe_layout.specs.Layout.{IsArray};
ghost use Rattle.stripe_layout.specs.Modes.{takes_delta};
ghost use Rattle.sbc_cdbs.specs.Cdbs.{spelling};
ghost use Rattle.array_journal.specs.Acts.{cdb_of};
ghost use Rattle.array_journal.specs.May.{IsTask};
ghost use Rattle.xor_target.specs.declared.answer.Answer.TheVariants.{Good};
ghost use Rattle.unit_plans.specs.declared.acts.Acted.TheVariants as acted;
ghost use Rattle.unit_plans.specs.declared.doings.Said.TheVariants as says;
ghost use Rattle.unit_plans.specs.Plans.{setting_of, begun, Asks, Closes, Replies, TakesOrFolds, GoesOn, HasNext, AnswersAt, IsDone, IsPlanned, IsPlannedAct};
ghost use Rattle.unit_plans.specs.Steps.{first_act};

use crate::acts::{Act, Acted, BookAct};
use crate::doings::{Do, Reply, Said};
use crate::steps::{Step, first_act, target_of};
use array_book::End;
use array_journal::{Act as Kind, At, Names, Setting, Task, command_of};
use blocks_core::{Bytes, Memory};
use sbc_cdbs::encode;
use std::alloc::Global;
use std::marker::Model;
use std::mem;
use stripe_layout::{Geometry, Mode};
use xor_target::{Answer, Order};

/// The plan of a command: what is done for it, one act after the other. A read fetches its blocks. An update writes its blocks
/// and folds their delta into parity: the controller takes the delta from the target that holds it, or has it handed back. The
/// command is closed by the entries that its acts made, and then the host is told.
#[derive(Debug, Drop)]
pub struct Plan {
    geometry: Geometry,
    mode: Mode,
    task: Task,
    command: u32,
    opened: At,
    names: Names,
    bytes: Bytes,
    step: Step,
}

impl Model for Plan {
    ghost use Rattle.unit_plans.specs.Plans.{PlanState, IsPlan};

    ghost Value = { PlanState };

    ghost view = { λ p. record {
      geometry = p.geometry;
      mode = p.mode;
      task = p.task;
      command = p.command;
      opened = p.opened;
      names = p.names;
      bytes = p.bytes;
      step = p.step;
    } };

    ghost invariant = { λ p. IsPlan (record {
      geometry = p.geometry;
      mode = p.mode;
      task = p.task;
      command = p.command;
      opened = p.opened;
      names = p.names;
      bytes = p.bytes;
      step = p.step;
    }) };
}

impl Plan {
    /// The plan of a command that is open, by the entry that opened it with this task. The task is sound, and of a kind that
    /// there are plans for: a read, or an update whose delta the controller carries. Takes no memory.
    pub fn new(
        alloc: Global,
        task: Task,
        command: u32,
        opened: At,
        mode: Mode,
        geometry: Geometry,
    ) -> Plan
        requires array { IsArray geometry }
        requires sound { IsTask (record { geometry = geometry; buffer = 0; mode = mode }) task }
        requires planned { IsPlanned mode task.kind }
        ensures { result ≡ begun geometry mode task command opened }
    {
        Plan {
            geometry,
            mode,
            task,
            command,
            opened,
            names: Names::new(alloc),
            bytes: Bytes::new(alloc),
            step: Step::Begun,
        }
    }

    /// What is to be done next, once it was said what came of the last thing that was asked for; nothing is said at first. After
    /// want of memory the plan is of no use.
    pub fn next(&mut self, alloc: Global, said: Option<Said>) -> Result<Do, Memory>
        requires { AnswersAt self.old.step said }
        ensures { IfOk result (λ next. HasNext self.old said next self.new) }
    {
        match self.step {
            Step::Begun => self.begin(alloc),
            Step::Acting(act) => {
                let (bytes, made) = done(said);
                self.go_on(alloc, act, made, bytes)
            }
            Step::Closing => Ok(self.reply(alloc)),
            Step::Over => unreachable!(),
        }
    }

    /// Asks for the first act. A write's blocks come with it.
    fn begin(&mut self, alloc: Global) -> Result<Do, Memory>
        ensures { IfOk result (λ next. Asks self.old (first_act self.old.task.kind) [] self.old.task.bytes next self.new) }
    {
        let bytes = self.task.bytes.copy(alloc)?;
        let act = first_act(self.task.kind);
        self.ask(alloc, act, Names::new(alloc), bytes)
    }

    /// Asks for what comes after an act.
    fn go_on(&mut self, alloc: Global, act: Kind, made: Names, bytes: Bytes) -> Result<Do, Memory>
        requires { IsPlannedAct act }
        ensures { IfOk result (λ next. GoesOn self.old act made bytes next self.new) }
    {
        push_all(&mut self.names, &made)?;
        match act {
            Kind::Fetches => {
                self.bytes = bytes;
                self.close(alloc)
            }
            Kind::Diffs => self.take_or_fold(alloc, made, bytes),
            Kind::Takes => self.ask(alloc, Kind::Folds, made, bytes),
            Kind::Folds => self.close(alloc),
            Kind::Puts | Kind::Holds => unreachable!(),
        }
    }

    /// After a diff asks for its delta to be taken, or folded where it was handed back.
    fn take_or_fold(&mut self, alloc: Global, made: Names, bytes: Bytes) -> Result<Do, Memory>
        ensures { IfOk result (λ next. TakesOrFolds (takes_delta self.old.mode) self.old made bytes next self.new) }
    {
        if self.mode.takes_delta() {
            self.ask(alloc, Kind::Takes, Names::new(alloc), Bytes::new(alloc))
        } else {
            self.ask(alloc, Kind::Folds, made, bytes)
        }
    }

    /// Asks for an act, which rests on these entries and comes with these bytes.
    fn ask(&mut self, alloc: Global, act: Kind, names: Names, bytes: Bytes) -> Result<Do, Memory>
        ensures { IfOk result (λ next. Asks self.old act names bytes next self.new) }
    {
        let order = Order {
            owner: self.command,
            opened: self.opened,
            names,
            stamp: self.opened.stamp,
            cdb: self.cdb(alloc, act)?,
            bytes,
        };
        self.step = Step::Acting(act);
        Ok(Do::Target {
            number: target_of(&self.task, act),
            act: Act::Run { order },
        })
    }

    /// The CDB of an act. The rows of a sound task fit its fields.
    fn cdb(&self, alloc: Global, act: Kind) -> Result<Bytes, Memory>
        ensures { IfOk result (λ cdb. cdb ≡ spelling (cdb_of (setting_of self.now) self.now.task 0 act)) }
    {
        let setting = Setting {
            geometry: self.geometry,
            buffer: 0,
            mode: self.mode,
        };
        match command_of(&setting, &self.task, 0, act) {
            Some(command) => Bytes::from_slice(alloc, encode(&command).as_slice()),
            None => unreachable!(),
        }
    }

    /// Asks to close the command.
    fn close(&mut self, alloc: Global) -> Result<Do, Memory>
        ensures { IfOk result (λ next. Closes self.old next self.new) }
    {
        let end = End {
            done: true,
            names: self.names.copy(alloc)?,
            cause: None,
            bytes: Bytes::new(alloc),
        };
        self.step = Step::Closing;
        Ok(Do::Book {
            act: BookAct::Close {
                command: self.command,
                end,
            },
        })
    }

    /// Tells the host what was read.
    fn reply(&mut self, alloc: Global) -> Do
        ensures { Replies self.old result self.new }
    {
        self.step = Step::Over;
        let bytes = mem::replace(&mut self.bytes, Bytes::new(alloc));
        Do::Reply {
            reply: Reply::Good { bytes },
        }
    }
}

/// The bytes that an act which was done has answered, and the entries that it made.
fn done(said: Option<Said>) -> (Bytes, Names)
    requires { IsDone said }
    ensures { said ≡ Some (says.Target (acted.Answer (Good result.0 result.1))) }
{
    match said {
        Some(
            Said::Target {
                acted: Acted::Answer {
                    answer: Answer::Good { bytes, made },
                },
            },
        ) => (bytes, made),
        _ => unreachable!(),
    }
}

/// Puts further names behind those that are there.
fn push_all(names: &mut Names, more: &Names) -> Result<(), Memory>
    ensures { OnOk result (names.new ≡ names.old ++ more.now) }
{
    for name in more.as_slice() {
        names.push(*name)?;
    }
    Ok(())
}
