//! One line at its target.

ghost use Rattle.std.specs.Prelude.{◌≡◌, ◌<◌, ◌≤◌, length, OnOk, IfOk};
ghost use Rattle.xor_target.specs.Befalls.{IsFresh};
ghost use Rattle.xor_target.specs.Rigs.{IsIdle};
ghost use Rattle.bench_runs.specs.BenchRuns.{IsStep, newest_stamp, line_order, no_entry};

use crate::line_answer::LineAnswer;
use array_journal::{At, Names};
use blocks_core::{Bytes, Memory};
use host_scripts::{BenchAction, BenchLine};
use sector_media::MemoryMedium;
use std::alloc::Global;
use xor_target::{Answer, Order, Rig, Target};

/// Which line asks: its number, and the greatest stamp so far.
#[derive(Clone, Copy, Debug)]
pub struct Asker {
    pub number: u32,
    pub stamp: u64,
}

/// The name of no entry: no book opens what a bench asks.
const NO_ENTRY: At = At { stamp: 0, lock: 0 };

/// The order of a line.
fn order_of(alloc: Global, asker: Asker, cdb: &Bytes, bytes: &Bytes) -> Result<Order, Memory>
    ensures { IfOk result (λ order. order ≡ line_order asker.number asker.stamp cdb.now bytes.now) }
{
    Ok(Order {
        owner: asker.number,
        opened: NO_ENTRY,
        names: Names::new(alloc),
        stamp: asker.stamp,
        cdb: cdb.copy(alloc)?,
        bytes: bytes.copy(alloc)?,
    })
}

/// A fresh disk comes.
fn renew(alloc: Global, target: &mut Target<MemoryMedium>, asker: Asker) -> Result<(), Memory>
    ensures { OnOk result (IsFresh target.old asker.number no_entry asker.stamp target.new) }
{
    match target.fresh(alloc, asker.number, NO_ENTRY, asker.stamp) {
        Answer::Good { .. } => Ok(()),
        // A medium in memory never fails, so that memory ran out.
        _ => Err(Memory),
    }
}

/// Does what a line asks.
pub fn act(
    alloc: Global,
    row: &mut Rig<MemoryMedium>,
    asker: Asker,
    line: &BenchLine,
) -> Result<LineAnswer, Memory>
    requires number { 1 ≤ asker.number }
    requires stamp { asker.stamp ≡ newest_stamp row.old }
    requires target { line.now.target < length row.old }
    requires idle { IsIdle asker.number row.old }
    ensures { IfOk result (λ came. IsStep asker.number row.old line.now row.new came) }
{
    let Asker { number, stamp } = asker;
    let place = line.target as usize;
    match &line.action {
        BenchAction::Raw { cdb, bytes } => {
            let order = order_of(alloc, asker, cdb, bytes)?;
            Ok(LineAnswer::Answered(row.run(alloc, line.target, &order)))
        }
        BenchAction::Lose => {
            row.targets()[place].lose(alloc, number, stamp)?;
            Ok(LineAnswer::Done)
        }
        BenchAction::Reset => {
            row.targets()[place].wipe(alloc, number, stamp)?;
            Ok(LineAnswer::Done)
        }
        BenchAction::DropNext => {
            row.targets()[place].drop_next(alloc, number, stamp)?;
            Ok(LineAnswer::Done)
        }
        BenchAction::Fresh => {
            renew(alloc, &mut row.targets()[place], asker)?;
            Ok(LineAnswer::Done)
        }
    }
}
