ghost use Rattle.std.specs.Prelude.{◌≡◌, [], ◌∷◌, OnOk, IfOk};
ghost use Rattle.sbc_cdbs.specs.Cdbs.{Fits, SpellsCdb, cdb_bytes};
ghost use Rattle.array_journal.specs.Acts.{cdb_of};
ghost use Rattle.array_journal.specs.declared.task.Kind.TheVariants as kinds;

use crate::array::controller::Controller;
use array_journal::{Act, At, Names, Setting, Task, command_of};
use blocks_core::Memory;
use sbc_cdbs::{Cdb, encode};
use std::alloc::Global;

impl Controller {
    ghost use Rattle.xor_cli.specs.Arrays.{array_of, IsKept};
    ghost use Rattle.xor_cli.specs.Rest.{IsAtRest, IsServable, IsServed};

    /// Serves a read of one piece: its rows are fetched from their target.
    pub fn read(&mut self, alloc: Global, task: Task) -> Result<(), Memory>
        requires kept { IsKept self.old }
        requires rest { IsAtRest (array_of self.old) }
        requires task { IsServable self.old.setting task }
        requires kind { task.kind ≡ kinds.Read }
        ensures kept { OnOk result (IsKept self.new) }
        ensures served { OnOk result (IsServed (array_of self.old) (array_of self.new) task) }
    {
        let target = task.target;
        let read = act_cdb(&self.setting, &task, Act::Fetches);
        let served = self.open(task)?;
        let fetched = self.fetch(alloc, served, target, read)?;
        let mut names = Names::new(alloc);
        names.push(fetched)?;
        self.close(alloc, served, names)?;
        Ok(())
    }

    /// Serves a write of one piece: the data target writes it and holds the delta, which is taken
    /// from it and folded into parity.
    pub fn update(&mut self, alloc: Global, task: Task) -> Result<(), Memory>
        requires kept { IsKept self.old }
        requires rest { IsAtRest (array_of self.old) }
        requires task { IsServable self.old.setting task }
        requires kind { task.kind ≡ kinds.Update }
        ensures kept { OnOk result (IsKept self.new) }
        ensures served { OnOk result (IsServed (array_of self.old) (array_of self.new) task) }
    {
        let (target, parity) = (task.target, task.parity);
        let bytes = task.bytes.copy(alloc)?;
        let diff = act_cdb(&self.setting, &task, Act::Diffs);
        let take = act_cdb(&self.setting, &task, Act::Takes);
        let fold = act_cdb(&self.setting, &task, Act::Folds);
        let served = self.open(task)?;
        let differed = self.diff(alloc, served, target, diff, bytes)?;
        let (taken, delta) = self.take(alloc, served, target, take)?;
        let folded = self.fold(alloc, served, parity, fold, delta, taken)?;
        let names = three_names(alloc, differed, taken, folded)?;
        self.close(alloc, served, names)?;
        Ok(())
    }
}

/// The CDB of an act that rests on no fetches. The rows of a sound task fit its fields.
fn act_cdb(setting: &Setting, task: &Task, act: Act) -> Cdb
    requires { Fits (cdb_of setting.now task.now 0 act) }
    ensures { SpellsCdb (cdb_bytes result) (cdb_of setting.now task.now 0 act) }
{
    match command_of(setting, task, 0, act) {
        Some(command) => encode(&command),
        None => unreachable!(),
    }
}

fn three_names(alloc: Global, first: At, second: At, third: At) -> Result<Names, Memory>
    ensures { IfOk result (λ names. names ≡ first ∷ second ∷ third ∷ []) }
{
    let mut names = Names::new(alloc);
    names.push(first)?;
    names.push(second)?;
    names.push(third)?;
    Ok(names)
}
