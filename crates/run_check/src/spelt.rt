//! Whether a CDB is that of an act.

ghost use Rattle.std.specs.Prelude.{◌≡◌, ◌↔◌, IsTrue};
ghost use Rattle.array_journal.specs.Acts.{cdb_of};
ghost use Rattle.sbc_cdbs.specs.Cdbs.{SpellsCdb, cdb_bytes};
ghost use Rattle.run_check.specs.Spelt.{is_spelt};

use array_journal::{Act, Setting, Task, command_of};
use sbc_cdbs::{Cdb, encode};

/// Whether a CDB spells the command of an act of a task that rests on so many fetches.
fn does_spell(cdb: &Cdb, setting: &Setting, task: &Task, sources: usize, act: Act) -> bool
    ensures { IsTrue result ↔ SpellsCdb (cdb_bytes cdb.now) (cdb_of setting.now task.now sources act) }
{
    match command_of(setting, task, sources, act) {
        Some(command) => cdb.as_slice() == encode(&command).as_slice(),
        None => false,
    }
}

/// Whether a CDB spells the command of an act of a task, with a clause in the words of the definition's
/// test.
pub fn is_spelt(cdb: &Cdb, setting: &Setting, task: &Task, sources: usize, act: Act) -> bool
    ensures { result ≡ is_spelt cdb.now (cdb_of setting.now task.now sources act) }
{
    does_spell(cdb, setting, task, sources, act)
}
