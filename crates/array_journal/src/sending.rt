//! The commands that acts are sent as (SBC, the XOR commands). The short commands have 16 bits for a number
//! of blocks and the lists of the long ones 32 for their length, so a task may be too large for them.

ghost use Rattle.std.specs.Prelude.{◌≡◌, ◌<◌, ◌^◌, IfSome, MatchOption};
ghost use Rattle.sbc_cdbs.specs.declared.commands.Command.TheVariants as sbc;
ghost use Rattle.sbc_cdbs.specs.Cdbs.{CanEncode, Fits};
ghost use Rattle.array_journal.specs.declared.act.Act.TheVariants.{Puts};
ghost use Rattle.array_journal.specs.Acts.{list_length, diff_command, cdb_of};

use crate::act::Act;
use crate::acts::task_bytes;
use crate::setting::Setting;
use crate::task::{Kind, Task};
use sbc_cdbs::Command;
use stripe_layout::Mode;

/// The length of a list of so many sources.
fn list_length(setting: &Setting, task: &Task, sources: usize) -> Option<u32>
    ensures { MatchOption result (list_length setting.now task.now sources < 2 ^ 32 → ⊥) (λ len. len ≡ list_length setting.now task.now sources) }
{
    let blocks = if matches!(task.kind, Kind::DegradedWrite) {
        task_bytes(setting, task)
    } else {
        0
    };
    u32::try_from(4 + 16 * (sources as u128) + u128::from(blocks)).ok()
}

/// The number of a task's blocks, as the short commands have it.
fn short_count(task: &Task) -> Option<u16>
    ensures { MatchOption result (task.now.count < 2 ^ 16 → ⊥) (λ count. count ≡ task.now.count) }
{
    u16::try_from(task.count).ok()
}

/// The command that writes the blocks of an update and makes its delta.
fn diff_command(mode: Mode, task: &Task) -> Option<Command>
    ensures command { MatchOption result (Fits (diff_command mode task.now) → ⊥) (λ command. command ≡ diff_command mode task.now) }
    ensures encodes { IfSome result CanEncode }
{
    match mode {
        Mode::Supervised => Some(Command::XdWrite {
            dpo: false,
            fua: false,
            disable: false,
            lba: task.row,
            length: short_count(task)?,
        }),
        Mode::ThirdParty => Some(Command::XdWriteExtended {
            dpo: false,
            fua: false,
            disable: false,
            lba: task.row,
            second: task.row,
            length: task.count,
            address: task.parity,
        }),
        Mode::Readback => Some(Command::XdWriteRead {
            dpo: false,
            fua: false,
            disable: false,
            lba: task.row,
            length: short_count(task)?,
        }),
    }
}

/// The command that writes blocks which were made of so many fetched ones: where targets gather, the
/// target makes them itself, unless there is nothing to make.
fn put_command(setting: &Setting, task: &Task, sources: usize) -> Option<Command>
    ensures command { MatchOption result (Fits (cdb_of setting.now task.now sources Puts) → ⊥) (λ command. command ≡ cdb_of setting.now task.now sources Puts) }
    ensures encodes { IfSome result CanEncode }
{
    if setting.mode.target_gathers() && !matches!(task.kind, Kind::DataOnly) {
        Some(Command::Rebuild {
            dpo: false,
            fua: false,
            intdata: matches!(task.kind, Kind::DegradedWrite),
            lba: task.row,
            length: task.count,
            list: list_length(setting, task, sources)?,
        })
    } else {
        Some(Command::Write {
            dpo: false,
            fua: false,
            lba: task.row,
            length: short_count(task)?,
        })
    }
}

/// The command that an act of a task, which rests on so many fetches, is sent as. There is none where a
/// number of it doesn't fit its field.
pub fn command_of(setting: &Setting, task: &Task, sources: usize, act: Act) -> Option<Command>
    ensures command { MatchOption result (Fits (cdb_of setting.now task.now sources act) → ⊥) (λ command. command ≡ cdb_of setting.now task.now sources act) }
    ensures encodes { IfSome result CanEncode }
{
    match act {
        Act::Fetches => Some(Command::Read {
            dpo: false,
            fua: false,
            lba: task.row,
            length: short_count(task)?,
        }),
        Act::Puts => put_command(setting, task, sources),
        Act::Diffs => diff_command(setting.mode, task),
        Act::Takes => Some(Command::XdRead {
            lba: task.row,
            length: short_count(task)?,
        }),
        Act::Folds => Some(Command::XpWrite {
            dpo: false,
            fua: false,
            lba: task.row,
            length: short_count(task)?,
        }),
        Act::Holds => Some(Command::Regenerate {
            dpo: false,
            fua: false,
            intdata: false,
            lba: task.row,
            length: task.count,
            list: list_length(setting, task, sources)?,
        }),
    }
}
