//! Whether a bench has too much of something.

ghost use Rattle.std.specs.Prelude.{◌≡◌, ◌*◌, ◌≤◌, get_or, length};
ghost use Rattle.sbc_cdbs.specs.Kinds.{block_count};
ghost use Rattle.sbc_cdbs.specs.Reading.{decoded};
ghost use Rattle.host_scripts.specs.Benches.{IsBench};
ghost use Rattle.host_scripts.specs.BenchLimits.{sources_of, blocks_moved, moved_by_cdb, moved_by_action, blocks_moved_by, bench_limit_of};

use crate::bench::{Bench, BenchAction, BenchLine};
use crate::limits::{MOST_BYTES, MOST_CALLS, media_bytes};
use crate::script::Limit;
use sbc_cdbs::{Command, decode};

/// Bytes that all lines move.
const MOST_MOVED: u64 = 67_108_864;

/// How many sources a command has, by the first byte of its data.
fn sources(command: &Command, bytes: &[u8]) -> u8
    ensures { result ≡ sources_of command.now bytes.now }
{
    match command {
        Command::Rebuild { .. } | Command::Regenerate { .. } => first_byte(bytes),
        // Commands that name no source are written out, so that a new one isn't taken for one of them.
        Command::Read { .. }
        | Command::Write { .. }
        | Command::XdWrite { .. }
        | Command::XpWrite { .. }
        | Command::XdRead { .. }
        | Command::XdWriteRead { .. }
        | Command::ModeSelect { .. }
        | Command::ModeSense { .. }
        | Command::XdWriteExtended { .. } => 0,
    }
}

/// The first byte, or 0 where there is none.
fn first_byte(bytes: &[u8]) -> u8
    ensures { result ≡ get_or bytes.now 0 0 }
{
    match bytes {
        [first, ..] => *first,
        [] => 0,
    }
}

/// The blocks that a command moves: no more than a medium has, and as many of each source.
fn command_blocks(rows: u32, command: &Command, bytes: &[u8]) -> u64
    ensures value { result ≡ blocks_moved rows (block_count command.now) (sources_of command.now bytes.now) }
    ensures few { result ≤ 256 * rows }
{
    let Some(count) = command.block_count() else {
        return 0;
    };
    // A command that asks for more blocks than there are is refused before it moves any. Counted whole, one
    // such line would use up the limit that is meant for blocks that move.
    u64::from(count.min(rows)) * (1 + u64::from(sources(command, bytes)))
}

/// The same of a CDB, where it is one.
fn cdb_blocks(rows: u32, cdb: &[u8], bytes: &[u8]) -> u64
    ensures value { result ≡ moved_by_cdb rows (decoded cdb.now) bytes.now }
    ensures few { result ≤ 256 * rows }
{
    match decode(cdb) {
        Ok(command) => command_blocks(rows, &command, bytes),
        Err(_) => 0,
    }
}

/// The blocks that a line moves over media of so many rows, by its CDB alone: `over_bench` has the rule.
pub fn moved_blocks(rows: u32, action: &BenchAction) -> u64
    ensures value { result ≡ moved_by_action rows action.now }
    ensures few { result ≤ 256 * rows }
{
    match action {
        BenchAction::Raw { cdb, bytes } => cdb_blocks(rows, cdb.as_slice(), bytes.as_slice()),
        BenchAction::Lose | BenchAction::Reset | BenchAction::DropNext | BenchAction::Fresh => 0,
    }
}

/// The blocks that all lines move. There are so few of them that the sum fits.
fn all_blocks(rows: u32, lines: &[BenchLine]) -> u64
    requires rows { rows ≤ 65536 }
    requires lines { length lines.now ≤ 10000 }
    ensures value { result ≡ blocks_moved_by rows lines.now }
    ensures few { result ≤ 167772160000 }
{
    let mut sum = 0;
    for line in lines {
        sum += moved_blocks(rows, &line.action);
    }
    sum
}

/// The first limit that a bench passes, in this order: 10,000 lines; 64 MiB that its CDBs move, of each no
/// more blocks than a medium has, for REBUILD and REGENERATE once more for each source that the first byte
/// of the data tells; 16 MiB of media. What a CDB moves is counted by the CDB alone, also where a target
/// would refuse it. Takes no memory.
pub fn over_bench(bench: &Bench) -> Option<Limit>
    requires { IsBench bench.now }
    ensures { result ≡ bench_limit_of bench.now }
{
    let lines = bench.lines.as_slice();
    if lines.len() > MOST_CALLS {
        return Some(Limit::Calls);
    }
    if all_blocks(bench.rows, lines) * u64::from(bench.block) > MOST_MOVED {
        return Some(Limit::Moved);
    }
    if media_bytes(bench.targets, bench.rows, bench.block) > MOST_BYTES {
        return Some(Limit::Media);
    }
    None
}
