//! Whether a script has too much of something.

ghost use Rattle.std.specs.Prelude.{◌≡◌, ◌+◌, ◌*◌, ◌/◌, ◌<◌, ◌≤◌, ◌^◌, length};
ghost use Rattle.sbc_cdbs.specs.Reading.{decoded};
ghost use Rattle.stripe_layout.specs.Layout.{IsArray};
ghost use Rattle.host_scripts.specs.Scripts.{IsScript};
ghost use Rattle.host_scripts.specs.Limits.{transferred, transferred_by, blocks_of, all_blocks, media_of, is_pass, passes_of, limit_of};

use crate::script::{Action, Call, Limit, Script};
use sbc_cdbs::{Command, decode};
use stripe_layout::Geometry;

/// Call lines of a script, and lines of a bench behind its header.
pub const MOST_CALLS: usize = 10_000;

/// Blocks that calls read or write.
const MOST_BLOCKS: u64 = 100_000;

/// Bytes that a script's calls move, and bytes of all media together.
pub const MOST_BYTES: u64 = 16_777_216;

/// Calls that go over all stripes.
const MOST_PASSES: usize = 16;

/// The blocks that a READ(10) or a WRITE(10) moves.
fn command_blocks(command: &Command) -> u16
    ensures { result ≡ transferred_by command.now }
{
    match *command {
        Command::Read { length, .. } => length,
        Command::Write { length, .. } => length,
        _ => 0,
    }
}

/// The same of a CDB, where it is one of these two.
fn cdb_blocks(cdb: &[u8]) -> u16
    ensures { result ≡ transferred (decoded cdb.now) }
{
    match decode(cdb) {
        Ok(command) => command_blocks(&command),
        Err(_) => 0,
    }
}

/// How many blocks a call reads or writes.
fn blocks(geometry: &Geometry, action: &Action) -> u64
    requires { 1 ≤ geometry.now.block }
    ensures { result ≡ blocks_of geometry.now action.now }
{
    // All actions are written out, so that a new one isn't taken for one that moves nothing.
    match action {
        Action::Read { count, .. } => u64::from(*count),
        Action::Write { bytes, .. } => bytes.len() as u64 / u64::from(geometry.block),
        Action::Fill { count, .. } => u64::from(*count),
        Action::Raw { cdb, .. } => u64::from(cdb_blocks(cdb.as_slice())),
        Action::Lose { .. }
        | Action::Reset { .. }
        | Action::DropNext { .. }
        | Action::Replace { .. }
        | Action::Rebuild { .. }
        | Action::Resync => 0,
    }
}

/// The blocks of all calls, of each no more than there are blocks.
fn all_blocks(geometry: &Geometry, calls: &[Call]) -> u64
    requires array { IsArray geometry.now }
    requires calls { length calls.now < 2 ^ 32 }
    ensures { result ≡ all_blocks geometry.now calls.now }
{
    let capacity = geometry.capacity();
    let mut sum = 0;
    for call in calls {
        // A call that asks for more blocks than there are is refused before it moves any. Counted whole, a
        // few such calls would use up the limit that is meant for blocks that move.
        sum += blocks(geometry, &call.action).min(capacity);
    }
    sum
}

/// The bytes of the media of so many targets, each of so many blocks.
pub fn media_bytes(targets: u8, rows: u32, block: u32) -> u64
    requires { block ≤ 4096 }
    ensures { result ≡ targets * rows * block }
{
    u64::from(targets) * u64::from(rows) * u64::from(block)
}

/// The bytes of all media together.
fn media(geometry: &Geometry) -> u64
    requires { IsArray geometry.now }
    ensures { result ≡ media_of geometry.now }
{
    media_bytes(geometry.targets, geometry.rows(), geometry.block)
}

/// Whether a call goes over all stripes.
fn is_pass(action: &Action) -> bool
    ensures { result ≡ is_pass action.now }
{
    matches!(action, Action::Rebuild { .. } | Action::Resync)
}

/// How many calls go over all stripes.
fn passes(calls: &[Call]) -> usize
    ensures { result ≡ passes_of calls.now }
{
    let mut passes = 0;
    for call in calls {
        if is_pass(&call.action) {
            passes += 1;
        }
    }
    passes
}

/// The first limit that a script passes, in the order of `Limit`: 10,000 calls; 100,000 blocks that calls
/// read or write, of each call no more than the array has; 16 MiB of these; 16 MiB of media; 16 rebuilds
/// and resyncs. Takes no memory.
pub fn over(script: &Script) -> Option<Limit>
    requires script { IsScript script.now }
    requires calls { length script.now.calls < 2 ^ 32 }
    ensures { result ≡ limit_of script.now }
{
    let geometry = &script.geometry;
    let calls = script.calls.as_slice();
    if calls.len() > MOST_CALLS {
        return Some(Limit::Calls);
    }
    let blocks = all_blocks(geometry, calls);
    if blocks > MOST_BLOCKS {
        return Some(Limit::Blocks);
    }
    if blocks * u64::from(geometry.block) > MOST_BYTES {
        return Some(Limit::Moved);
    }
    if media(geometry) > MOST_BYTES {
        return Some(Limit::Media);
    }
    if passes(calls) > MOST_PASSES {
        return Some(Limit::Passes);
    }
    None
}
