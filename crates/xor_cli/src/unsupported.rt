//! What a script asks that can't be run yet.

ghost use Rattle.std.specs.Prelude.{◌≡◌, ◌≤◌, ◌<◌, ◌^◌, ◌/◌, length};
ghost use Rattle.stripe_layout.specs.Layout.{IsArray};
ghost use Rattle.xor_cli.specs.Unsupported.{can_serve_in, is_one_piece, can_do, can_call, later_call, first_later};

use host_requests::most_blocks;
use host_scripts::{Action, Call, Script};
use stripe_layout::Mode;

/// The version whose lines can be run.
const VERSION: u8 = 1;

/// The line of the version.
const VERSION_LINE: u64 = 1;

/// The line of the mode, in a script of that version.
const MODE_LINE: u64 = 8;

/// The line behind the lines that each script has: of the first turns, or of the first call.
const NEXT_LINE: u64 = 11;

/// Whether updates of this mode can be run.
fn can_serve_in(mode: Mode) -> bool
    ensures { result ≡ can_serve_in mode }
{
    match mode {
        Mode::Supervised => true,
        Mode::ThirdParty | Mode::Readback => false,
    }
}

/// Whether so many blocks from this one are one piece within the capacity.
fn is_one_piece(script: &Script, lba: u32, count: u64) -> bool
    requires { IsArray script.now.geometry }
    ensures { result ≡ is_one_piece script.now lba count }
{
    1 <= count
        && count <= u64::from(most_blocks(script))
        && u64::from(lba) + count <= script.geometry.capacity()
        && count <= u64::from(script.geometry.room_in_unit(lba))
}

/// Whether an action can be run.
fn can_do(script: &Script, action: &Action) -> bool
    requires { IsArray script.now.geometry }
    ensures { result ≡ can_do script.now action.now }
{
    match action {
        Action::Read { lba, count } => is_one_piece(script, *lba, u64::from(*count)),
        Action::Write { lba, bytes } => {
            let count = bytes.len() as u64 / u64::from(script.geometry.block);
            is_one_piece(script, *lba, count)
        }
        _ => false,
    }
}

/// Whether a call can be run.
fn can_call(script: &Script, call: &Call) -> bool
    requires { IsArray script.now.geometry }
    ensures { result ≡ can_call script.now call.now }
{
    call.host == 0 && can_do(script, &call.action)
}

/// The line of the first call that can't be run.
fn later_call(script: &Script, calls: &[Call]) -> Option<u64>
    requires array { IsArray script.now.geometry }
    requires fewer { length calls.now < 2 ^ 32 }
    ensures { result ≡ later_call script.now 11 calls.now }
{
    for (place, call) in calls.iter().enumerate() {
        if !can_call(script, call) {
            return Some(NEXT_LINE + place as u64);
        }
    }
    None
}

/// The first line that asks for what can't be run yet, counted from 1: other versions, hosts, calls and
/// modes than those that can, and turns.
pub fn first_later(script: &Script) -> Option<u64>
    requires array { IsArray script.now.geometry }
    requires fewer { length script.now.calls < 2 ^ 32 }
    ensures { result ≡ first_later script.now }
{
    if script.version != VERSION {
        return Some(VERSION_LINE);
    }
    if !can_serve_in(script.mode) {
        return Some(MODE_LINE);
    }
    if !script.order.is_empty() {
        return Some(NEXT_LINE);
    }
    later_call(script, script.calls.as_slice())
}
