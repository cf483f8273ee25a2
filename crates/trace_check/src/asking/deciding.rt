//! Whether pieces are begun as the book decides.

ghost use Rattle.std.specs.Prelude.{◌≡◌, ◌↔◌, ◌&&◌, IsTrue, option_map, ℕ, Some};
ghost use Rattle.stripe_layout.specs.Layout.{IsArray};
ghost use Rattle.array_journal.specs.Decision.{decision};
ghost use Rattle.host_requests.specs.Begins as begins;
ghost use Rattle.host_requests.specs.Begins.{begin_of};
ghost use Rattle.host_requests.specs.Forms.{begin_as};
ghost use Rattle.host_requests.specs.Pieces.{begin_piece};
ghost use Rattle.host_requests.specs.Settings.{setting_of};
ghost use Rattle.host_scripts.specs.Scripts.{IsScript};
ghost use Rattle.stripe_check.specs.Asked.{IsDecided};

use crate::asking::causes::is_same_cause;
use crate::asking::host_order::call_at;
use array_book::decide;
use array_journal::{Decision, Event, Task, Why};
use host_requests::{
    Aim, Begin, PieceRequest, begin_decided, begin_failure, begin_swap, request_of, setting_of,
};
use host_scripts::Script;
use journal_index::Past;
use stripe_layout::Geometry;

pub fn both(a: bool, b: bool) -> bool
    ensures { result ≡ (a && b) }
{
    a && b
}

/// What the book decides of an aim, after the entries so far.
fn decision_of(script: &Script, past: &Past, aim: Aim) -> Decision
    requires { IsScript script.now }
    ensures { result ≡ decision (setting_of script.now) aim.entry.rows.want aim.entry.rows.stripe aim.entry.rows.target past.now }
{
    let setting = setting_of(script);
    let facts = past.facts(&setting, aim.rows.stripe, usize::from(aim.rows.target));
    decide(aim.rows.want, &facts)
}

/// What becomes of what a piece asks.
fn begin_piece<'a>(script: &Script, past: &Past, asked: PieceRequest<'a>) -> Begin<'a>
    requires { IsScript script.now }
    ensures { (call piece : ℕ) → begin_as script.now.geometry call piece result ≡ begin_piece script.now call piece past.now asked.entry }
{
    match asked {
        PieceRequest::Refuse { fault } => begin_failure(fault),
        PieceRequest::Swap { slot } => begin_swap(slot, past.is_unfitted(usize::from(slot))),
        PieceRequest::Serve { aim } => begin_decided(aim, decision_of(script, past, aim)),
    }
}

/// What becomes of a piece of the call of a number.
fn begin_of<'a>(script: &'a Script, number: u32, piece: u32, past: &Past) -> Option<Begin<'a>>
    requires { IsScript script.now }
    ensures { option_map (begin_as script.now.geometry number piece) result ≡ begin_of script.now number piece past.now }
{
    let Some(call) = call_at(script, number) else {
        return None;
    };
    let request = request_of(&script.geometry, &call.action);
    match request.piece(script, piece) {
        Some(asked) => Some(begin_piece(script, past, asked)),
        None => None,
    }
}

/// Whether what becomes of a piece is that this task is opened.
fn opens_task(geometry: &Geometry, begin: Option<Begin>, task: &Task) -> bool
    requires { IsArray geometry.now }
    ensures { IsTrue result ↔ (option_map (begin_as geometry.now task.now.call task.now.piece) begin.entry ≡ Some (begins.Opening task.now)) }
{
    match begin {
        Some(Begin::Opening { aim, kind }) => aim.is_task(geometry, kind, task),
        _ => false,
    }
}

/// Whether what becomes of a piece is a refusal for this cause.
fn refuses(geometry: &Geometry, begin: Option<Begin>, why: Why) -> bool
    ensures { (call piece : ℕ) → IsTrue result ↔ (option_map (begin_as geometry.now call piece) begin.entry ≡ Some (begins.Refusal why)) }
{
    match begin {
        Some(Begin::Refusal { why: other }) => is_same_cause(other, why),
        _ => false,
    }
}

/// Whether what becomes of a piece is the swap of this slot's disk.
fn swaps(geometry: &Geometry, begin: Option<Begin>, slot: u8) -> bool
    ensures { (call piece : ℕ) → IsTrue result ↔ (option_map (begin_as geometry.now call piece) begin.entry ≡ Some (begins.Swapping slot)) }
{
    match begin {
        Some(Begin::Swapping { slot: other }) => other == slot,
        _ => false,
    }
}

/// Whether an event is as the book decides, over the entries before it.
pub fn is_decided(script: &Script, past: &Past, event: &Event) -> bool
    requires { IsScript script.now }
    ensures { IsTrue result ↔ IsDecided script.now event.now past.now }
{
    let geometry = &script.geometry;
    match event {
        Event::Open { task, .. } => {
            opens_task(
                geometry,
                begin_of(script, task.call, task.piece, past),
                task,
            )
        }
        Event::Refuse { call, piece, why } => {
            refuses(geometry, begin_of(script, *call, *piece, past), *why)
        }
        Event::Swap { slot, call } => swaps(geometry, begin_of(script, *call, 0, past), *slot),
        _ => true,
    }
}
