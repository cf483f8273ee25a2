//! What the pieces of a request ask, and what becomes of each when it is begun.

ghost use Rattle.std.specs.Prelude.{◌≡◌, ◌==◌, ℕ, List, Some, None, option_map, if◌then◌else◌};
ghost use Rattle.array_journal.specs.declared.entry.Entry.{Entry};
ghost use Rattle.array_journal.specs.declared.event.Why.TheVariants as causes;
ghost use Rattle.stripe_layout.specs.declared.geometry.Geometry.{Geometry};
ghost use Rattle.host_scripts.specs.Scripts.{IsScript};
ghost use Rattle.host_scripts.specs.declared.script.Script.{Script};
ghost use Rattle.host_requests.specs.Begins as begins;
ghost use Rattle.host_requests.specs.Begins.{begin_decided, begin_aim, begin_request};
ghost use Rattle.host_requests.specs.Forms.{sense_of, request_as, aim_as, begin_as, IsWithin};
ghost use Rattle.host_requests.specs.Pieces.{begin_piece};

use crate::aims::{Aim, stripe_aim, transfer_aim};
use crate::faults::RequestFault;
use crate::requests::Request;
use array_journal::{Decision, Kind, Want, Why};
use host_scripts::Script;

/// What a piece of a request asks of the book.
#[derive(Clone, Copy, Debug)]
pub enum PieceRequest<'a> {
    /// To refuse a call that fails a test.
    Refuse { fault: RequestFault },
    /// To swap a slot's disk.
    Swap { slot: u8 },
    /// To open a command for blocks or a unit.
    Serve { aim: Aim<'a> },
}

/// What becomes of a piece.
#[derive(Clone, Copy, Debug)]
pub enum Begin<'a> {
    /// A command of a kind is opened.
    Opening { aim: Aim<'a>, kind: Kind },
    /// The piece is refused.
    Refusal { why: Why },
    /// A slot's disk is swapped.
    Swapping { slot: u8 },
}

impl<'a> Request<'a> {
    /// What the piece of a number asks, where the request has this piece. A call that fails a test, and one
    /// that replaces a disk, have piece 0 alone; the losses, resets and dropped requests that the operator
    /// asks for happen at a target, and the book begins no piece of them.
    pub fn piece(self, script: &Script, number: u32) -> Option<PieceRequest<'a>>
        requires script { IsScript script.now }
        requires within { IsWithin script.now.geometry self }
        ensures { (call : ℕ) (past : List Entry) → option_map (begin_piece script.now call number past) result ≡ begin_request script.now call number past (request_as self.entry) }
    {
        let geometry = &script.geometry;
        match self {
            Request::Illegal { fault } => first(number, PieceRequest::Refuse { fault }),
            Request::Replace { slot } => first(number, PieceRequest::Swap { slot }),
            Request::Blocks { transfer } => serve(transfer_aim(script, transfer, number)),
            Request::Rebuild { slot } => {
                serve(stripe_aim(geometry, Want::Rebuild, number, slot))
            }
            Request::Resync => serve(stripe_aim(
                geometry,
                Want::Resync,
                number,
                geometry.parity(number),
            )),
            Request::Lose { .. } | Request::Wipe { .. } => None,
        }
    }
}

/// What a request of one piece asks.
fn first<'a>(number: u32, piece: PieceRequest<'a>) -> Option<PieceRequest<'a>>
    ensures { result ≡ (if number == 0 then Some piece.entry else None) }
{
    if number == 0 { Some(piece) } else { None }
}

fn serve<'a>(aim: Option<Aim<'a>>) -> Option<PieceRequest<'a>>
    ensures { (s : Script) (call piece : ℕ) (past : List Entry) → option_map (begin_piece s call piece past) result ≡ option_map (begin_aim s call piece past) (option_map aim_as aim.entry) }
{
    match aim {
        Some(aim) => Some(PieceRequest::Serve { aim }),
        None => None,
    }
}

/// The refusal of a call that fails a test.
pub fn begin_failure(fault: RequestFault) -> Begin<'static>
    ensures { (g : Geometry) (call piece : ℕ) → begin_as g call piece result ≡ begins.Refusal (causes.Illegal (sense_of fault)) }
{
    Begin::Refusal {
        why: Why::Illegal {
            sense: fault.sense(),
        },
    }
}

/// The swap of a slot's disk, which is refused where the slot has a disk that isn't noted lost.
pub fn begin_swap(slot: u8, unfitted: bool) -> Begin<'static>
    ensures { (g : Geometry) (call piece : ℕ) → begin_as g call piece result ≡ (if unfitted then begins.Swapping slot else begins.Refusal causes.NotLost) }
{
    if unfitted {
        Begin::Swapping { slot }
    } else {
        Begin::Refusal { why: Why::NotLost }
    }
}

/// What the book decided of an aim.
pub fn begin_decided<'a>(aim: Aim<'a>, decision: Decision) -> Begin<'a>
    ensures { (g : Geometry) (call piece : ℕ) → begin_as g call piece result ≡ begin_decided g call piece (aim_as aim.entry) decision }
{
    match decision {
        Decision::Opens(kind) => Begin::Opening { aim, kind },
        Decision::Refuses(why) => Begin::Refusal { why },
    }
}
