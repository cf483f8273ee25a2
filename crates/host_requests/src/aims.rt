//! What the pieces of a request are about.

ghost use Rattle.std.specs.Prelude.{◌≡◌, ◌<◌, ◌≤◌, ◌+◌, option_map};
ghost use Rattle.stripe_layout.specs.Layout.{IsArray, stripes_of, capacity_of};
ghost use Rattle.host_scripts.specs.Scripts.{IsScript};
ghost use Rattle.host_requests.specs.Begins.{piece_aim, unit_aim, stripe_aim, aim_of};
ghost use Rattle.host_requests.specs.Forms.{transfer_as, aim_as};
ghost use Rattle.host_requests.specs.Requests as requests;

use crate::payloads::Payload;
use crate::requests::{Transfer, bytes_due};
use crate::settings::most_blocks;
use array_book::Aim as Rows;
use array_journal::Want;
use host_scripts::Script;
use stripe_layout::{Geometry, Piece};

/// What a piece is about: some rows of a target's unit in a stripe, and the new blocks where it writes.
#[derive(Clone, Copy, Debug)]
pub struct Aim<'a> {
    pub rows: Rows,
    pub bytes: Payload<'a>,
}

/// The blocks of a piece, and its part of the bytes that came.
fn piece_aim<'a>(geometry: &Geometry, transfer: Transfer<'a>, piece: Piece) -> Aim<'a>
    requires array { IsArray geometry.now }
    requires from { transfer.lba ≤ piece.first }
    ensures { aim_as result ≡ piece_aim geometry.now (transfer_as transfer.entry) piece }
{
    let at = u64::from(piece.first - transfer.lba) * u64::from(geometry.block);
    let due = bytes_due(geometry, transfer.wanted, piece.count);
    Aim {
        rows: Rows::of_piece(transfer.wanted, &piece),
        bytes: transfer.bytes.part(at, due),
    }
}

/// A whole unit of a stripe.
fn unit_aim(geometry: &Geometry, wanted: Want, stripe: u32, target: u8) -> Aim<'static>
    requires array { IsArray geometry.now }
    requires in_array { stripe < stripes_of geometry.now }
    ensures { aim_as result ≡ unit_aim geometry.now wanted stripe target }
{
    Aim {
        rows: Rows::of_unit(geometry, wanted, stripe, target),
        bytes: Payload::none(),
    }
}

/// The unit in the stripe of a number, where there is this stripe.
pub fn stripe_aim(
    geometry: &Geometry,
    wanted: Want,
    stripe: u32,
    target: u8,
) -> Option<Aim<'static>>
    requires { IsArray geometry.now }
    ensures { option_map aim_as result ≡ stripe_aim geometry.now wanted stripe target }
{
    if stripe < geometry.stripes() {
        Some(unit_aim(geometry, wanted, stripe, target))
    } else {
        None
    }
}

/// The blocks of the piece of a number, where there is this piece.
pub fn transfer_aim<'a>(script: &Script, transfer: Transfer<'a>, number: u32) -> Option<Aim<'a>>
    requires script { IsScript script.now }
    requires in_range { transfer.lba + transfer.count ≤ capacity_of script.now.geometry }
    ensures { option_map aim_as result ≡ aim_of script.now (requests.Moves (transfer_as transfer.entry)) number }
{
    let geometry = &script.geometry;
    let max = most_blocks(script);
    match geometry.piece_at(transfer.lba, transfer.count, max, number) {
        Some(piece) => Some(piece_aim(geometry, transfer, piece)),
        None => None,
    }
}
