//! What is asked of the book about a piece of a call.

ghost use Rattle.std.specs.Prelude.{◌≡◌, ◌<◌, IfOk};
ghost use Rattle.stripe_layout.specs.Layout.{IsArray, stripes_of};
ghost use Rattle.array_book.specs.Asks.{IsWant, piece_aim, unit_aim, aim_of, bytes_of, task_at};

use array_journal::{Kind, Task, Want as Service};
use blocks_core::{Bytes, Memory};
use sense_data::Sense;
use std::alloc::Global;
use stripe_layout::{Geometry, Piece};

/// A piece of a call that the book is to decide: the call from 1, the piece of the call from 0, and what it wants.
#[derive(Debug, Drop)]
pub struct Ask {
    pub call: u32,
    pub piece: u32,
    pub want: Want,
}

/// What a piece wants.
#[derive(Debug, Drop)]
pub enum Want {
    /// To read the blocks of a piece.
    Read { piece: Piece },
    /// To write these bytes as the blocks of a piece.
    Write { piece: Piece, bytes: Bytes },
    /// To make the unit of a slot in a stripe anew.
    Rebuild { slot: u8, stripe: u32 },
    /// To make the parity of a stripe anew.
    Resync { stripe: u32 },
    /// The call failed a test: the piece is refused with this sense, and only written down.
    Illegal { sense: Sense },
}

/// The rows that a piece is about, on a target's unit of a stripe, and the line of the table that decides it.
#[derive(Clone, Copy, Debug, PartialEq, Eq)]
pub struct Aim {
    pub want: Service,
    pub stripe: u32,
    pub target: u8,
    pub row: u32,
    pub count: u32,
}

impl Aim {
    /// The rows of a piece.
    pub fn of_piece(want: Service, piece: &Piece) -> Aim
        ensures { result ≡ piece_aim want piece.now }
    {
        Aim {
            want,
            stripe: piece.place.stripe,
            target: piece.place.target,
            row: piece.place.row,
            count: piece.count,
        }
    }

    /// All rows of a stripe, at a target.
    pub fn of_unit(geometry: &Geometry, want: Service, stripe: u32, target: u8) -> Aim
        requires { IsArray geometry.now }
        ensures { result ≡ unit_aim geometry.now want stripe target }
    {
        Aim {
            want,
            stripe,
            target,
            row: geometry.first_row(stripe),
            count: geometry.unit_rows(stripe),
        }
    }

    /// The task of a command of a kind at these rows, for a piece of a call, with the bytes that are to be written.
    pub fn task(&self, geometry: &Geometry, call: u32, piece: u32, kind: Kind, bytes: Bytes) -> Task
        requires { IsArray geometry.now }
        ensures { result ≡ task_at geometry.now call piece kind self.now bytes }
    {
        Task {
            call,
            piece,
            kind,
            stripe: self.stripe,
            target: self.target,
            parity: geometry.parity(self.stripe),
            row: self.row,
            count: self.count,
            bytes,
        }
    }
}

impl Want {
    /// What is asked about. A failed test is about no rows, and has its sense.
    pub(crate) fn aim(&self, geometry: &Geometry) -> Result<Aim, Sense>
        requires { IsArray geometry.now }
        ensures { result ≡ aim_of geometry.now self.now }
    {
        match self {
            Want::Read { piece } => Ok(Aim::of_piece(Service::Read, piece)),
            Want::Write { piece, .. } => Ok(Aim::of_piece(Service::Write, piece)),
            Want::Rebuild { slot, stripe } => {
                Ok(Aim::of_unit(geometry, Service::Rebuild, *stripe, *slot))
            }
            Want::Resync { stripe } => {
                let parity = geometry.parity(*stripe);
                Ok(Aim::of_unit(geometry, Service::Resync, *stripe, parity))
            }
            Want::Illegal { sense } => Err(*sense),
        }
    }

    /// A copy of the blocks that come with a write.
    fn bytes(&self, alloc: Global) -> Result<Bytes, Memory>
        ensures { IfOk result (λ bytes. bytes ≡ bytes_of self.now) }
    {
        match self {
            Want::Write { bytes, .. } => bytes.copy(alloc),
            _ => Ok(Bytes::new(alloc)),
        }
    }
}

impl Ask {
    /// The task of a command of a kind for what is asked, with the bytes that are to be written.
    pub(crate) fn task(
        &self,
        alloc: Global,
        geometry: &Geometry,
        kind: Kind,
        aim: &Aim,
    ) -> Result<Task, Memory>
        requires { IsArray geometry.now }
        ensures { IfOk result (λ task. task ≡ task_at geometry.now self.now.call self.now.piece kind aim.now (bytes_of self.now.want)) }
    {
        let bytes = self.want.bytes(alloc)?;
        Ok(aim.task(geometry, self.call, self.piece, kind, bytes))
    }
}
