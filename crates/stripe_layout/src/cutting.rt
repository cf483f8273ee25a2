//! A run of blocks is cut into pieces.

ghost use Rattle.std.specs.Prelude.{◌≡◌, ◌<◌, ◌≤◌, ◌+◌, IfOk};
ghost use Rattle.stripe_layout.specs.Layout.{IsArray, capacity_of};
ghost use Rattle.stripe_layout.specs.Pieces.{piece_of, first_count, pieces_of};

use crate::geometry::Geometry;
use crate::pieces::{Piece, Pieces};
use blocks_core::Memory;
use std::alloc::Global;

impl Geometry {
    /// The first piece of some blocks: it ends at the end of its unit, or after the most blocks that a
    /// piece may have.
    pub(crate) fn first_piece(&self, lba: u32, count: u32, max: u32) -> Piece
        requires array { IsArray self.now }
        requires in_range { lba + count ≤ capacity_of self.now }
        requires some { 1 ≤ count }
        requires some_max { 1 ≤ max }
        ensures value { result ≡ piece_of self.now lba (first_count self.now max lba count) }
        ensures least { 1 ≤ result.count }
        ensures most { result.count ≤ count }
    {
        Piece {
            place: self.place(lba),
            first: lba,
            count: self.room_in_unit(lba).min(max.min(count)),
        }
    }

    /// The pieces that some blocks are cut into, none of more than so many blocks. Takes memory for the list.
    pub fn pieces(&self, alloc: Global, lba: u32, count: u32, max: u32) -> Result<Pieces, Memory>
        requires array { IsArray self.now }
        requires in_range { lba + count ≤ capacity_of self.now }
        requires some { 1 ≤ max }
        ensures { IfOk result (λ pieces. pieces ≡ pieces_of self.now max lba count) }
    {
        let mut pieces = Pieces::new(alloc);
        let mut first = lba;
        let mut left = count;
        while left > 0 {
            let piece = self.first_piece(first, left, max);
            first += piece.count;
            left -= piece.count;
            pieces.push(piece)?;
        }
        Ok(pieces)
    }
}
