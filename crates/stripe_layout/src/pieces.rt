ghost use Rattle.std.specs.Prelude.{◌≡◌, ◌++◌, [], ◌∷◌, length, OnOk, OnErr, slice_get};
ghost use Rattle.std.specs.Option.{option_copied};

use crate::geometry::Place;
use blocks_core::Memory;
use std::alloc::Global;
use std::marker::Model;

/// A run of blocks in one unit: the block that it begins with, where that stands, and how many there are.
#[derive(Clone, Copy, Debug, PartialEq, Eq)]
pub struct Piece {
    pub place: Place,
    pub first: u32,
    pub count: u32,
}

/// The pieces that a run of blocks is cut into.
#[derive(Debug, Drop)]
pub struct Pieces {
    kept: Vec<Piece>,
}

impl Model for Pieces {
    ghost use Rattle.std.specs.Prelude.{List};
    ghost use Rattle.stripe_layout.specs.declared.pieces.Piece.{Piece};

    ghost Value = { List Piece };

    ghost view = { λ p. p.kept.items };
}

impl Pieces {
    /// No pieces. Takes no memory.
    pub fn new(alloc: Global) -> Pieces
        ensures { result ≡ [] }
    {
        Pieces {
            kept: Vec::new(alloc),
        }
    }

    /// Puts one piece at the end.
    pub fn push(&mut self, piece: Piece) -> Result<(), Memory>
        ensures ok { OnOk result (self.new ≡ self.old ++ piece ∷ []) }
        ensures err { OnErr result (self.new ≡ self.old) }
    {
        self.kept.push(piece)?;
        Ok(())
    }

    pub fn len(&self) -> usize
        ensures { result ≡ length self.now }
    {
        self.kept.len()
    }

    pub fn get(&self, place: usize) -> Option<&Piece>
        ensures { option_copied result ≡ slice_get self.now place }
    {
        self.kept.get(place)
    }

    pub fn as_slice(&self) -> &[Piece]
        ensures { result.now ≡ self.now }
    {
        self.kept.as_slice()
    }
}
