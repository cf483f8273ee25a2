//! The layout of a parity array: which target and row each block of the host stands on.
#![tactic(auto)]

mod areas;
mod cutting;
mod geometry;
pub mod laws;
mod mode;
mod numbering;
mod pieces;
mod rows;

pub use areas::{Area, Areas};
pub use geometry::{Geometry, Place};
pub use mode::Mode;
pub use pieces::{Piece, Pieces};
