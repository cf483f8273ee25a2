//! What a plan asks for, what it is told, and what it replies.

use crate::acts::{Act, Acted, BookAct, BookActed};
use blocks_core::Bytes;
use sense_data::Sense;

/// What a plan has done next.
#[derive(Debug, Drop)]
pub enum Do {
    /// An act at a target.
    Target { number: u8, act: Act },
    /// An act in the book.
    Book { act: BookAct },
    /// Nothing more: the piece has come to its end.
    Reply { reply: Reply },
    /// Nothing more: the piece is begun again.
    Anew,
}

/// What came of the last thing that a plan asked for.
#[derive(Debug, Drop)]
pub enum Said {
    Target { acted: Acted },
    Book { acted: BookActed },
}

/// What a host, or the operator, is told.
#[derive(Debug, Drop)]
pub enum Reply {
    /// GOOD, with the bytes that a read reads.
    Good { bytes: Bytes },
    /// CHECK CONDITION.
    Check { sense: Sense },
    /// An operator's call was done: so many units were made anew, and so many were left.
    Done { made: u32, left: u32 },
    /// An operator's call was refused.
    Refused,
}
