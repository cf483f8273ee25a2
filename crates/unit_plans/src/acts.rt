//! What a caller asks of a bus, and what it is answered: acts at targets, and acts in the book.

use array_book::{Ask, Begun, End, Noted, Swapped};
use array_journal::At;
use xor_target::{Answer, GoneAt, Order, PeerBack, ShutAnswer};

/// One act at a target: one call of it.
#[derive(Debug, Drop)]
pub enum Act {
    /// A command acts.
    Run { order: Order },
    /// What another target answered to a request of this one is handed back.
    Back { owner: u32, back: PeerBack },
    /// No more orders of a command are taken.
    Shut { owner: u32, opened: At },
    /// The disk is lost, for a call.
    Lose { call: u32 },
    /// The buffer is reset, for a call.
    Wipe { call: u32 },
    /// The next request to a peer will be dropped, for a call.
    DropNext { call: u32 },
    /// A fresh disk comes for a swap, for a call.
    Fresh { call: u32, swap: At },
}

/// What an act at a target is answered.
#[derive(Debug, Drop)]
pub enum Acted {
    /// To an order, to what is handed back, and to a fresh disk.
    Answer { answer: Answer },
    Shut { answer: ShutAnswer },
    /// To a loss: its entry and the life that it ended.
    Gone { answer: GoneAt },
    /// To a reset and to a request to be dropped: the entry that was made.
    Made { at: At },
}

/// One act in the book: one call of it.
#[derive(Debug, Drop)]
pub enum BookAct {
    /// A piece is begun.
    Begin {
        ask: Ask,
    },
    /// A command ends, done or without effect.
    Close {
        command: u32,
        end: End,
    },
    /// A command ends whose delta was lost; its stripe is listed.
    Spoil {
        command: u32,
        diff: At,
        loss: At,
        shut: At,
    },
    /// A loss is noted, with the life that it ended.
    Note {
        slot: u8,
        gone: At,
        life: u32,
    },
    /// A slot gets a new disk, for a call.
    Swap {
        slot: u8,
        call: u32,
    },
}

/// What an act in the book is answered.
#[derive(Debug, Drop)]
pub enum BookActed {
    Begun { answer: Begun },
    Closed { at: At },
    Spoilt { at: At },
    Noted { answer: Noted },
    Swapped { answer: Swapped },
}
