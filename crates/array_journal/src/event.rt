ghost use Rattle.std.specs.Prelude.{◌≡◌, IfOk};

use crate::at::At;
use crate::names::Names;
use crate::task::Task;
use blocks_core::{Bytes, Memory, Owners};
use sbc_cdbs::Cdb;
use sense_data::Sense;
use std::alloc::Global;

/// What a wipe takes away at a target: all held blocks, or one request to a peer that is still to come.
#[derive(Clone, Copy, Debug, PartialEq, Eq)]
pub enum What {
    Buffers,
    Request,
}

/// Why the book refuses a piece.
#[derive(Clone, Copy, Debug, PartialEq, Eq)]
pub enum Why {
    /// The command is answered ILLEGAL REQUEST.
    Illegal { sense: Sense },
    /// The unit is missing and its stripe is listed.
    Medium,
    /// Two units of the stripe are missing.
    NotReady,
    /// The slot to rebuild has no new disk.
    Unfitted,
    /// The unit to rebuild isn't missing.
    Present,
    /// The stripe to rebuild is listed.
    Listed,
    /// A second unit of the stripe to rebuild is missing.
    Second,
    /// The stripe to resync isn't listed.
    Clean,
    /// A unit of the stripe to resync is missing.
    Absent,
    /// The slot to replace isn't noted lost, or has a new disk already.
    NotLost,
}

/// What one entry says. The first ten kinds happen at a target, the others in the book. `opened` names
/// the entry that opened the command; `names` are the entries that an act rests on.
#[derive(Debug, Drop)]
pub enum Event {
    /// Blocks were read from the medium.
    Fetch {
        command: u32,
        opened: At,
        cdb: Cdb,
        row: u32,
        bytes: Bytes,
    },
    /// Blocks were written, made from the fetches that are named.
    Put {
        command: u32,
        opened: At,
        cdb: Cdb,
        row: u32,
        bytes: Bytes,
        names: Names,
    },
    /// New blocks of a host were written; the delta is held here, or sent to the parity target, or
    /// handed back to the controller.
    Diff {
        command: u32,
        opened: At,
        cdb: Cdb,
        row: u32,
        bytes: Bytes,
        sent: bool,
        dropped: bool,
        back: bool,
    },
    /// Held blocks were handed out and released.
    Take {
        command: u32,
        opened: At,
        cdb: Cdb,
        row: u32,
        bytes: Bytes,
    },
    /// A delta was folded into parity: that of the take, or of the sent or handed back diff, that is
    /// named.
    Fold {
        command: u32,
        opened: At,
        cdb: Cdb,
        row: u32,
        bytes: Bytes,
        names: Names,
    },
    /// The exclusive-or of the medium's rows with the fetches that are named was held, or sent, or
    /// handed back.
    Hold {
        command: u32,
        opened: At,
        cdb: Cdb,
        row: u32,
        bytes: Bytes,
        kept: bool,
        names: Names,
        back: bool,
    },
    /// The target takes no more acts of the command. `acted` says that a put, diff or fold of it
    /// stands here, `gone` names the newest loss where the target is gone.
    Shut {
        command: u32,
        opened: At,
        acted: bool,
        gone: Option<At>,
    },
    /// The disk was lost, in its `life`-th life from 0, and the held blocks of `commands` with it.
    Gone {
        life: u32,
        call: u32,
        commands: Owners,
    },
    /// The held blocks of `commands` were discarded, or the next request to a peer will be.
    Wiped {
        what: What,
        call: u32,
        commands: Owners,
    },
    /// A new disk of zeros is in use, for the swap that is named.
    Fresh {
        call: u32,
        swap: At,
    },
    /// A command begins.
    Open {
        command: u32,
        task: Task,
    },
    /// A command ends, done or without effect. `bytes` are the blocks that a degraded read answers.
    Close {
        command: u32,
        done: bool,
        names: Names,
        cause: Option<At>,
        bytes: Bytes,
    },
    /// An update ends with its delta lost, and its stripe is listed.
    Spoil {
        command: u32,
        diff: At,
        loss: At,
        shut: At,
    },
    /// The loss of a slot's disk is known to the book.
    Note {
        slot: u8,
        gone: At,
    },
    /// A noted slot gets a new disk.
    Swap {
        slot: u8,
        call: u32,
    },
    /// A piece of a call is refused.
    Refuse {
        call: u32,
        piece: u32,
        why: Why,
    },
}

impl Event {
    /// A copy with memory of its own. Written by hand, since `clone` can't answer want of memory; the
    /// clause fails where a field is taken from another.
    pub fn copy(&self, alloc: Global) -> Result<Event, Memory>
        ensures { IfOk result (λ copy. copy ≡ self.now) }
    {
        Ok(match self {
            Event::Fetch {
                command,
                opened,
                cdb,
                row,
                bytes,
            } => Event::Fetch {
                command: *command,
                opened: *opened,
                cdb: *cdb,
                row: *row,
                bytes: bytes.copy(alloc)?,
            },
            Event::Put {
                command,
                opened,
                cdb,
                row,
                bytes,
                names,
            } => Event::Put {
                command: *command,
                opened: *opened,
                cdb: *cdb,
                row: *row,
                bytes: bytes.copy(alloc)?,
                names: names.copy(alloc)?,
            },
            Event::Diff {
                command,
                opened,
                cdb,
                row,
                bytes,
                sent,
                dropped,
                back,
            } => Event::Diff {
                command: *command,
                opened: *opened,
                cdb: *cdb,
                row: *row,
                bytes: bytes.copy(alloc)?,
                sent: *sent,
                dropped: *dropped,
                back: *back,
            },
            Event::Take {
                command,
                opened,
                cdb,
                row,
                bytes,
            } => Event::Take {
                command: *command,
                opened: *opened,
                cdb: *cdb,
                row: *row,
                bytes: bytes.copy(alloc)?,
            },
            Event::Fold {
                command,
                opened,
                cdb,
                row,
                bytes,
                names,
            } => Event::Fold {
                command: *command,
                opened: *opened,
                cdb: *cdb,
                row: *row,
                bytes: bytes.copy(alloc)?,
                names: names.copy(alloc)?,
            },
            Event::Hold {
                command,
                opened,
                cdb,
                row,
                bytes,
                kept,
                names,
                back,
            } => Event::Hold {
                command: *command,
                opened: *opened,
                cdb: *cdb,
                row: *row,
                bytes: bytes.copy(alloc)?,
                kept: *kept,
                names: names.copy(alloc)?,
                back: *back,
            },
            Event::Shut {
                command,
                opened,
                acted,
                gone,
            } => Event::Shut {
                command: *command,
                opened: *opened,
                acted: *acted,
                gone: *gone,
            },
            Event::Gone {
                life,
                call,
                commands,
            } => Event::Gone {
                life: *life,
                call: *call,
                commands: commands.copy(alloc)?,
            },
            Event::Wiped {
                what,
                call,
                commands,
            } => Event::Wiped {
                what: *what,
                call: *call,
                commands: commands.copy(alloc)?,
            },
            Event::Fresh { call, swap } => Event::Fresh {
                call: *call,
                swap: *swap,
            },
            Event::Open { command, task } => Event::Open {
                command: *command,
                task: task.copy(alloc)?,
            },
            Event::Close {
                command,
                done,
                names,
                cause,
                bytes,
            } => Event::Close {
                command: *command,
                done: *done,
                names: names.copy(alloc)?,
                cause: *cause,
                bytes: bytes.copy(alloc)?,
            },
            Event::Spoil {
                command,
                diff,
                loss,
                shut,
            } => Event::Spoil {
                command: *command,
                diff: *diff,
                loss: *loss,
                shut: *shut,
            },
            Event::Note { slot, gone } => Event::Note {
                slot: *slot,
                gone: *gone,
            },
            Event::Swap { slot, call } => Event::Swap {
                slot: *slot,
                call: *call,
            },
            Event::Refuse { call, piece, why } => Event::Refuse {
                call: *call,
                piece: *piece,
                why: *why,
            },
        })
    }
}
