//! A call of a host that moves blocks, and how far it has come.

ghost use Rattle.std.specs.Prelude.{◌≡◌, ◌==◌};

use blocks_core::Bytes;
use host_requests::Transfer;
use unit_plans::{Do, Plan};

/// A piece that a command serves: its plan, and what that has asked for.
#[derive(Debug, Drop)]
pub(crate) struct PieceRun {
    pub plan: Plan,
    pub next: Do,
}

/// A call that moves blocks: its number from 1, into how many pieces it is cut, which of them is next or is served, and what
/// was read by those before it.
#[derive(Debug, Drop)]
pub(crate) struct CallRun<'a> {
    pub(crate) number: u32,
    pub(crate) transfer: Transfer<'a>,
    pub(crate) count: u32,
    pub(crate) piece: u32,
    pub(crate) read: Bytes,
    pub(crate) doing: Option<PieceRun>,
}

impl CallRun<'_> {
    /// Whether all its pieces are done: nothing is left to do but to tell its host.
    pub(crate) fn is_done(&self) -> bool
        ensures { result ≡ (self.now.piece == self.now.count) }
    {
        self.piece == self.count
    }

    /// What it has read, to be told.
    pub(crate) fn into_read(self) -> Bytes
        ensures { result ≡ self.entry.read }
    {
        self.read
    }
}
