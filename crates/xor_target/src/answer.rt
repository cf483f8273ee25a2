use crate::order::PeerRequest;
use array_journal::{At, Names};
use blocks_core::Bytes;
use sense_data::Sense;

/// What came of a request to a peer.
#[derive(Debug, Drop)]
pub enum PeerBack {
    Good { bytes: Bytes, made: Names },
    Failed,
}

/// What a target answers. `made` names the entries that the command made, in the order of stamps; `loss` is
/// the newest entry here that discarded blocks of the owner.
#[derive(Debug, Drop)]
pub enum Answer {
    /// GOOD, with the bytes that the command reads.
    Good {
        bytes: Bytes,
        made: Names,
    },
    /// CHECK CONDITION.
    Check {
        sense: Sense,
        made: Names,
        loss: Option<At>,
    },
    /// The disk is lost, in its `life`-th life from 0, by the entry `at`, the newest such.
    Gone {
        at: At,
        life: u32,
        loss: Option<At>,
    },
    /// The owner was shut here, by the entry `at`.
    Shut {
        at: At,
    },
    /// A peer is to be asked first.
    Peer {
        request: PeerRequest,
        made: Names,
    },
    /// Want of memory; the target is as it was.
    Memory,
}

/// What a shut made: its entry, whether a write of the owner stands here, and the newest loss where the
/// disk is gone, with the number of disks that came after the first.
#[derive(Clone, Copy, Debug, PartialEq, Eq)]
pub struct ShutAnswer {
    pub at: At,
    pub acted: bool,
    pub gone: Option<At>,
    pub life: u32,
}

/// The entry that says that a disk was lost, and in which life.
#[derive(Clone, Copy, Debug, PartialEq, Eq)]
pub struct GoneAt {
    pub at: At,
    pub life: u32,
}
