use array_journal::{At, Names};
use blocks_core::Bytes;

/// A command as it is sent to a target (SPC): whose it is, the CDB, and the bytes that come with it.
/// `opened` names the entry that opened the owner's command, `names` the entries that the act rests on, and
/// `stamp` is the greatest stamp that the sender has seen.
#[derive(Debug, Drop)]
pub struct Order {
    pub owner: u32,
    pub opened: At,
    pub names: Names,
    pub stamp: u64,
    pub cdb: Bytes,
    pub bytes: Bytes,
}

/// What one target asks of another, by their numbers.
#[derive(Debug, Drop)]
pub struct PeerRequest {
    pub from: u8,
    pub to: u8,
    pub order: Order,
}
