use array_journal::Journal;
use blocks_core::Bytes;

/// What a command made: a journal, and the text to write.
#[derive(Drop)]
pub struct Made {
    pub journal: Journal,
    pub text: Bytes,
}
