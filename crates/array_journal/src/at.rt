/// The name of an entry: its stamp, and the number of the lock under which it was appended. Lock 0 is
/// the book's, lock i + 1 that of target i.
#[derive(Clone, Copy, Debug, PartialEq, Eq, PartialOrd, Ord)]
pub struct At {
    pub stamp: u64,
    pub lock: u8,
}
