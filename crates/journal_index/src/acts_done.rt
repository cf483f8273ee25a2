//! What a command did.

/// What a command did under a lock: which kinds of entries of it stand there.
#[derive(Clone, Copy, Debug, PartialEq, Eq)]
pub struct ActsDone {
    /// It read from the medium.
    pub fetched: bool,
    /// It wrote to the medium.
    pub put: bool,
    /// It wrote new blocks of a host.
    pub diffed: bool,
    /// It was handed held blocks.
    pub taken: bool,
    /// It folded a delta into parity.
    pub folded: bool,
    /// It gathered an exclusive-or here, whether this is held still or not.
    pub held: bool,
    /// It was shut here: it takes no more acts.
    pub shut: bool,
}
