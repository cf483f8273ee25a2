/// The six things that a command does at a target.
#[derive(Clone, Copy, Debug, PartialEq, Eq)]
pub enum Act {
    /// It reads blocks from the medium.
    Fetches,
    /// It writes blocks that the controller made.
    Puts,
    /// It writes a host's blocks over old ones, and their difference is the delta.
    Diffs,
    /// It takes held blocks out of the buffer.
    Takes,
    /// It folds a delta into parity.
    Folds,
    /// It gathers blocks of other targets, and the buffer holds their sum.
    Holds,
}
