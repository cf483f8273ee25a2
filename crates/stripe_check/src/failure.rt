use array_journal::Why;

/// Why a call failed.
#[derive(Clone, Copy, Debug, PartialEq, Eq)]
pub enum Failure {
    /// A piece of it was refused.
    Refused { why: Why },
    /// An update of it lost its delta.
    Spoilt,
}
