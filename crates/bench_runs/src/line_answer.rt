use xor_target::Answer;

/// What a line of a bench comes to.
#[derive(Debug, Drop)]
pub enum LineAnswer {
    /// A command was answered so.
    Answered(Answer),
    /// The target lost its disk, was reset, drops a request or got a fresh disk.
    Done,
}
