use array_journal::Kind;

/// What a report needs of a task.
#[derive(Clone, Copy, Debug, PartialEq, Eq)]
pub struct Brief {
    pub call: u32,
    pub piece: u32,
    pub kind: Kind,
    pub stripe: u32,
    pub target: u8,
    /// Whether it makes the parity of its stripe anew.
    pub renews: bool,
}

/// What is known of a command: its task, once it was opened, and whether it is closed as done.
#[derive(Clone, Copy, Debug, PartialEq, Eq)]
pub struct CommandSummary {
    pub brief: Option<Brief>,
    pub done: bool,
}

/// How many pieces of a call were closed as done, and how many were refused and left as they are.
#[derive(Clone, Copy, Debug, PartialEq, Eq)]
pub struct Tally {
    pub done: u64,
    pub left: u64,
}
