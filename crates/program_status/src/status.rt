//! The statuses that a process ends with.

ghost use Rattle.std.specs.Prelude.{◌≡◌};
ghost use Rattle.program_status.specs.Statuses.{verdict_code, code_of};

/// What an input, or bytes in words, were found to be where nothing comes of them.
#[derive(Clone, Copy, Debug, PartialEq, Eq)]
pub enum Verdict {
    /// It isn't what it is said to be.
    Rejected,
    /// It is spelt wrong, or asks for what can't be done.
    Refused,
    /// There is too much of something.
    Exceeded,
}

/// How a program ends.
#[derive(Clone, Copy, Debug, PartialEq, Eq)]
pub enum Status {
    /// It did what it was asked.
    Done,
    /// It was handed what nothing comes of.
    Found(Verdict),
    /// A read failed.
    ReadFault,
    /// A write failed.
    WriteFault,
    /// Want of memory.
    NoMemory,
    /// Its words ask for nothing that it does.
    Usage,
}

impl Verdict {
    /// Its number among the statuses of a process.
    pub fn code(self) -> u8
        ensures { result ≡ verdict_code self }
    {
        match self {
            Verdict::Rejected => 1,
            Verdict::Refused => 2,
            Verdict::Exceeded => 7,
        }
    }
}

impl Status {
    /// The number that the process ends with.
    pub fn code(self) -> u8
        ensures { result ≡ code_of self }
    {
        match self {
            Status::Done => 0,
            Status::Found(verdict) => verdict.code(),
            Status::ReadFault => 3,
            Status::WriteFault => 4,
            Status::NoMemory => 5,
            Status::Usage => 64,
        }
    }
}
