//! What a piece wants, and how the book may serve it.

ghost use Rattle.std.specs.Prelude.{◌≡◌};
ghost use Rattle.array_journal.specs.Decision.{want_of};

use crate::event::Why;
use crate::task::Kind;

/// What a piece wants: to read or write blocks, to rebuild a unit, to make parity anew.
#[derive(Clone, Copy, Debug, PartialEq, Eq)]
pub enum Want {
    Read,
    Write,
    Rebuild,
    Resync,
}

impl Want {
    /// What the commands of a kind are opened for.
    pub fn of(kind: Kind) -> Want
        ensures { result ≡ want_of kind }
    {
        match kind {
            Kind::Read | Kind::DegradedRead => Want::Read,
            Kind::Update | Kind::DataOnly | Kind::DegradedWrite => Want::Write,
            Kind::Rebuild => Want::Rebuild,
            Kind::Resync => Want::Resync,
        }
    }
}

/// How a piece is served: a command of this kind opens, or the piece is refused.
#[derive(Clone, Copy, Debug)]
pub enum Decision {
    Opens(Kind),
    Refuses(Why),
}
