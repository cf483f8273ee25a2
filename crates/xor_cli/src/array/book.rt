ghost use Rattle.std.specs.Prelude.{◌≡◌, []};

use array_journal::Journal;
use std::alloc::Global;

/// The book: how many commands were opened, and the entries of its lock.
#[derive(Debug, Drop)]
pub struct Book {
    pub commands: u32,
    pub entries: Journal,
}

impl Book {
    /// A book in which nothing stands yet.
    pub fn new(alloc: Global) -> Book
        ensures { result ≡ record { commands = 0; entries = [] } }
    {
        Book {
            commands: 0,
            entries: Journal::new(alloc),
        }
    }
}
