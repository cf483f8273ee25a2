//! Laws of the book. Each is the contract of a function that does nothing.

ghost use Rattle.std.specs.Prelude.{◌≡◌, ℕ, List};
ghost use Rattle.array_journal.specs.declared.entry.Entry.{Entry};
ghost use Rattle.array_journal.specs.Lives.{is_missing, has_rebuilt};
ghost use Rattle.array_book.specs.Findings.{OpensAlike, SwapsAlike, NotesAlike, NewestIsGreatest};
ghost use Rattle.array_book.specs.Noted.{missing_by, opened_since};

/// The unit of a target in a stripe is missing where its slot is noted and no command that was opened to
/// rebuild it since the newest note did so and is closed as done.
pub fn units_are_missing_by_rebuilds()
    ensures { (target stripe : ℕ) (past : List Entry) → is_missing target stripe past ≡ missing_by (has_rebuilt past target stripe) (opened_since target stripe past) }
{}

/// What the book finds over its own entries holds over each journal that has these at the book's lock: that a command
/// may be opened, a slot swapped, and a loss noted; and a stamp greater than the book's newest is greater than each of
/// the book's.
pub fn findings_hold_over_journals()
    ensures opens { OpensAlike }
    ensures swaps { SwapsAlike }
    ensures notes { NotesAlike }
    ensures later { NewestIsGreatest }
{}
