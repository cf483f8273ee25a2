//! Laws of what may follow a journal: it falls into what is asked of the caller, what the lock finds,
//! and the stamp; and what is asked of a command's own entries can be asked of these alone.
ghost use Rattle.array_journal.specs.Parts.{MayHasParts, PartsGiveMay};
ghost use Rattle.array_journal.specs.OwnEntries.{OthersLeaveMine, OwnEntriesStand, OwnTestsAgree, CommandsSeenInOwn};
ghost use Rattle.array_journal.specs.Calls.{NewToBoth, NewCallsHaveNothing};

/// An entry that may follow a journal is asked for, found so by its lock, and later.
pub fn may_has_parts()
    ensures { MayHasParts }
{}

/// An entry that is asked for, found so by its lock, and later may follow a journal.
pub fn parts_give_may()
    ensures { PartsGiveMay }
{}

/// What others append leaves an owner's entries as they are.
pub fn others_leave_mine()
    ensures { OthersLeaveMine }
{}

/// A named entry of an owner stands in a journal exactly where it stands in the owner's entries, as long as
/// no two entries have one name.
pub fn own_entries_stand()
    ensures { OwnEntriesStand }
{}

/// An event that carries an owner stands in a journal exactly where it stands in the owner's entries.
pub fn own_tests_agree()
    ensures { OwnTestsAgree }
{}

/// A command's own entries tell its task, and whether it is open.
pub fn commands_seen_in_own()
    ensures { CommandsSeenInOwn }
{}

/// A call that is new to some entries, losses and wipes and the calls of their commands counted, stays new
/// where entries of other calls come; and it has no entries and no commands there.
pub fn new_calls()
    ensures both { NewToBoth }
    ensures nothing { NewCallsHaveNothing }
{}
