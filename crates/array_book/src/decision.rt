//! How the book serves a piece: one table, over facts that are handed in. The book takes them from the
//! state that it keeps, a judge of journals from the entries before the one that it judges; since both
//! ask this table, a run can't be refused that the book would make, nor the other way round.

ghost use Rattle.std.specs.Prelude.{◌≡◌, ◌&&◌, ℕ, List, nat_le, not, if◌then◌else◌};
ghost use Rattle.array_journal.specs.declared.entry.Entry.{Entry};
ghost use Rattle.array_journal.specs.declared.event.Why.TheVariants.{Medium, NotReady, Unfitted, Present, Listed, Second, Clean, Absent};
ghost use Rattle.array_journal.specs.declared.setting.Setting.{Setting};
ghost use Rattle.array_journal.specs.declared.task.Kind.TheVariants as kinds;
ghost use Rattle.array_journal.specs.declared.decision.Decision.TheVariants.{Opens, Refuses};
ghost use Rattle.array_journal.specs.Decision.{decision};
ghost use Rattle.array_book.specs.Decisions.{facts_of};

use array_journal::{Decision, Kind, Want, Why};

/// What the table asks about a piece at a target of a stripe.
#[derive(Clone, Copy, Debug, PartialEq, Eq)]
pub struct Facts {
    /// The target's unit is missing.
    pub missing: bool,
    /// The stripe is listed: its parity can't be trusted.
    pub listed: bool,
    /// How many units of the stripe are missing.
    pub missing_count: usize,
    /// The stripe's parity unit is missing.
    pub parity_missing: bool,
    /// The target's slot is noted, and has no new disk yet.
    pub unfitted: bool,
    /// The target is the stripe's parity target.
    pub at_parity: bool,
}

/// Blocks of a missing unit can be read from the others only while parity can be trusted and no second
/// unit is missing.
fn decide_read(facts: &Facts) -> Decision
    ensures { result ≡ (if facts.now.missing && facts.now.listed then Refuses Medium
        else if nat_le 2 facts.now.missing_count then Refuses NotReady
        else if not facts.now.missing then Opens kinds.Read
        else Opens kinds.DegradedRead) }
{
    if facts.missing && facts.listed {
        Decision::Refuses(Why::Medium)
    } else if facts.missing_count >= 2 {
        Decision::Refuses(Why::NotReady)
    } else if !facts.missing {
        Decision::Opens(Kind::Read)
    } else {
        Decision::Opens(Kind::DegradedRead)
    }
}

/// Blocks of a missing unit go into parity alone; where parity is missing, blocks go to their unit
/// alone, since there is nothing to fold into.
fn decide_write(facts: &Facts) -> Decision
    ensures { result ≡ (if facts.now.missing && facts.now.listed then Refuses Medium
        else if nat_le 2 facts.now.missing_count then Refuses NotReady
        else if facts.now.missing then Opens kinds.DegradedWrite
        else if facts.now.parity_missing then Opens kinds.DataOnly
        else Opens kinds.Update) }
{
    if facts.missing && facts.listed {
        Decision::Refuses(Why::Medium)
    } else if facts.missing_count >= 2 {
        Decision::Refuses(Why::NotReady)
    } else if facts.missing {
        Decision::Opens(Kind::DegradedWrite)
    } else if facts.parity_missing {
        Decision::Opens(Kind::DataOnly)
    } else {
        Decision::Opens(Kind::Update)
    }
}

/// A data unit of a listed stripe can't be rebuilt, because it would be made from a parity that lost a
/// delta; the parity unit itself is made from the data, which clears the stripe.
fn decide_rebuild(facts: &Facts) -> Decision
    ensures { result ≡ (if facts.now.unfitted then Refuses Unfitted
        else if not facts.now.missing then Refuses Present
        else if facts.now.listed && not facts.now.at_parity then Refuses Listed
        else if nat_le 2 facts.now.missing_count then Refuses Second
        else Opens kinds.Rebuild) }
{
    if facts.unfitted {
        Decision::Refuses(Why::Unfitted)
    } else if !facts.missing {
        Decision::Refuses(Why::Present)
    } else if facts.listed && !facts.at_parity {
        Decision::Refuses(Why::Listed)
    } else if facts.missing_count >= 2 {
        Decision::Refuses(Why::Second)
    } else {
        Decision::Opens(Kind::Rebuild)
    }
}

/// Parity is made anew only where it has to be, and only from all data units.
fn decide_resync(facts: &Facts) -> Decision
    ensures { result ≡ (if not facts.now.listed then Refuses Clean
        else if nat_le 1 facts.now.missing_count then Refuses Absent
        else Opens kinds.Resync) }
{
    if !facts.listed {
        Decision::Refuses(Why::Clean)
    } else if facts.missing_count >= 1 {
        Decision::Refuses(Why::Absent)
    } else {
        Decision::Opens(Kind::Resync)
    }
}

/// How a piece is served, by the facts about its target and stripe.
pub fn decide(want: Want, facts: &Facts) -> Decision
    ensures { (s : Setting) (stripe target : ℕ) (past : List Entry) → facts.now ≡ facts_of s stripe target past
        → result ≡ decision s want stripe target past }
{
    match want {
        Want::Read => decide_read(facts),
        Want::Write => decide_write(facts),
        Want::Rebuild => decide_rebuild(facts),
        Want::Resync => decide_resync(facts),
    }
}
