//! Laws of how calls of hosts come through their pieces. Each is the contract of a function that does nothing.

ghost use Rattle.array_control.specs.ApartLaws.{CallsAreApart, CommandsHaveTheirCall, NoneOpensAgain};
ghost use Rattle.array_control.specs.Begins.{PiecesAreBegunAsAsked};
ghost use Rattle.array_control.specs.HostLaws.{HostsBegin, OthersLeaveHosts, ToldCallsAreServed, ToldCallsAreReported};
ghost use Rattle.array_control.specs.PassLaws.{NewPassBegins, UnitBegins, UnitGoesOn, UnitEnds, GivenUpUnitStays, RefusedUnitIsPassed, LastUnitEnds, OthersLeavePasses, PassesAreTold, NewCallsHaveNoSteps, EntriesAddSteps, OthersAddNoSteps};
ghost use Rattle.array_control.specs.ReplyLaws.{EndedCallsAreServed, EndedCallsAreReported, RefusedCallsAreServed, RefusedCallsAreReported};
ghost use Rattle.array_control.specs.ProgressLaws.{NewCallBegins, IllegalCallEnds, PieceBegins, ActsGoOn, PieceEnds, WholePieceEnds, GivenUpPieceStays, SpoiltPieceEnds, RefusedPieceEnds, LastPieceEnds, OthersLeaveCalls};

/// A new call is at its first piece, or is refused by its one entry.
pub fn calls_begin()
    ensures begins { NewCallBegins }
    ensures illegal { IllegalCallEnds }
{}

/// Entry by entry a command serves a piece.
pub fn pieces_are_served()
    ensures begins { PieceBegins }
    ensures goes_on { ActsGoOn }
    ensures done { PieceEnds }
    ensures whole { WholePieceEnds }
    ensures given_up { GivenUpPieceStays }
{}

/// A call ends with a piece that fails, or with its last piece.
pub fn calls_end()
    ensures spoilt { SpoiltPieceEnds }
    ensures refused { RefusedPieceEnds }
    ensures done { LastPieceEnds }
{}

/// Entries of other calls leave a call where it is.
pub fn others_leave_calls()
    ensures { OthersLeaveCalls }
{}

/// Entries of one call are none of another's; a command's are of the call that it was opened for, and no other command gets its
/// number.
pub fn calls_are_apart()
    ensures apart { CallsAreApart }
    ensures commands { CommandsHaveTheirCall }
    ensures once { NoneOpensAgain }
{}

/// A call that has come to its end has all entries that it asks for, and its reply is what a report says of it.
pub fn ended_calls_are_told()
    ensures served { EndedCallsAreServed }
    ensures told { EndedCallsAreReported }
    ensures refused { RefusedCallsAreServed }
    ensures refusal_told { RefusedCallsAreReported }
{}

/// A call that goes over all stripes comes through its pieces entry by entry, whatever becomes of each of them, and entries of
/// other calls leave it where it is. Its reply is what a report says of it.
pub fn passes_go_over_all()
    ensures begins { NewPassBegins }
    ensures unit_begins { UnitBegins }
    ensures goes_on { UnitGoesOn }
    ensures done { UnitEnds }
    ensures given_up { GivenUpUnitStays }
    ensures refused { RefusedUnitIsPassed }
    ensures over { LastUnitEnds }
    ensures others { OthersLeavePasses }
    ensures told { PassesAreTold }
{}

/// The steps of any call: a new one has none, each of its entries adds its own, and those of others add none.
pub fn steps_are_of_their_call()
    ensures none { NewCallsHaveNoSteps }
    ensures more { EntriesAddSteps }
    ensures others { OthersAddNoSteps }
{}

/// What becomes of a piece over a bus is what a judge of a script's journal asks of it.
pub fn pieces_are_begun_as_asked()
    ensures { PiecesAreBegunAsAsked }
{}

/// A host stands before its first call, and where it stands an entry of a call that isn't its own leaves it. What its calls were
/// told is what a report says of them.
pub fn hosts_stand()
    ensures begins { HostsBegin }
    ensures others { OthersLeaveHosts }
    ensures served { ToldCallsAreServed }
    ensures told { ToldCallsAreReported }
{}
