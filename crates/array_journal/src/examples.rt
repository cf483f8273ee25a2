//! The definitions tried on journals of constants: journals that are runs, and entries that may not follow
//! some journal, which the function's sentence tells in general words. Only `two_puts_for_a_write_barred`
//! speaks of every journal.
ghost use Rattle.array_journal.specs.ExampleJournals.{WriteAndReadRuns, LossMeetsAReadRuns, UnfoldedStaysOpen, UpdateBarsDegradedRead, BesideUpdateRuns, UnputStaysOpen, RebuildingRuns, OldCommandsBarred, ParityReplacedRuns, ListedUnitsUnread, SpoiltRuns, TwoLostUnread, TwoLostRuns};
ghost use Rattle.array_journal.specs.Wrong.{FoldsTheTaken, OneDiff, UpdatesApart, FetchesWhatStands, RewriteOwesZeros, UpdatesPutNothing, DataAloneWantsParityLost, ShutBarsTheFold};
ghost use Rattle.array_journal.specs.Examples.{PutAloneRuns, DeltaWipedRuns, RebuiltRuns, GatheredRuns, RefusedRuns};
ghost use Rattle.array_journal.specs.Readback.{HandedBackRuns, HandedBackIsNotHeld, HandsBackByMode, FoldsTheHandedBack, FoldsNothingElse, TakesNothing};

/// A block written by an update and read back is a run.
pub fn write_and_read()
    ensures { WriteAndReadRuns }
{}

/// A read that meets a lost disk, is given up and served from the others is a run.
pub fn loss_meets_a_read()
    ensures { LossMeetsAReadRuns }
{}

/// An update isn't closed as done before its fold.
pub fn unfolded_stays_open()
    ensures { UnfoldedStaysOpen }
{}

/// A degraded read isn't opened while an update is open on its stripe.
pub fn update_bars_degraded_read()
    ensures run { BesideUpdateRuns }
    ensures barred { UpdateBarsDegradedRead }
{}

/// A rebuild isn't closed as done before its put.
pub fn unput_stays_open()
    ensures run { RebuildingRuns }
    ensures barred { UnputStaysOpen }
{}

/// An update doesn't fold into a disk that came after it.
pub fn old_commands_barred()
    ensures run { ParityReplacedRuns }
    ensures barred { OldCommandsBarred }
{}

/// A missing unit of a listed stripe isn't read.
pub fn listed_units_unread()
    ensures run { SpoiltRuns }
    ensures barred { ListedUnitsUnread }
{}

/// A stripe of which two units are missing isn't read.
pub fn two_lost_unread()
    ensures run { TwoLostRuns }
    ensures barred { TwoLostUnread }
{}

/// Journals of puts, wipes and spoils, swaps and fresh disks, holds and refusals are runs.
pub fn other_kinds_run()
    ensures put { PutAloneRuns }
    ensures wiped { DeltaWipedRuns }
    ensures rebuilt { RebuiltRuns }
    ensures gathered { GatheredRuns }
    ensures refused { RefusedRuns }
{}

/// A fold that names a take folds what was taken, and no other delta.
pub fn another_delta_is_not_folded()
    ensures { FoldsTheTaken }
{}

/// A fetch has the bytes that stand on the medium, and no others.
pub fn other_bytes_are_not_fetched()
    ensures { FetchesWhatStands }
{}

/// A command makes one diff.
pub fn second_diff_barred()
    ensures { OneDiff }
{}

/// An update isn't opened while another writes its row.
pub fn conflicting_write_barred()
    ensures { UpdatesApart }
{}

/// A block that is written over by the same bytes owes a delta of zeros until it is folded.
pub fn rewrite_owes_zeros()
    ensures { RewriteOwesZeros }
{}

/// A controller doesn't write data and parity by two puts: an update puts nothing, and data is put alone
/// only where its stripe's parity unit is missing.
pub fn two_puts_for_a_write_barred()
    ensures update { UpdatesPutNothing }
    ensures alone { DataAloneWantsParityLost }
{}

/// An update that was given up doesn't fold into parity where it was shut.
pub fn fold_after_a_shut_barred()
    ensures { ShutBarsTheFold }
{}

/// In readback mode a delta survives a reset, since no target holds it; it is folded as it was handed back;
/// and no diff keeps its delta, no fold rests on one that did, and nothing is taken.
pub fn handed_back_deltas()
    ensures run { HandedBackRuns }
    ensures held { HandedBackIsNotHeld }
    ensures diff { HandsBackByMode }
    ensures fold { FoldsTheHandedBack }
    ensures source { FoldsNothingElse }
    ensures take { TakesNothing }
{}
