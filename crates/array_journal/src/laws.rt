//! Laws of every run of the array, in every setting in its ranges: of losses, resets, dropped requests,
//! replacements and rebuilds in any order. Each is the contract of a function that does nothing.

ghost use Rattle.array_journal.specs.Joined.{JoinedPartsLaw, NumbersPartViews};
ghost use Rattle.array_journal.specs.Waiting.{SlotsWaitLaw};
ghost use Rattle.array_journal.specs.Known.{WindowReadsLaw, UpdatesOweLaw};
ghost use Rattle.array_journal.specs.Served.{NoOtherAnswerLaw, DeltaFoundLaw, GatheredFoundLaw};
ghost use Rattle.array_journal.specs.Guarded.{GuardedLaw};
ghost use Rattle.array_journal.specs.HeldExactly.{DeltaHeldExactlyLaw, GatheredHeldExactlyLaw};
ghost use Rattle.array_journal.specs.Laws.{LivesLaw, FreshLaw, MendedLaw, UnfittedLaw, AloneLaw, UndisturbedLaw, NoActAfterEndLaw, OneEndLaw, AbsentLaw, PresentLaw, OwnersLaw, HeldApartLaw, DeltaHeldLaw, BeginningsLaw, ByNamesLaw, TargetLaneLaw, BookLaneLaw, NamedLaneLaw, ConservedLaw, LegalLaw};

/// The disks of a slot come one after the other: a loss is noted, the slot is swapped, a fresh disk
/// comes for the swap, and until then the target is gone, holds nothing and is acted on by no command.
pub fn lives_come_in_order()
    ensures counted { LivesLaw }
    ensures replaced { FreshLaw }
    ensures mended { MendedLaw }
    ensures unfitted { UnfittedLaw }
{}

/// While a command of a kind that runs alone is open, no other command is open on its stripe, and no
/// act of another command is made there.
pub fn exclusive_commands_are_alone()
    ensures alone { AloneLaw }
    ensures undisturbed { UndisturbedLaw }
{}

/// After the entry that ends a command no act of it follows, at any lock and with any stamp, and
/// no second end.
pub fn nothing_follows_an_end()
    ensures acts { NoActAfterEndLaw }
    ensures ends { OneEndLaw }
{}

/// A unit is absent exactly where the book has it as missing or its target has no disk that works. So
/// a unit that wasn't missing when a command was opened is there at each of its acts.
pub fn absent_units_are_missing_or_gone()
    ensures exactly { AbsentLaw }
    ensures present { PresentLaw }
{}

/// The blocks that targets hold are of open commands, and no two of them at a target share a row. Where
/// the controller moves deltas, one is held from its diff until its command takes it or is shut there,
/// or an entry that names the command discards it, and no longer.
pub fn held_blocks_are_of_open_commands()
    ensures owners { OwnersLaw }
    ensures apart { HeldApartLaw }
    ensures deltas { DeltaHeldLaw }
{}

/// Each beginning of a run is a run. And a run is told by its names: they rise, and each entry may
/// follow those with a smaller name.
pub fn runs_are_told_by_names()
    ensures beginnings { BeginningsLaw }
    ensures by_names { ByNamesLaw }
{}

/// What a target holds is read from the entries of its own lock alone, what the book holds from
/// those of lock 0, and an entry that is named from those of its name's lock.
pub fn locks_are_read_apart()
    ensures target { TargetLaneLaw }
    ensures book { BookLaneLaw }
    ensures named { NamedLaneLaw }
{}

/// After any entry of any run no block is lost: on each row of a stripe that isn't listed and whose
/// parity unit isn't absent, data and parity together are the deltas still to be folded, each of an
/// open command; and each data unit that isn't absent stands on its medium as the hosts know it.
pub fn nothing_is_lost()
    ensures conserved { ConservedLaw }
{}

/// What hosts read is what one plain list of sectors says of the writes that they were told before.
pub fn reads_are_right()
    ensures legal { LegalLaw }
{}

/// Two runs of one setting that are parts of a journal, each with a beginning of each lock's entries and
/// one of them with all, make the journal a run. No condition on an entry looks at the number of all
/// entries: one that did would let it follow a part and not the whole.
pub fn joined_parts_are_a_run()
    ensures joined { JoinedPartsLaw }
    ensures numbered { NumbersPartViews }
{}

/// While a command is open none of its slots gets a new disk: one that is known to be without a disk
/// stays so, and is swapped no further time.
pub fn slots_wait_for_commands()
    ensures waits { SlotsWaitLaw }
{}

/// What a target holds of a command is, to the byte and from its row on, the delta that its diff made or
/// what its gathering came to, until it is released.
pub fn held_blocks_are_as_made()
    ensures delta { DeltaHeldExactlyLaw }
    ensures gathered { GatheredHeldExactlyLaw }
{}

/// What a command that runs alone has fetched is what its stripe held when it was opened: plain sectors, or
/// the parity that these give.
pub fn windows_read_what_stood()
    ensures reads { WindowReadsLaw }
{}

/// Only updates owe parity a delta.
pub fn only_updates_owe()
    ensures owes { UpdatesOweLaw }
{}

/// A take finds what was held for it, unless that was released: the delta of its command's diff, or what
/// was gathered.
pub fn takes_find_what_is_held()
    ensures delta { DeltaFoundLaw }
    ensures gathered { GatheredFoundLaw }
{}

/// Nothing but a lost disk, a shut or want of memory stands in the way of an act that is due: its rows are
/// in range, no disk came that is too new for it, and where it fills the buffer none of its rows is held
/// and there is room.
pub fn due_acts_are_served()
    ensures served { NoOtherAnswerLaw }
{}

/// Each entry of a run leaves exclusive commands undisturbed, follows the end of no command of its own, and
/// is no act on an absent unit; and a unit is absent exactly where it is missing or its target is gone.
pub fn each_entry_is_guarded()
    ensures guarded { GuardedLaw }
{}
