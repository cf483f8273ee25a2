//! What calls ask for, tried on journals of constants: each law speaks of its few journals alone, which the
//! function's sentence tells in general words.
ghost use Rattle.stripe_check.specs.AskedExamples.{WriteAndReadAsked, UnclosedUnasked, OtherBlockUnasked, OtherOrderUnasked, UnservedUnasked, GivenUpAsked, RefusedAsked, OtherReasonUnasked, RebuiltAsked, SpoiltAsked, HandedBackAsked, GatheredAsked, IllegalAsked, EitherHostFirst, OutOfTurnUnasked, UnnotedUnasked, LossAllowed, StrangerUnasked};

/// A block written and read back is what its two calls ask for, and not what others ask for.
pub fn write_and_read()
    ensures asked { WriteAndReadAsked }
    ensures unclosed { UnclosedUnasked }
    ensures other_block { OtherBlockUnasked }
    ensures other_order { OtherOrderUnasked }
    ensures unserved { UnservedUnasked }
{}

/// Commands that are given up, spoilt and gathered, and disks that are lost, replaced and rebuilt.
pub fn lost_disks()
    ensures given_up { GivenUpAsked }
    ensures spoilt { SpoiltAsked }
    ensures gathered { GatheredAsked }
    ensures rebuilt { RebuiltAsked }
{}

/// In readback mode, a delta that was handed back isn't lost by a reset.
pub fn handed_back_deltas()
    ensures { HandedBackAsked }
{}

/// Refusals by the book.
pub fn refused_pieces()
    ensures asked { RefusedAsked }
    ensures other_reason { OtherReasonUnasked }
{}

/// Calls of hosts that fail a test.
pub fn illegal_calls()
    ensures { IllegalAsked }
{}

/// Calls of one host come one after another, those of two hosts in any order.
pub fn turns_of_hosts()
    ensures either_first { EitherHostFirst }
    ensures out_of_turn { OutOfTurnUnasked }
{}

/// A loss by a call is noted, and no entry is of no call but a loss.
pub fn losses_and_strangers()
    ensures unnoted { UnnotedUnasked }
    ensures loss { LossAllowed }
    ensures stranger { StrangerUnasked }
{}
