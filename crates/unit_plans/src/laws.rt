//! Laws of what targets answer. Each is the contract of a function that does nothing.

ghost use Rattle.unit_plans.specs.ActLaws.{ActsMayFollow, ActsKeepShapes, BookActsMayFollow};
ghost use Rattle.unit_plans.specs.Answered.{AnswersMayFollow, ResumesMayFollow};
ghost use Rattle.unit_plans.specs.Findings.{TargetsKnowThemselves, NextIsLater, GrowthIsSeen};
ghost use Rattle.unit_plans.specs.Gathered.{GatheringBegins, GatheringGoesOn, GatheringStays, GatheringEnds};
ghost use Rattle.unit_plans.specs.Orders.{OwnRowsComeFirst};
ghost use Rattle.unit_plans.specs.PlanLaws.{PlansAskWhatMayBeDone, PlansAreToldOfActs, PlansAreToldOfCloses, PlansGoOn, PlansAreAnswered, PlansAreLeft, PlansBegin};
ghost use Rattle.unit_plans.specs.ServedOrders.{OrdersAreServed};
ghost use Rattle.unit_plans.specs.Followers.{FetchMayFollow, PutMayFollow, DiffMayFollow, TakeMayFollow, FoldMayFollow, HoldMayFollow, ShutMayFollow, LossMayFollow, ResetMayFollow, DropMayFollow, FreshMayFollow, FailureMayFollow};

/// What a target finds over its own entries holds over each journal that has these at the target's lock; and the stamp of
/// its next entry comes after those that stand there, and after what was seen. With that entry the journal has the target's
/// entries again.
pub fn findings_hold_over_journals()
    ensures knows { TargetsKnowThemselves }
    ensures later { NextIsLater }
    ensures seen { GrowthIsSeen }
{}

/// What befalls a target makes an entry that may follow the journal.
pub fn befallings_may_follow()
    ensures shut { ShutMayFollow }
    ensures lost { LossMayFollow }
    ensures reset { ResetMayFollow }
    ensures dropping { DropMayFollow }
    ensures fresh { FreshMayFollow }
    ensures failed { FailureMayFollow }
{}

/// A command that reads, writes or folds blocks and is done makes an entry that may follow the journal.
pub fn moved_blocks_may_follow()
    ensures fetch { FetchMayFollow }
    ensures put { PutMayFollow }
    ensures fold { FoldMayFollow }
{}

/// So does one whose delta, or what it gathered, is held, handed back, sent, or taken.
pub fn deltas_may_follow()
    ensures diff { DiffMayFollow }
    ensures take { TakeMayFollow }
    ensures hold { HoldMayFollow }
{}

/// Whatever a target answers to an order whose act is asked for, or to what another target answered, it has no entry more,
/// or one that may follow the journal.
pub fn answers_may_follow()
    ensures ordered { AnswersMayFollow }
    ensures resumed { ResumesMayFollow }
{}

/// In a run the first held blocks that contain what a command holds are the command's.
pub fn own_rows_come_first()
    ensures { OwnRowsComeFirst }
{}

/// What a gathering has so far is what the entries that it names have read; so the order that is done has the exclusive-or
/// of all of them, and its intermediate data.
pub fn gatherings_have_what_was_read()
    ensures begins { GatheringBegins }
    ensures goes_on { GatheringGoesOn }
    ensures stays { GatheringStays }
    ensures ends { GatheringEnds }
{}

/// Whatever is done at a target over a bus, by who may ask for it, makes no entry or one that may follow; and the target keeps its
/// shape.
pub fn acts_may_follow()
    ensures follow { ActsMayFollow }
    ensures shapes { ActsKeepShapes }
{}

/// So does whatever is done in the book.
pub fn book_acts_may_follow()
    ensures { BookActsMayFollow }
{}

/// An order for an act that is due is served, where the disk works and no medium fails.
pub fn due_orders_are_served()
    ensures { OrdersAreServed }
{}

/// What the plan of a read or an update asks for may be done, over a bus that is alone: each act is asked for once, over the
/// entries that it rests on, and the close by all of them. What comes of it is an answer that the plan goes on from; and entries
/// of others leave what it has asked for. A command that was just opened stands at its beginning. For now nothing may befall a
/// target, as no plan has an answer to that yet.
pub fn plans_come_to_their_ends()
    ensures asks { PlansAskWhatMayBeDone }
    ensures told_acts { PlansAreToldOfActs }
    ensures told_closes { PlansAreToldOfCloses }
    ensures answered { PlansAreAnswered }
    ensures goes_on { PlansGoOn }
    ensures left { PlansAreLeft }
    ensures begins { PlansBegin }
{}
