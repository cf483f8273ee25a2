//! The bus over which commands act: targets and a book, whoever keeps them, and whoever else acts there.

ghost use Rattle.std.specs.Prelude.{◌≡◌, ◌<◌, ◌≤◌, ℕ, Bool, List, IsTrue, IfOk, IfErr, MatchOption};
ghost use Rattle.array_journal.specs.declared.entry.Entry.{Entry};
ghost use Rattle.array_journal.specs.Merge.{AreOfLocks};
ghost use Rattle.array_journal.specs.Run.{Grows, IsSetting};
ghost use Rattle.array_book.specs.Asks.{IsWant};
ghost use Rattle.array_book.specs.BookAnswers.{HasToWait, HasToWaitForSwap};
ghost use Rattle.outer_io.specs.Outside.{HasRisen};
ghost use Rattle.unit_plans.specs.Buses.{BusSetting, merged, EachBeginsWith, HasNoFailure};
ghost use Rattle.unit_plans.specs.declared.bus.Stop.TheVariants.{Disk};
ghost use Rattle.unit_plans.specs.Conditions.{CanAct, CanBook, SeesOwn};
ghost use Rattle.unit_plans.specs.Effects.{IsDoneAt, IsDoneInBook};

use crate::acts::{Act, Acted, BookAct, BookActed};
use array_book::Ask;
use blocks_core::Memory;
use std::alloc::Global;

/// Why a bus stops. It hands no pass back then.
#[derive(Clone, Copy, Debug, PartialEq, Eq)]
pub enum Stop {
    /// Want of memory.
    Memory,
    /// The disk failed that the array is kept on.
    Disk,
}

impl From<Memory> for Stop {
    ghost use Rattle.std.specs.Prelude.{◌≡◌};
    ghost use Rattle.unit_plans.specs.declared.bus.Stop.TheVariants as stops;

    ghost from_gives = { λ _ e. e ≡ stops.Memory };

    fn from(_error: Memory) -> Stop {
        Stop::Memory
    }
}

/// Targets and a book, over which commands act. A caller acts with a pass, which stands for what it has seen of the entries and
/// for those that it has made; each act takes the pass and hands it back. Others may act between two acts of a caller, unless
/// the bus is alone.
///
/// A bus gives each call of a target or the book the greatest stamp that the pass has seen, also in place of an order's.
pub trait Bus {
    type Pass: Drop;

    /// Whether there is one caller: its history is all entries, and nothing comes between its acts.
    ghost alone: { Bool };

    /// Whether no medium ever fails.
    ghost reliable: { Bool };

    /// What its targets and its book were made with.
    ghost setting: { Self → BusSetting };

    /// How often what it keeps the array on has failed.
    ghost faults: { Self → ℕ };

    /// A pass is one of this bus, as the bus last handed it out.
    ghost IsPass: { Self → Self.Pass → Type 0 };

    /// The entries that a pass has seen, one list for each lock, the oldest entry first.
    ghost history: { Self → Self.Pass → List (List Entry) };

    /// Those of them that its caller has made, the newest first.
    ghost made: { Self → Self.Pass → List Entry };

    /// Acts at a target.
    fn target(
        &mut self,
        alloc: Global,
        number: u8,
        pass: Self::Pass,
        act: Act,
    ) -> Result<(Acted, Self::Pass), Stop>
        requires pass { IsPass self.old pass }
        requires number { number < (setting self.old).array.geometry.targets }
        requires act { CanAct (setting self.old).array (merged (history self.old pass)) (made self.old pass) number act }
        ensures pass { IfOk result (λ r. IsPass self.new r.1) }
        ensures begins { IfOk result (λ r. EachBeginsWith (history self.new r.1) (history self.old pass)) }
        ensures run { IfOk result (λ r. Grows (setting self.old).array (merged (history self.old pass)) → Grows (setting self.old).array (merged (history self.new r.1))) }
        ensures done { IfOk result (λ r. IsDoneAt alone reliable (setting self.old) number act r.0 (merged (history self.old pass)) (made self.old pass) (merged (history self.new r.1)) (made self.new r.1)) }
        ensures setting { setting self.new ≡ setting self.old }
        ensures never_falls { faults self.old ≤ faults self.new }
        ensures disk { IfErr result (λ stop. stop ≡ Disk → HasRisen (faults self.old) (faults self.new)) };

    /// Acts in the book.
    fn book(
        &mut self,
        alloc: Global,
        pass: Self::Pass,
        act: BookAct,
    ) -> Result<(BookActed, Self::Pass), Stop>
        requires pass { IsPass self.old pass }
        requires act { CanBook (setting self.old).array (merged (history self.old pass)) (made self.old pass) act }
        ensures pass { IfOk result (λ r. IsPass self.new r.1) }
        ensures begins { IfOk result (λ r. EachBeginsWith (history self.new r.1) (history self.old pass)) }
        ensures run { IfOk result (λ r. Grows (setting self.old).array (merged (history self.old pass)) → Grows (setting self.old).array (merged (history self.new r.1))) }
        ensures done { IfOk result (λ r. IsDoneInBook alone (setting self.old) act r.0 (merged (history self.old pass)) (made self.old pass) (merged (history self.new r.1)) (made self.new r.1)) }
        ensures setting { setting self.new ≡ setting self.old }
        ensures never_falls { faults self.old ≤ faults self.new }
        ensures disk { IfErr result (λ stop. stop ≡ Disk → HasRisen (faults self.old) (faults self.new)) };

    /// The command that a piece would have to wait for if it were begun now. A bus that isn't alone tells nothing by it.
    fn look(&mut self, ask: &Ask) -> Option<u32>
        requires { IsWant (setting self.old).array ask.now.want }
        ensures waits { IsTrue alone → (pass : Self.Pass) → IsPass self.old pass → MatchOption result ((by : ℕ) → HasToWait (setting self.old).array (merged (history self.old pass)) ask.now by → ⊥) (λ by. HasToWait (setting self.old).array (merged (history self.old pass)) ask.now by) }
        ensures same { self.new ≡ self.old };

    /// The command that a new disk in a slot would have to wait for. A bus that isn't alone tells nothing by it.
    fn look_swap(&mut self, slot: u8) -> Option<u32>
        ensures waits { IsTrue alone → (pass : Self.Pass) → IsPass self.old pass → MatchOption result ((by : ℕ) → HasToWaitForSwap (setting self.old).array (merged (history self.old pass)) slot by → ⊥) (λ by. HasToWaitForSwap (setting self.old).array (merged (history self.old pass)) slot by) }
        ensures same { self.new ≡ self.old };

    /// What it was made with is in its ranges.
    ghost in_range: { (bus : Self) (pass : Self.Pass) → IsPass bus pass → IsSetting (setting bus).array };

    /// The lists of a history are of the locks from 0 on, and each rises.
    ghost of_locks: { (bus : Self) (pass : Self.Pass) → IsPass bus pass → AreOfLocks 0 (history bus pass) };

    /// Of a command that a caller opened, it has seen and made all entries.
    ghost sees_own: { (bus : Self) (pass : Self.Pass) → IsPass bus pass → SeesOwn (merged (history bus pass)) (made bus pass) };

    /// Where there is one caller, it made all entries.
    ghost makes_all: { IsTrue alone → (bus : Self) (pass : Self.Pass) → IsPass bus pass → made bus pass ≡ merged (history bus pass) };

    /// Where no medium fails, no disk was lost for no call.
    ghost never_failed: { IsTrue reliable → (bus : Self) (pass : Self.Pass) → IsPass bus pass → HasNoFailure (merged (history bus pass)) };
}
