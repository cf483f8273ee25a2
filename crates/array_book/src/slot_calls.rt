//! Losses that are noted, and disks that are swapped.

ghost use Rattle.std.specs.Prelude.{◌≡◌, ℕ, MatchOption, false};
ghost use Rattle.array_journal.specs.Entries.{some_at};
ghost use Rattle.array_journal.specs.Lives.{is_unfitted};
ghost use Rattle.array_journal.specs.May.{opens_at};
ghost use Rattle.array_book.specs.BookAnswers.{IsNoteAnswer, IsSwapAnswer, HasToWaitForSwap};
ghost use Rattle.array_book.specs.Waits.{SwapWaitsFor};

use crate::answers::{Noted, Swapped};
use crate::ledger::Book;
use array_journal::{At, Event, Why};
use blocks_core::Memory;

impl Book {
    /// Notes the loss of a slot's disk: the entry at its target that says so is named, with the life that it tells,
    /// from 0. A loss that is known makes no entry, nor one of a disk that was swapped since.
    pub fn note(&mut self, slot: u8, gone: At, life: u32, stamp: u64) -> Noted
        ensures answer { IsNoteAnswer self.old slot gone life stamp self.new result }
        ensures setting { self.new.setting ≡ self.old.setting }
    {
        if self.records.is_unfitted(slot) {
            return Noted::Already;
        }
        let Ok(swaps) = u32::try_from(self.records.swap_count(slot)) else {
            return Noted::Memory;
        };
        if life != swaps {
            return Noted::Stale { swaps };
        }
        match self.put(Event::Note { slot, gone }, stamp) {
            Ok(at) => Noted::Made { at },
            Err(Memory) => Noted::Memory,
        }
    }

    /// The least open command that acts at a slot.
    fn least_at(&self, slot: u8) -> Option<u32>
        ensures { MatchOption result (some_at 0 (opens_at self.now.setting self.now.past slot) self.now.past ≡ false) (λ by. SwapWaitsFor self.now.setting self.now.past slot by) }
    {
        let target = usize::from(slot);
        self.records.first_acting(&self.setting, target)
    }

    /// The command that `swap` would wait for.
    pub fn look_swap(&self, slot: u8) -> Option<u32>
        ensures { MatchOption result ((by : ℕ) → HasToWaitForSwap self.now.setting self.now.past slot by → ⊥) (λ by. HasToWaitForSwap self.now.setting self.now.past slot by) }
    {
        if self.records.is_unfitted(slot) {
            self.least_at(slot)
        } else {
            None
        }
    }

    /// Puts a new disk into a slot, for a call. A slot that isn't lost, or has a new disk, is refused one; else it
    /// waits for the commands that act there, since their acts are meant for the old disk.
    pub fn swap(&mut self, slot: u8, call: u32, stamp: u64) -> Swapped
        ensures answer { IsSwapAnswer self.old slot call stamp self.new result }
        ensures setting { self.new.setting ≡ self.old.setting }
    {
        if !self.records.is_unfitted(slot) {
            return self.refuse_swap(call, stamp);
        }
        if let Some(by) = self.least_at(slot) {
            return Swapped::Again { by };
        }
        // The life of the new disk is a u32, as the entry of its loss will tell it.
        if self.records.swap_count(slot) >= u32::MAX as usize {
            return Swapped::Memory;
        }
        match self.put(Event::Swap { slot, call }, stamp) {
            Ok(at) => Swapped::Made { at },
            Err(Memory) => Swapped::Memory,
        }
    }

    fn refuse_swap(&mut self, call: u32, stamp: u64) -> Swapped
        ensures answer { (slot : ℕ) → is_unfitted slot self.old.past ≡ false → IsSwapAnswer self.old slot call stamp self.new result }
        ensures setting { self.new.setting ≡ self.old.setting }
    {
        let why = Why::NotLost;
        let event = Event::Refuse {
            call,
            piece: 0,
            why,
        };
        match self.put(event, stamp) {
            Ok(at) => Swapped::Refused { at, why },
            Err(Memory) => Swapped::Memory,
        }
    }
}
