//! The bus of one caller: its targets and its book are there for nobody else.

ghost use Rattle.std.specs.Prelude.{◌≡◌, ◌<◌, ℕ, false, true, refl, IsTrue, List, map, reverse, Some, length, slice_get, IfOk};
ghost use Rattle.array_journal.specs.EntryLists.{lists_in};
ghost use Rattle.array_journal.specs.OneJournal.{journal_of};
ghost use Rattle.array_book.specs.Asks.{IsWant};
ghost use Rattle.array_book.specs.Ledgers.{AreInOrder, newest_stamp};
ghost use Rattle.xor_target.specs.Logs.{last_stamp};
ghost use Rattle.xor_target.specs.State.{TargetState, is_waiting};
ghost use Rattle.unit_plans.specs.declared.acts.Act.TheVariants as acts;
ghost use Rattle.unit_plans.specs.Buses.{merged};
ghost use Rattle.unit_plans.specs.Effects.{HasActed, HasBooked};
ghost use Rattle.history_locks.specs.PlainActs.{IsReadyFor, IsReadyIn, IsTelling, ActsAt, ActsInBook, IsTold, IsBegun, IsNoted, IsSwapped};
ghost use Rattle.history_locks.specs.PlainBuses.{PlainState, IsNew, IsPassOf, lists_of, setting_of};

use array_book::{Ask, Begun, Book, Noted, Swapped};
use array_journal::{Entries, Journal, merge};
use blocks_core::Memory;
use sector_media::Medium;
use std::alloc::Global;
use std::marker::Model;
use unit_plans::{Act, Acted, BookAct, BookActed, Bus, Stop};
use xor_mode_page::XorPage;
use xor_target::{Answer, Order, Target};

/// Targets and a book with one caller. Target k stands at place k, and each has the maxima of one page.
#[derive(Drop)]
pub struct PlainBus<M: Medium + Drop> {
    targets: Vec<Target<M>>,
    book: Book,
    page: XorPage,
}

impl<M: Medium + Drop> Model for PlainBus<M> {
    ghost use Rattle.history_locks.specs.PlainBuses.{PlainState};

    ghost Value = { PlainState };

    ghost view = { λ b. record { targets = b.targets.items; book = b.book; page = b.page } };
}

/// The pass of the one caller: the greatest stamp of all entries.
#[derive(Debug, Drop)]
pub struct PlainPass {
    stamp: u64,
}

/// What a target answers, unless it is want of memory.
fn told(answer: Answer) -> Result<Acted, Memory>
    ensures { IfOk result (λ came. IsTold answer came) }
{
    match answer {
        Answer::Memory => Err(Memory),
        answer => Ok(Acted::Answer { answer }),
    }
}

/// Sends a target an order, by who has seen this stamp.
fn send<M: Medium + Drop>(
    alloc: Global,
    target: &mut Target<M>,
    seen: u64,
    order: Order,
) -> Result<Acted, Memory>
    requires { is_waiting target.old order.owner ≡ false }
    ensures { IfOk result (λ came. HasActed M.NEVER_FAILS target.old (acts.Run order) seen came target.new) }
{
    let mut order = order;
    order.stamp = seen;
    told(target.execute(alloc, &order))
}

/// Acts at a target, by who has seen this stamp.
fn act_at<M: Medium + Drop>(
    alloc: Global,
    target: &mut Target<M>,
    seen: u64,
    act: Act,
) -> Result<Acted, Memory>
    requires { IsReadyFor target.old act }
    ensures { IfOk result (λ came. HasActed M.NEVER_FAILS target.old act seen came target.new) }
{
    match act {
        Act::Run { order } => send(alloc, target, seen, order),
        Act::Back { .. } => unreachable!(),
        Act::Shut { owner, opened } => {
            let answer = target.shut(owner, opened, seen)?;
            Ok(Acted::Shut { answer })
        }
        Act::Lose { call } => {
            let answer = target.lose(alloc, call, seen)?;
            Ok(Acted::Gone { answer })
        }
        Act::Wipe { call } => {
            let at = target.wipe(alloc, call, seen)?;
            Ok(Acted::Made { at })
        }
        Act::DropNext { call } => {
            let at = target.drop_next(alloc, call, seen)?;
            Ok(Acted::Made { at })
        }
        Act::Fresh { call, swap } => told(target.fresh(alloc, call, swap, seen)),
    }
}

/// The stamp of a target's newest entry, 0 where there is none. What the target keeps is what its entries say.
fn newest_at<M: Medium + Drop>(target: &Target<M>) -> u64
    ensures newest { result ≡ last_stamp target.now.past }
    ensures telling { IsTelling target.now }
{
    match target.entries().as_slice().last() {
        Some(entry) => entry.stamp,
        None => 0,
    }
}

/// What the book answers to a piece that is begun, unless it is want of memory.
fn begun(answer: Begun) -> Result<BookActed, Memory>
    ensures { IfOk result (λ came. IsBegun answer came) }
{
    match answer {
        Begun::Memory => Err(Memory),
        answer => Ok(BookActed::Begun { answer }),
    }
}

/// The same of a loss that is noted.
fn noted(answer: Noted) -> Result<BookActed, Memory>
    ensures { IfOk result (λ came. IsNoted answer came) }
{
    match answer {
        Noted::Memory => Err(Memory),
        answer => Ok(BookActed::Noted { answer }),
    }
}

/// The same of a disk that is swapped.
fn swapped(answer: Swapped) -> Result<BookActed, Memory>
    ensures { IfOk result (λ came. IsSwapped answer came) }
{
    match answer {
        Swapped::Memory => Err(Memory),
        answer => Ok(BookActed::Swapped { answer }),
    }
}

/// Acts in the book, by who has seen this stamp.
fn act_in(book: &mut Book, seen: u64, act: BookAct) -> Result<BookActed, Memory>
    requires { IsReadyIn book.old act }
    ensures does { IfOk result (λ came. HasBooked book.old act seen came book.new) }
    ensures setting { book.new.setting ≡ book.old.setting }
{
    match act {
        BookAct::Begin { ask } => begun(book.begin(&ask, seen)),
        BookAct::Close { command, end } => {
            let at = book.close(command, end, seen)?;
            Ok(BookActed::Closed { at })
        }
        BookAct::Spoil {
            command,
            diff,
            loss,
            shut,
        } => {
            let at = book.spoil(command, diff, loss, shut, seen)?;
            Ok(BookActed::Spoilt { at })
        }
        BookAct::Note { slot, gone, life } => noted(book.note(slot, gone, life, seen)),
        BookAct::Swap { slot, call } => swapped(book.swap(slot, call, seen)),
    }
}

/// The stamp of the book's newest entry, 0 where there is none. Its entries are in order.
fn newest_in(book: &Book) -> u64
    ensures newest { result ≡ newest_stamp book.now.past }
    ensures in_order { AreInOrder book.now.past }
{
    match book.entries().as_slice().last() {
        Some(entry) => entry.stamp,
        None => 0,
    }
}

impl<M: Medium + Drop> PlainBus<M> {
    /// A bus of targets and a book to which nothing happened, and its one pass. The page has the maxima of each target. No medium
    /// may fail, since no plan has an answer to that yet.
    pub fn new(targets: Vec<Target<M>>, book: Book, page: XorPage) -> (PlainBus<M>, PlainPass)
        requires reliable { IsTrue M.NEVER_FAILS }
        requires first { IsNew (record { targets = targets.items; book = book; page = page }) }
        ensures bus { result.0 ≡ record { targets = targets.items; book = book; page = page } }
        ensures pass { IsPassOf M.NEVER_FAILS result.0 result.1.stamp }
    {
        // Its entries say that the book's array is in its ranges.
        let _entries = book.entries();
        let bus = PlainBus {
            targets,
            book,
            page,
        };
        (bus, PlainPass { stamp: 0 })
    }

    /// Acts at a target, and answers also the greatest stamp that was seen then.
    fn act(
        &mut self,
        alloc: Global,
        number: u8,
        seen: u64,
        act: Act,
    ) -> Result<(Acted, u64), Memory>
        requires number { number < length self.old.targets }
        requires ready { (t : TargetState) → slice_get self.old.targets number ≡ Some t → IsReadyFor t act }
        ensures acts { IfOk result (λ r. ActsAt M.NEVER_FAILS self.old number seen act r.0 r.1 self.new) }
        ensures book { self.new.book ≡ self.old.book }
        ensures page { self.new.page ≡ self.old.page }
    {
        let target = &mut self.targets[number as usize];
        let acted = act_at(alloc, target, seen, act)?;
        let newest = newest_at(target);
        Ok((acted, seen.max(newest)))
    }

    /// Acts in the book, and answers also the greatest stamp that was seen then.
    fn note_down(&mut self, seen: u64, act: BookAct) -> Result<(BookActed, u64), Memory>
        requires { IsReadyIn self.old.book act }
        ensures acts { IfOk result (λ r. ActsInBook self.old seen act r.0 r.1 self.new) }
        ensures setting { self.new.book.setting ≡ self.old.book.setting }
        ensures page { self.new.page ≡ self.old.page }
    {
        let acted = act_in(&mut self.book, seen, act)?;
        let newest = newest_in(&self.book);
        Ok((acted, seen.max(newest)))
    }

    /// The book, to be read.
    pub fn the_book(&self) -> &Book
        ensures { result.now ≡ self.now.book }
    {
        &self.book
    }

    /// The targets.
    pub fn into_targets(self) -> Vec<Target<M>>
        ensures { result.items ≡ self.targets }
    {
        self.targets
    }

    /// The lists of entries of all locks, and the media by their targets.
    fn into_lists(self, alloc: Global) -> Result<(Vec<Entries>, Vec<M>), Memory>
        ensures lists { IfOk result (λ r. lists_in r.0.items ≡ lists_of self) }
        ensures contents { IfOk result (λ r. map M.contents r.1.items ≡ map (λ (t : TargetState). t.contents) self.targets) }
        ensures faults { IfOk result (λ r. map M.faults r.1.items ≡ map (λ (t : TargetState). t.faults) self.targets) }
    {
        let PlainBus { targets, book, .. } = self;
        let mut lists = Vec::new(alloc);
        let mut media = Vec::new(alloc);
        lists.push(book.into_entries())?;
        for target in targets {
            let (entries, medium, _) = target.into_parts();
            lists.push(entries)?;
            media.push(medium)?;
        }
        Ok((lists, media))
    }

    /// The one journal of all entries, where a pass was handed out last, and the media by their targets.
    pub fn finish(self, alloc: Global) -> Result<(Journal, Vec<M>), Memory>
        ensures journal { IfOk result (λ r. (stamp : ℕ) → IsPassOf M.NEVER_FAILS self stamp → r.0 ≡ journal_of (lists_of self)) }
        ensures contents { IfOk result (λ r. map M.contents r.1.items ≡ map (λ (t : TargetState). t.contents) self.targets) }
        ensures faults { IfOk result (λ r. map M.faults r.1.items ≡ map (λ (t : TargetState). t.faults) self.targets) }
    {
        let (lists, media) = self.into_lists(alloc)?;
        let journal = merge(alloc, lists)?;
        Ok((journal, media))
    }
}

impl<M: Medium + Drop> Bus for PlainBus<M> {
    type Pass = PlainPass;

    ghost alone = { true };

    ghost reliable = { M.NEVER_FAILS };

    ghost setting = { setting_of };

    ghost faults = { λ bus. 0 };

    ghost IsPass = { λ bus pass. IsPassOf M.NEVER_FAILS bus pass.stamp };

    ghost history = { λ bus pass. lists_of bus };

    ghost made = { λ bus pass. merged (lists_of bus) };

    fn target(
        &mut self,
        alloc: Global,
        number: u8,
        pass: PlainPass,
        act: Act,
    ) -> Result<(Acted, PlainPass), Stop> {
        let (acted, stamp) = self.act(alloc, number, pass.stamp, act)?;
        Ok((acted, PlainPass { stamp }))
    }

    fn book(
        &mut self,
        _alloc: Global,
        pass: PlainPass,
        act: BookAct,
    ) -> Result<(BookActed, PlainPass), Stop> {
        let (acted, stamp) = self.note_down(pass.stamp, act)?;
        Ok((acted, PlainPass { stamp }))
    }

    fn look(&mut self, ask: &Ask) -> Option<u32> {
        self.book.look(ask)
    }

    fn look_swap(&mut self, slot: u8) -> Option<u32> {
        self.book.look_swap(slot)
    }

    ghost in_range = { λ bus pass is. is.array };

    ghost of_locks = { λ bus pass is. is.lists.kept.of_locks };

    ghost sees_own = { λ bus pass is c opened. refl };

    ghost makes_all = { λ alone bus pass is. refl };

    ghost never_failed = { λ reliable bus pass is. is.lists.quiet };
}
