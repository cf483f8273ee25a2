//! The commands that wait for what other targets answer to their requests.

ghost use Rattle.std.specs.Prelude.{◌≡◌, ◌==◌, ◌≤◌, ◌-◌, ◌++◌, [], ◌∷◌, None, Some, MatchOption, OnOk, IfOk, IfSome, is_some, option_map, unwrap_or, true, false};
ghost use Rattle.std.specs.List.{position};
ghost use Rattle.xor_target.specs.Acts.{waiting_left};
ghost use Rattle.xor_target.specs.Waits.{waiting_of, without_owner, without_gatherings, without_gathering, with_source, accepting, sends, has_aside, count_aside, overlaps_aside, aside_blocks, CanAccept};

use crate::answer::Answer;
use crate::gathering::Gathering;
use crate::names::joined;
use array_journal::Names;
use blocks_core::Memory;
use std::alloc::Global;
use std::marker::Model;

/// A command that waits for another target's answer: whose it is, and the entries that it made so far, in the
/// order of stamps. It gathers blocks, or else it has sent its delta.
#[derive(Drop)]
pub struct Waiting {
    pub owner: u32,
    pub made: Names,
    pub gathering: Option<Gathering>,
}

impl Waiting {
    /// The entries that the command made, and behind them those that its request made elsewhere.
    pub fn made_with(&self, alloc: Global, made: &Names) -> Result<Names, Memory>
        ensures { IfOk result (λ names. names ≡ self.now.made ++ made.now) }
    {
        joined(alloc, &self.made, made)
    }

    /// How many blocks it sets aside.
    fn count_aside(&self) -> u32
        ensures { result ≡ count_aside self.now.gathering }
    {
        match &self.gathering {
            Some(gathering) => gathering.kept_count(),
            None => 0,
        }
    }

    /// Whether it sets one of these rows aside.
    fn has_aside(&self, row: u32, count: u32) -> bool
        ensures { result ≡ has_aside row count self.now }
    {
        match &self.gathering {
            Some(gathering) => gathering.keeps(row, count),
            None => false,
        }
    }

    /// The source that its gathering asks has answered; the entries so far are these.
    fn accept(&mut self, made: Names, bytes: &[u8])
        requires { IfSome self.old.gathering (CanAccept bytes.now) }
        ensures { self.new ≡ accepting made bytes.now self.old }
    {
        self.made = made;
        if let Some(gathering) = &mut self.gathering {
            gathering.accept(bytes);
        }
    }
}

/// The commands that wait, in the order in which they began, with room for more.
#[derive(Drop)]
pub struct WaitingList {
    kept: Vec<Waiting>,
}

impl Model for WaitingList {
    ghost use Rattle.std.specs.Prelude.{◌-◌, length, vec_capacity};
    ghost use Rattle.xor_target.specs.Acts.{waiting_left};
    ghost use Rattle.xor_target.specs.Waits.{WaitingRoom};

    ghost Value = { WaitingRoom };

    ghost view = { λ w. record { list = w.kept.items; room = vec_capacity w.kept - length w.kept.items } };
}

impl WaitingList {
    /// None waits. Takes no memory.
    pub fn new(alloc: Global) -> WaitingList
        ensures { result.list ≡ [] }
    {
        WaitingList {
            kept: Vec::new(alloc),
        }
    }

    /// Makes room for one more. Asked for before a command touches the medium, since nothing may fail once it
    /// has.
    pub fn reserve(&mut self) -> Result<(), Memory>
        ensures room { OnOk result (1 ≤ self.new.room) }
        ensures same { self.new.list ≡ self.old.list }
    {
        self.kept.reserve(1)?;
        Ok(())
    }

    /// One more command waits, without taking memory.
    pub fn begin(&mut self, waiting: Waiting)
        requires { 1 ≤ self.old.room }
        ensures { self.new.list ≡ self.old.list ++ waiting ∷ [] }
    {
        self.kept.push_reserved(waiting);
    }

    /// The first command of an owner that waits.
    pub fn of(&self, owner: u32) -> Option<&Waiting>
        ensures { MatchOption result (waiting_of owner self.now.list ≡ None) (λ w. waiting_of owner self.now.list ≡ Some w.now) }
    {
        for waiting in &self.kept {
            if waiting.owner == owner {
                return Some(waiting);
            }
        }
        None
    }

    /// Whether an owner's command has sent its delta.
    pub fn sends(&self, owner: u32) -> bool
        ensures { result ≡ unwrap_or (option_map sends (waiting_of owner self.now.list)) false }
    {
        match self.of(owner) {
            Some(waiting) => waiting.gathering.is_none(),
            None => false,
        }
    }

    /// An owner's command waits no longer.
    pub fn end(&mut self, owner: u32) -> Option<Waiting>
        ensures first { result ≡ waiting_of owner self.old.list }
        ensures rest { self.new.list ≡ without_owner owner self.old.list }
    {
        let ended = match self.place_of(owner) {
            Some(place) => Some(self.kept.remove(place)),
            None => None,
        };
        self.kept.retain(|waiting| waiting.owner != owner);
        ended
    }

    /// A source of an owner's gathering answered: its blocks are taken in, and the entries so far are these.
    /// Takes no memory.
    pub fn accept(&mut self, owner: u32, made: Names, bytes: &[u8])
        requires waits { is_some (waiting_of owner self.old.list) ≡ true }
        requires fits { IfSome (waiting_of owner self.old.list) (λ w. IfSome w.gathering (CanAccept bytes.now)) }
        ensures { self.new.list ≡ with_source owner made bytes.now self.old.list }
    {
        let place = self.place_of(owner).unwrap();
        let waiting = &mut self.kept[place];
        waiting.accept(made, bytes);
    }

    /// Whether one of these rows is set aside.
    pub fn overlaps(&self, row: u32, count: u32) -> bool
        ensures { result ≡ overlaps_aside row count self.now.list }
    {
        self.kept
            .iter()
            .any(|waiting| waiting.has_aside(row, count))
    }

    /// How many blocks of so many are left besides those that are set aside.
    pub fn room_left(&self, room: u32) -> u32
        ensures { result ≡ room - aside_blocks self.now.list }
    {
        let mut left = room;
        for waiting in &self.kept {
            left = left.saturating_sub(waiting.count_aside());
        }
        left
    }

    /// All that gather wait no longer, where an answer says that the disk is lost.
    pub fn leave(&mut self, answer: &Answer)
        ensures { self.new.list ≡ waiting_left answer.now self.old.list }
    {
        match answer {
            Answer::Gone { .. } => self.discard_gatherings(),
            _ => {}
        }
    }

    /// All that gather wait no longer.
    pub fn discard_gatherings(&mut self)
        ensures { self.new.list ≡ without_gatherings self.old.list }
    {
        self.kept.retain(|waiting| waiting.gathering.is_none());
    }

    /// An owner's command waits no longer, if it gathers.
    pub fn discard_gathering(&mut self, owner: u32)
        ensures { self.new.list ≡ without_gathering owner self.old.list }
    {
        self.kept.retain(|waiting| waiting.owner != owner || waiting.gathering.is_none());
    }

    /// The place of the first command of an owner.
    fn place_of(&self, owner: u32) -> Option<usize>
        ensures { result ≡ position (λ w. w.owner == owner) self.now.list }
    {
        self.kept.iter().position(|waiting| waiting.owner == owner)
    }
}
