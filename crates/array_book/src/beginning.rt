//! How a piece is begun: what the book decides of it, and whether it has to wait.

ghost use Rattle.std.specs.Prelude.{◌≡◌, ◌≤◌, ℕ, IfOk, OnErr, MatchOption};
ghost use Rattle.array_journal.specs.declared.decision.Decision.TheVariants.{Refuses};
ghost use Rattle.array_journal.specs.Commands.{open_count};
ghost use Rattle.array_journal.specs.Decision.{decision};
ghost use Rattle.array_journal.specs.May.{IsTask};
ghost use Rattle.array_book.specs.Asks.{IsWant, decided};
ghost use Rattle.array_book.specs.BookAnswers.{HasBegun, HasToWait};
ghost use Rattle.array_book.specs.Begins.{IsVerdict, MayBegin, IsToOpen, asked_task, wait_of};

use crate::answers::Begun;
use crate::asks::{Aim, Ask};
use crate::decision::decide;
use crate::ledger::Book;
use array_journal::{Decision, Event, Kind, Why};
use blocks_core::{Bytes, Memory};

/// What becomes of a piece.
#[derive(Clone, Copy, Debug)]
pub(crate) enum Verdict {
    /// A command of this kind may be opened for it, at these rows.
    Open { kind: Kind, aim: Aim },
    /// It has to wait for this command.
    Wait { by: u32 },
    /// It is refused.
    Refuse { why: Why },
}

impl Verdict {
    fn waits_for(self) -> Option<u32>
        ensures { result ≡ wait_of self }
    {
        match self {
            Verdict::Wait { by } => Some(by),
            Verdict::Open { .. } | Verdict::Refuse { .. } => None,
        }
    }
}

impl Book {
    /// The number of the next command, if a number can have it.
    fn next_command(&self) -> Option<u32>
        ensures { MatchOption result (Unit {0}) (λ command. command ≡ open_count self.now.past) }
    {
        u32::try_from(self.records.open_count()).ok()
    }

    /// What the table decides of what is asked.
    fn decision(&self, aim: Aim) -> Decision
        ensures { result ≡ decision self.now.setting aim.want aim.stripe aim.target self.now.past }
    {
        let facts = self.records.facts(&self.setting, aim.stripe, aim.target);
        decide(aim.want, &facts)
    }

    /// What becomes of a piece at some rows that may be opened as a command of a kind.
    fn verdict_of(&self, ask: &Ask, kind: Kind, aim: Aim) -> Verdict
        requires small { aim.count ≤ self.now.setting.buffer }
        requires sound { IsTask self.now.setting (asked_task self.now ask.now kind aim) }
        ensures { MayBegin self.now ask.now kind aim result }
    {
        // What stands in the way doesn't hang on the bytes, so they need not be copied to know it.
        let bytes = Bytes::new(self.alloc);
        let task = aim.task(&self.setting.geometry, ask.call, ask.piece, kind, bytes);
        match self.least_in_way(&task) {
            Some(by) => Verdict::Wait { by },
            None => Verdict::Open { kind, aim },
        }
    }

    /// What becomes of a piece.
    fn verdict(&self, ask: &Ask) -> Verdict
        requires { IsWant self.now.setting ask.now.want }
        ensures { IsVerdict self.now ask.now result }
    {
        match ask.want.aim(&self.setting.geometry) {
            Ok(aim) => match self.decision(aim) {
                Decision::Opens(kind) => self.verdict_of(ask, kind, aim),
                Decision::Refuses(why) => Verdict::Refuse { why },
            },
            Err(sense) => Verdict::Refuse {
                why: Why::Illegal { sense },
            },
        }
    }

    /// The command that `begin` would wait for.
    pub fn look(&self, ask: &Ask) -> Option<u32>
        requires { IsWant self.now.setting ask.now.want }
        ensures { MatchOption result ((by : ℕ) → HasToWait self.now.setting self.now.past ask.now by → ⊥) (λ by. HasToWait self.now.setting self.now.past ask.now by) }
    {
        self.verdict(ask).waits_for()
    }

    /// Begins a piece: opens a command for it, or refuses it, or answers which command it has to wait for. A refusal
    /// never waits.
    pub fn begin(&mut self, ask: &Ask, stamp: u64) -> Begun
        requires { IsWant self.old.setting ask.now.want }
        ensures answer { HasBegun self.old ask.now stamp self.new result }
        ensures setting { self.new.setting ≡ self.old.setting }
    {
        match self.verdict(ask) {
            Verdict::Open { kind, aim } => match self.open(ask, kind, &aim, stamp) {
                Ok(begun) => begun,
                Err(Memory) => Begun::Memory,
            },
            Verdict::Wait { by } => Begun::Again { by },
            Verdict::Refuse { why } => self.refuse(ask, why, stamp),
        }
    }

    /// Opens a command of a kind. It has the number of the commands that were opened before.
    fn open(&mut self, ask: &Ask, kind: Kind, aim: &Aim, stamp: u64) -> Result<Begun, Memory>
        requires want { IsWant self.old.setting ask.now.want }
        requires opens { IsToOpen self.old ask.now kind aim.now }
        ensures ok { IfOk result (λ begun. HasBegun self.old ask.now stamp self.new begun) }
        ensures err { OnErr result (self.new ≡ self.old) }
        ensures setting { self.new.setting ≡ self.old.setting }
    {
        let Some(command) = self.next_command() else {
            return Err(Memory);
        };
        let task = ask.task(self.alloc, &self.setting.geometry, kind, aim)?;
        let at = self.put_opening(command, &task, stamp)?;
        Ok(Begun::Opened { at, command, task })
    }

    fn refuse(&mut self, ask: &Ask, why: Why, stamp: u64) -> Begun
        requires { decided self.old.setting self.old.past ask.now.want ≡ Refuses why }
        ensures answer { HasBegun self.old ask.now stamp self.new result }
        ensures setting { self.new.setting ≡ self.old.setting }
    {
        let event = Event::Refuse {
            call: ask.call,
            piece: ask.piece,
            why,
        };
        match self.put(event, stamp) {
            Ok(at) => Begun::Refused { at, why },
            Err(Memory) => Begun::Memory,
        }
    }
}
