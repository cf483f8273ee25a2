ghost use Rattle.std.specs.Prelude.{◌≡◌, option_map};
ghost use Rattle.array_journal.specs.Acts.{is_act};
ghost use Rattle.array_journal.specs.ActEvents.{act_in, said, actor};

use crate::act::Act;
use crate::at::At;
use crate::event::Event;
use sbc_cdbs::Cdb;

/// What the entries of all six acts say: which act it is, its command and the entry that opened it, how
/// the act was sent, where, and the bytes.
#[derive(Clone, Copy, Debug)]
pub struct ActView<'a> {
    pub act: Act,
    pub command: u32,
    pub opened: At,
    pub cdb: &'a Cdb,
    pub row: u32,
    pub bytes: &'a [u8],
}

impl Event {
    /// The act that the event is, if it is one.
    pub fn act(&self) -> Option<ActView<'_>>
        ensures { option_map said result ≡ act_in self.now }
    {
        let (act, command, opened, cdb, row, bytes) = match self {
            Event::Fetch {
                command,
                opened,
                cdb,
                row,
                bytes,
            } => (Act::Fetches, command, opened, cdb, row, bytes),
            Event::Put {
                command,
                opened,
                cdb,
                row,
                bytes,
                ..
            } => (Act::Puts, command, opened, cdb, row, bytes),
            Event::Diff {
                command,
                opened,
                cdb,
                row,
                bytes,
                ..
            } => (Act::Diffs, command, opened, cdb, row, bytes),
            Event::Take {
                command,
                opened,
                cdb,
                row,
                bytes,
            } => (Act::Takes, command, opened, cdb, row, bytes),
            Event::Fold {
                command,
                opened,
                cdb,
                row,
                bytes,
                ..
            } => (Act::Folds, command, opened, cdb, row, bytes),
            Event::Hold {
                command,
                opened,
                cdb,
                row,
                bytes,
                ..
            } => (Act::Holds, command, opened, cdb, row, bytes),
            _ => return None,
        };
        Some(ActView {
            act,
            command: *command,
            opened: *opened,
            cdb,
            row: *row,
            bytes: bytes.as_slice(),
        })
    }

    /// The command that acts or is shut by the event, at a target.
    pub fn actor(&self) -> Option<u32>
        ensures { result ≡ actor self.now }
    {
        match self {
            Event::Shut { command, .. } => Some(*command),
            _ => Some(self.act()?.command),
        }
    }

    /// Whether the event is this act of a command.
    pub fn is_act(&self, act: Act, command: u32) -> bool
        ensures { result ≡ is_act act command self.now }
    {
        match self.act() {
            Some(view) => view.act == act && view.command == command,
            None => false,
        }
    }
}
