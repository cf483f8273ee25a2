//! Commands that end.

ghost use Rattle.std.specs.Prelude.{◌≡◌, OnOk, OnErr, IfOk};
ghost use Rattle.array_journal.specs.declared.event.Event.TheVariants as events;
ghost use Rattle.array_book.specs.Ledgers.{next_name, with_event};

use crate::answers::End;
use crate::ledger::Book;
use array_journal::{At, Event};
use blocks_core::Memory;

impl Book {
    /// Ends an open command, done or without effect. Where that makes parity anew, the stripe isn't listed any more.
    /// That the command is open, and that the named entries are those that such an end names, is the caller's to know:
    /// the entry that is made says what is handed in. After want of memory nothing has changed.
    pub fn close(&mut self, command: u32, end: End, stamp: u64) -> Result<At, Memory>
        ensures name { IfOk result (λ at. at ≡ next_name self.old stamp) }
        ensures made { OnOk result (self.new ≡ with_event self.old stamp (events.Close command end.done end.names end.cause end.bytes)) }
        ensures err { OnErr result (self.new ≡ self.old) }
        ensures setting { self.new.setting ≡ self.old.setting }
    {
        let End {
            done,
            names,
            cause,
            bytes,
        } = end;
        let event = Event::Close {
            command,
            done,
            names,
            cause,
            bytes,
        };
        self.put_end(command, event, stamp)
    }

    /// Ends an open update whose delta was lost, and lists its stripe: the diff, what discarded its delta, and the
    /// shut at parity are named, as the caller knows them. After want of memory nothing has changed.
    pub fn spoil(
        &mut self,
        command: u32,
        diff: At,
        loss: At,
        shut: At,
        stamp: u64,
    ) -> Result<At, Memory>
        ensures name { IfOk result (λ at. at ≡ next_name self.old stamp) }
        ensures made { OnOk result (self.new ≡ with_event self.old stamp (events.Spoil command diff loss shut)) }
        ensures err { OnErr result (self.new ≡ self.old) }
        ensures setting { self.new.setting ≡ self.old.setting }
    {
        let event = Event::Spoil {
            command,
            diff,
            loss,
            shut,
        };
        self.put_end(command, event, stamp)
    }
}
