//! What a target says to an order before it does anything, row by row.

ghost use Rattle.std.specs.Prelude.{◌≡◌, false, None, Some, MatchResult};
ghost use Rattle.sbc_cdbs.specs.Kinds.{block_count};
ghost use Rattle.xor_target.specs.Admission.{command_in};
ghost use Rattle.xor_target.specs.Table.{check, refused_row, shut_row, gone_row, idle_row, overlap_row, room_row, unheld_row, early_answer, is_no_blocks};
ghost use Rattle.xor_target.specs.Acts.{IsAdmitted};

use super::Target;
use crate::admission::{Admitted, admit};
use crate::answer::Answer;
use crate::order::Order;
use array_journal::Names;
use blocks_core::Bytes;
use sbc_cdbs::Command;
use sector_media::Medium;
use sense_data::{Pointer, Sense};
use std::alloc::Global;

/// Additional sense codes (SPC): COMMAND SEQUENCE ERROR, SYSTEM BUFFER FULL, INVALID FIELD IN CDB.
const SEQUENCE: u8 = 0x2c;

const BUFFER_FULL: u8 = 0x55;

const FIELD_IN_CDB: u8 = 0x24;

impl<M: Medium + Drop> Target<M> {
    /// The command of an order that is to be done; or what is said to the order instead.
    pub(super) fn admitted(&self, alloc: Global, order: &Order) -> Result<Admitted, Answer>
        ensures { MatchResult result (IsAdmitted self.now order.now) (λ answer. early_answer self.now order.now ≡ Some answer) }
    {
        match admit(
            &self.limits(),
            &self.page,
            order.cdb.as_slice(),
            order.bytes.as_slice(),
        ) {
            Ok(admitted) => match self.early_answer(alloc, order, &admitted.command) {
                None => Ok(admitted),
                Some(answer) => Err(answer),
            },
            Err(sense) => Err(self.check(alloc, order, sense)),
        }
    }

    /// What is said to an order whose CDB and data aren't refused, before anything is done.
    fn early_answer(&self, alloc: Global, order: &Order, command: &Command) -> Option<Answer>
        requires admitted { refused_row self.now order.now ≡ None }
        requires command { command.now ≡ command_in order.now.cdb }
        ensures { result ≡ early_answer self.now order.now }
    {
        if let Some(answer) = self.shut_row(order.owner) {
            return Some(answer);
        }
        if let Some(answer) = self.gone_row(order.owner) {
            return Some(answer);
        }
        if let Some(answer) = idle_row(alloc, command) {
            return Some(answer);
        }
        if let Some(answer) = self.overlap_row(alloc, order, command) {
            return Some(answer);
        }
        if let Some(answer) = self.room_row(alloc, order, command) {
            return Some(answer);
        }
        self.unheld_row(alloc, order, command)
    }

    /// CHECK CONDITION.
    fn check(&self, alloc: Global, order: &Order, sense: Sense) -> Answer
        ensures { result ≡ check self.now order.now sense }
    {
        Answer::Check {
            sense,
            made: Names::new(alloc),
            loss: self.unit.logged.log.discarded_at(order.owner),
        }
    }

    /// The owner was shut here.
    pub(super) fn shut_row(&self, owner: u32) -> Option<Answer>
        ensures { result ≡ shut_row self.now owner }
    {
        match self.unit.logged.log.shut_at(owner) {
            None => None,
            Some(at) => Some(Answer::Shut { at }),
        }
    }

    /// The disk is lost.
    pub(super) fn gone_row(&self, owner: u32) -> Option<Answer>
        ensures { result ≡ gone_row self.now owner }
    {
        match self.unit.logged.log.gone() {
            None => None,
            Some(at) => Some(Answer::Gone {
                at,
                life: self.unit.logged.log.life(),
                loss: self.unit.logged.log.discarded_at(owner),
            }),
        }
    }

    /// Rows to hold of which one is held or set aside.
    fn overlap_row(&self, alloc: Global, order: &Order, command: &Command) -> Option<Answer>
        ensures { result ≡ overlap_row self.now order.now command.now }
    {
        let row = command.first_block().unwrap_or(0);
        let count = command.block_count().unwrap_or(0);
        let taken = self.unit.logged.disk.overlap(row, count).is_some()
            || self.unit.waiting.overlaps(row, count);
        if command.is_kept() && taken {
            return Some(self.check(alloc, order, Sense::illegal(SEQUENCE, 0, None)));
        }
        None
    }

    /// More blocks to hold than there is room for that isn't set aside.
    fn room_row(&self, alloc: Global, order: &Order, command: &Command) -> Option<Answer>
        ensures { result ≡ room_row self.now order.now command.now }
    {
        let room = self.unit.waiting.room_left(self.unit.logged.disk.room());
        if command.is_kept() && room < command.block_count().unwrap_or(0) {
            return Some(self.check(alloc, order, Sense::illegal(BUFFER_FULL, 1, None)));
        }
        None
    }

    /// An XDREAD of rows that no one held piece contains.
    fn unheld_row(&self, alloc: Global, order: &Order, command: &Command) -> Option<Answer>
        requires { is_no_blocks (block_count command.now) ≡ false }
        ensures { result ≡ unheld_row self.now order.now command.now }
    {
        let Command::XdRead { lba, length } = *command else {
            return None;
        };
        if self
            .unit
            .logged
            .disk
            .holder(lba, u32::from(length))
            .is_none()
        {
            let sense = Sense::illegal(FIELD_IN_CDB, 0, Some(Pointer::in_cdb(2)));
            return Some(self.check(alloc, order, sense));
        }
        None
    }
}

/// A command of no blocks, which is good, and does nothing.
fn idle_row(alloc: Global, command: &Command) -> Option<Answer>
    ensures { result ≡ idle_row command.now }
{
    if command.block_count() == Some(0) {
        return Some(Answer::Good {
            bytes: Bytes::new(alloc),
            made: Names::new(alloc),
        });
    }
    None
}
