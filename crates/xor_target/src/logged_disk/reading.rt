//! READ(10), and XDREAD (SBC): commands that write nothing, and answer rows of the medium or of the buffer.

ghost use Rattle.std.specs.Prelude.{◌≡◌, ◌*◌, None, length, IfOk, IfErr};
ghost use Rattle.xor_buffers.specs.Held.{holder_of};
ghost use Rattle.xor_target.specs.Acts.{IsAct, IsStopped, HasEffect};
ghost use Rattle.xor_target.specs.Effects.{read_effect, xdread_effect};

use super::LoggedDisk;
use crate::act::{ActStop, BlockAct, Workspace, byte_count};
use crate::order::Order;
use array_journal::Event;
use blocks_core::Bytes;
use sector_media::Medium;
use std::alloc::Global;

impl<M: Medium + Drop> LoggedDisk<M> {
    /// READ(10): answers the rows.
    pub fn read(&mut self, alloc: Global, order: &Order, act: &BlockAct) -> Result<Bytes, ActStop>
        requires act { IsAct self.old.disk self.old.log order.now act.now }
        ensures done { IfOk result (λ bytes. HasEffect self.old.disk self.old.log act.now (λ old. read_effect order.now act.now.cdb self.old.disk.buffer.list old act.now.row) bytes self.new.disk self.new.log) }
        ensures whole { IfOk result (λ bytes. length bytes ≡ act.now.count * self.old.disk.block) }
        ensures stopped { IfErr result (IsStopped M.NEVER_FAILS self.old.disk self.old.log self.new.disk self.new.log) }
    {
        let len = byte_count(act.count, self.disk.block());
        let Workspace {
            mut kept,
            mut rows,
            ..
        } = Workspace::of_rows(alloc, order, len)?;
        self.disk.read(act.row, &mut rows)?;
        kept.copy_from_slice(&rows);
        let event = Event::Fetch {
            command: order.owner,
            opened: order.opened,
            cdb: act.cdb,
            row: act.row,
            bytes: Bytes::from_vec(kept),
        };
        self.log.append(event, act.stamp);
        Ok(Bytes::from_vec(rows))
    }

    /// XDREAD: answers held rows, and holds them no longer.
    pub fn xdread(&mut self, alloc: Global, order: &Order, act: &BlockAct) -> Result<Bytes, ActStop>
        requires act { IsAct self.old.disk self.old.log order.now act.now }
        requires held { holder_of self.old.disk.block act.now.row (act.now.count * self.old.disk.block) self.old.disk.buffer.list ≡ None → ⊥ }
        ensures done { IfOk result (λ bytes. HasEffect self.old.disk self.old.log act.now (λ _. xdread_effect self.old.disk.block order.now act.now.cdb self.old.disk.buffer.list act.now.row (act.now.count * self.old.disk.block)) bytes self.new.disk self.new.log) }
        ensures whole { IfOk result (λ bytes. length bytes ≡ act.now.count * self.old.disk.block) }
        ensures stopped { IfErr result (IsStopped M.NEVER_FAILS self.old.disk self.old.log self.new.disk self.new.log) }
    {
        let len = byte_count(act.count, self.disk.block());
        let Workspace {
            mut kept,
            mut rows,
            ..
        } = Workspace::of_rows(alloc, order, len)?;
        self.disk.take(act.row, &mut rows, act.count);
        kept.copy_from_slice(&rows);
        let event = Event::Take {
            command: order.owner,
            opened: order.opened,
            cdb: act.cdb,
            row: act.row,
            bytes: Bytes::from_vec(kept),
        };
        self.log.append(event, act.stamp);
        Ok(Bytes::from_vec(rows))
    }
}
