//! WRITE(10) and XPWRITE (SBC): commands that write, and hold nothing.

ghost use Rattle.std.specs.Prelude.{◌≡◌, ◌*◌, length, [], IfOk, IfErr};
ghost use Rattle.xor_target.specs.Acts.{IsAct, IsStopped, HasEffect};
ghost use Rattle.xor_target.specs.Effects.{write_effect, xpwrite_effect};

use super::LoggedDisk;
use crate::act::{ActStop, BlockAct, Workspace};
use crate::order::Order;
use array_journal::Event;
use blocks_core::Bytes;
use sector_media::Medium;
use std::alloc::Global;

impl<M: Medium + Drop> LoggedDisk<M> {
    /// WRITE(10): writes the data sent.
    pub fn write(&mut self, alloc: Global, order: &Order, act: &BlockAct) -> Result<Bytes, ActStop>
        requires act { IsAct self.old.disk self.old.log order.now act.now }
        requires due { length order.now.bytes ≡ act.now.count * self.old.disk.block }
        ensures done { IfOk result (λ bytes. HasEffect self.old.disk self.old.log act.now (λ _. write_effect order.now act.now.cdb self.old.disk.buffer.list act.now.row) bytes self.new.disk self.new.log) }
        ensures none { IfOk result (λ bytes. bytes ≡ []) }
        ensures stopped { IfErr result (IsStopped M.NEVER_FAILS self.old.disk self.old.log self.new.disk self.new.log) }
    {
        let Workspace { names, kept, .. } = Workspace::of_data(alloc, order, 0)?;
        self.disk.write(act.row, order.bytes.as_slice())?;
        let event = Event::Put {
            command: order.owner,
            opened: order.opened,
            cdb: act.cdb,
            row: act.row,
            bytes: Bytes::from_vec(kept),
            names,
        };
        self.log.append(event, act.stamp);
        Ok(Bytes::new(alloc))
    }

    /// XPWRITE: writes the old data exclusive-or the data sent.
    pub fn xpwrite(
        &mut self,
        alloc: Global,
        order: &Order,
        act: &BlockAct,
    ) -> Result<Bytes, ActStop>
        requires act { IsAct self.old.disk self.old.log order.now act.now }
        requires due { length order.now.bytes ≡ act.now.count * self.old.disk.block }
        ensures done { IfOk result (λ bytes. HasEffect self.old.disk self.old.log act.now (λ old. xpwrite_effect order.now act.now.cdb self.old.disk.buffer.list old act.now.row) bytes self.new.disk self.new.log) }
        ensures none { IfOk result (λ bytes. bytes ≡ []) }
        ensures stopped { IfErr result (IsStopped M.NEVER_FAILS self.old.disk self.old.log self.new.disk self.new.log) }
    {
        let Workspace {
            names,
            kept,
            mut rows,
        } = Workspace::of_data(alloc, order, order.bytes.len())?;
        self.disk
            .read_delta(act.row, order.bytes.as_slice(), &mut rows)?;
        self.disk.write(act.row, &rows)?;
        let event = Event::Fold {
            command: order.owner,
            opened: order.opened,
            cdb: act.cdb,
            row: act.row,
            bytes: Bytes::from_vec(kept),
            names,
        };
        self.log.append(event, act.stamp);
        Ok(Bytes::new(alloc))
    }
}
