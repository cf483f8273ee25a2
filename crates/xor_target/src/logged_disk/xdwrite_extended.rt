//! XDWRITE EXTENDED (SBC): writes the data sent, unless that is disabled, and hands out the old data exclusive-or
//! them, for the secondary target. It holds nothing.

ghost use Rattle.std.specs.Prelude.{◌≡◌, ◌*◌, length, IfOk, IfErr};
ghost use Rattle.xor_target.specs.Acts.{IsAct, IsStopped, HasEffect};
ghost use Rattle.xor_target.specs.Logs.{drops_next};
ghost use Rattle.xor_target.specs.Effects.{xdwrite_extended_effect, xdwrite_extended_disabled_effect};

use super::LoggedDisk;
use crate::act::{ActStop, BlockAct, Workspace};
use crate::act_events::{DeltaWay, diff_event, hold_event};
use crate::order::Order;
use blocks_core::Bytes;
use sector_media::Medium;
use std::alloc::Global;

impl<M: Medium + Drop> LoggedDisk<M> {
    /// XDWRITE EXTENDED, DISABLE WRITE zero.
    pub fn xdwrite_extended(
        &mut self,
        alloc: Global,
        order: &Order,
        act: &BlockAct,
    ) -> Result<Bytes, ActStop>
        requires act { IsAct self.old.disk self.old.log order.now act.now }
        requires due { length order.now.bytes ≡ act.now.count * self.old.disk.block }
        ensures done { IfOk result (λ bytes. HasEffect self.old.disk self.old.log act.now (λ old. xdwrite_extended_effect order.now act.now.cdb self.old.disk.buffer.list old (drops_next self.old.log.number self.old.log.past) act.now.row) bytes self.new.disk self.new.log) }
        ensures whole { IfOk result (λ bytes. length bytes ≡ act.now.count * self.old.disk.block) }
        ensures stopped { IfErr result (IsStopped M.NEVER_FAILS self.old.disk self.old.log self.new.disk self.new.log) }
    {
        let Workspace { kept, mut rows, .. } = Workspace::of_data(alloc, order, order.bytes.len())?;
        self.disk
            .read_delta(act.row, order.bytes.as_slice(), &mut rows)?;
        self.disk.write(act.row, order.bytes.as_slice())?;
        let dropped = self.log.drops_next();
        let event = diff_event(order, act, kept, DeltaWay::Sent { dropped });
        self.log.append(event, act.stamp);
        Ok(Bytes::from_vec(rows))
    }

    /// XDWRITE EXTENDED, DISABLE WRITE one: the medium stays as it is.
    pub fn xdwrite_extended_disabled(
        &mut self,
        alloc: Global,
        order: &Order,
        act: &BlockAct,
    ) -> Result<Bytes, ActStop>
        requires act { IsAct self.old.disk self.old.log order.now act.now }
        requires due { length order.now.bytes ≡ act.now.count * self.old.disk.block }
        ensures done { IfOk result (λ bytes. HasEffect self.old.disk self.old.log act.now (λ old. xdwrite_extended_disabled_effect order.now act.now.cdb self.old.disk.buffer.list old act.now.row) bytes self.new.disk self.new.log) }
        ensures whole { IfOk result (λ bytes. length bytes ≡ act.now.count * self.old.disk.block) }
        ensures stopped { IfErr result (IsStopped M.NEVER_FAILS self.old.disk self.old.log self.new.disk self.new.log) }
    {
        let Workspace {
            names,
            mut kept,
            mut rows,
        } = Workspace::of_rows(alloc, order, order.bytes.len())?;
        self.disk
            .read_delta(act.row, order.bytes.as_slice(), &mut rows)?;
        kept.copy_from_slice(&rows);
        let dropped = self.log.drops_next();
        let event = hold_event(order, act, kept, names, DeltaWay::Sent { dropped });
        self.log.append(event, act.stamp);
        Ok(Bytes::from_vec(rows))
    }
}
