//! XDWRITE (SBC): writes the data sent, unless that is disabled, and holds the old data exclusive-or them.

ghost use Rattle.std.specs.Prelude.{◌≡◌, ◌+◌, ◌-◌, ◌*◌, nat_lt, false, length, None, [], IfOk, IfErr};
ghost use Rattle.xor_buffers.specs.Held.{overlap_of, held_blocks};
ghost use Rattle.xor_target.specs.Acts.{IsAct, IsStopped, HasEffect};
ghost use Rattle.xor_target.specs.Effects.{xdwrite_effect, xdwrite_disabled_effect};

use super::LoggedDisk;
use crate::act::{ActStop, BlockAct, Workspace};
use crate::act_events::{DeltaWay, diff_event, hold_event};
use crate::order::Order;
use blocks_core::Bytes;
use sector_media::Medium;
use std::alloc::Global;

impl<M: Medium + Drop> LoggedDisk<M> {
    /// XDWRITE, DISABLE WRITE zero.
    pub fn xdwrite(
        &mut self,
        alloc: Global,
        order: &Order,
        act: &BlockAct,
    ) -> Result<Bytes, ActStop>
        requires act { IsAct self.old.disk self.old.log order.now act.now }
        requires due { length order.now.bytes ≡ act.now.count * self.old.disk.block }
        requires free { overlap_of self.old.disk.block act.now.row act.now.count self.old.disk.buffer.list ≡ None }
        requires room { nat_lt (self.old.disk.buffer.capacity - held_blocks self.old.disk.block self.old.disk.buffer.list) act.now.count ≡ false }
        ensures done { IfOk result (λ bytes. HasEffect self.old.disk self.old.log act.now (λ old. xdwrite_effect order.now act.now.cdb self.old.disk.buffer.list old act.now.row) bytes self.new.disk self.new.log) }
        ensures none { IfOk result (λ bytes. bytes ≡ []) }
        ensures fills { IfOk result (λ _. held_blocks self.old.disk.block self.new.disk.buffer.list ≡ held_blocks self.old.disk.block self.old.disk.buffer.list + act.now.count) }
        ensures stopped { IfErr result (IsStopped M.NEVER_FAILS self.old.disk self.old.log self.new.disk self.new.log) }
    {
        let Workspace { kept, mut rows, .. } = Workspace::of_data(alloc, order, order.bytes.len())?;
        self.disk.reserve(act.count)?;
        self.disk
            .read_delta(act.row, order.bytes.as_slice(), &mut rows)?;
        self.disk.write(act.row, order.bytes.as_slice())?;
        self.disk.hold(order.owner, act.row, &rows, act.count);
        let event = diff_event(order, act, kept, DeltaWay::Held);
        self.log.append(event, act.stamp);
        Ok(Bytes::new(alloc))
    }

    /// XDWRITE, DISABLE WRITE one: the medium stays as it is.
    pub fn xdwrite_disabled(
        &mut self,
        alloc: Global,
        order: &Order,
        act: &BlockAct,
    ) -> Result<Bytes, ActStop>
        requires act { IsAct self.old.disk self.old.log order.now act.now }
        requires due { length order.now.bytes ≡ act.now.count * self.old.disk.block }
        requires free { overlap_of self.old.disk.block act.now.row act.now.count self.old.disk.buffer.list ≡ None }
        requires room { nat_lt (self.old.disk.buffer.capacity - held_blocks self.old.disk.block self.old.disk.buffer.list) act.now.count ≡ false }
        ensures done { IfOk result (λ bytes. HasEffect self.old.disk self.old.log act.now (λ old. xdwrite_disabled_effect order.now act.now.cdb self.old.disk.buffer.list old act.now.row) bytes self.new.disk self.new.log) }
        ensures none { IfOk result (λ bytes. bytes ≡ []) }
        ensures fills { IfOk result (λ _. held_blocks self.old.disk.block self.new.disk.buffer.list ≡ held_blocks self.old.disk.block self.old.disk.buffer.list + act.now.count) }
        ensures stopped { IfErr result (IsStopped M.NEVER_FAILS self.old.disk self.old.log self.new.disk self.new.log) }
    {
        let Workspace {
            names,
            mut kept,
            mut rows,
        } = Workspace::of_rows(alloc, order, order.bytes.len())?;
        self.disk.reserve(act.count)?;
        self.disk
            .read_delta(act.row, order.bytes.as_slice(), &mut rows)?;
        kept.copy_from_slice(&rows);
        self.disk.hold(order.owner, act.row, &rows, act.count);
        let event = hold_event(order, act, kept, names, DeltaWay::Held);
        self.log.append(event, act.stamp);
        Ok(Bytes::new(alloc))
    }
}
