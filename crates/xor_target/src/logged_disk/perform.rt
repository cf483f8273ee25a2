//! The commands of blocks, each by its code.

ghost use Rattle.std.specs.Prelude.{◌≡◌, ◌+◌, true, length, IfOk, IfErr};
ghost use Rattle.sbc_cdbs.specs.Kinds.{is_kept};
ghost use Rattle.xor_buffers.specs.Held.{held_blocks};
ghost use Rattle.xor_target.specs.Acts.{IsAct, IsActOf, IsStopped, IsPerformed, IsPossible};
ghost use Rattle.xor_target.specs.Effects.{bytes_back};

use super::LoggedDisk;
use crate::act::{ActStop, BlockAct};
use crate::order::Order;
use blocks_core::Bytes;
use sbc_cdbs::Command;
use sector_media::Medium;
use std::alloc::Global;

impl<M: Medium + Drop> LoggedDisk<M> {
    /// Does what a command of blocks says, and gives the bytes that it answers.
    pub fn perform(
        &mut self,
        alloc: Global,
        order: &Order,
        command: &Command,
        act: &BlockAct,
    ) -> Result<Bytes, ActStop>
        requires act { IsAct self.old.disk self.old.log order.now act.now }
        requires possible { IsPossible self.old.disk order.now command.now }
        requires rows { IsActOf command.now act.now }
        ensures done { IfOk result (λ bytes. IsPerformed self.old.disk self.old.log order.now command.now act.now bytes self.new.disk self.new.log) }
        ensures whole { IfOk result (λ bytes. length bytes ≡ bytes_back self.old.disk.block command.now) }
        ensures fills { IfOk result (λ _. is_kept command.now ≡ true → held_blocks self.old.disk.block self.new.disk.buffer.list ≡ held_blocks self.old.disk.block self.old.disk.buffer.list + act.now.count) }
        ensures stopped { IfErr result (IsStopped M.NEVER_FAILS self.old.disk self.old.log self.new.disk self.new.log) }
    {
        match *command {
            Command::Read { .. } => self.read(alloc, order, act),
            Command::Write { .. } | Command::Rebuild { .. } => self.write(alloc, order, act),
            Command::XdWrite { disable: false, .. } => self.xdwrite(alloc, order, act),
            Command::XdWrite { disable: true, .. } | Command::Regenerate { .. } => {
                self.xdwrite_disabled(alloc, order, act)
            }
            Command::XdWriteRead { disable: false, .. } => self.xdwriteread(alloc, order, act),
            Command::XdWriteRead { disable: true, .. } => {
                self.xdwriteread_disabled(alloc, order, act)
            }
            Command::XdWriteExtended { disable: false, .. } => {
                self.xdwrite_extended(alloc, order, act)
            }
            Command::XdWriteExtended { disable: true, .. } => {
                self.xdwrite_extended_disabled(alloc, order, act)
            }
            Command::XpWrite { .. } => self.xpwrite(alloc, order, act),
            Command::XdRead { .. } => self.xdread(alloc, order, act),
            Command::ModeSelect { .. } | Command::ModeSense { .. } => unreachable!(),
        }
    }
}
