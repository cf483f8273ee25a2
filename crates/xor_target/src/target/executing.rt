//! Orders.

ghost use Rattle.std.specs.Prelude.{◌≡◌, false, IfOk, OnErr};
ghost use Rattle.xor_target.specs.Acts.{IsAdmitted, BringsBlocks};
ghost use Rattle.xor_target.specs.Answers.{IsAnswered, IsActed, IsExecuted, IsSent, IsGathered};
ghost use Rattle.xor_target.specs.Gathers.{IsGatherer};
ghost use Rattle.xor_target.specs.State.{is_waiting};

use super::Target;
use crate::admission::Admitted;
use crate::answer::Answer;
use crate::logical_unit::Secondary;
use crate::order::Order;
use blocks_core::Memory;
use sbc_cdbs::Command;
use sector_media::Medium;
use std::alloc::Global;

impl<M: Medium + Drop> Target<M> {
    /// Answers an order, and does what its command says where it isn't refused. All memory is taken before the
    /// first change. The owner isn't waited for.
    pub fn execute(&mut self, alloc: Global, order: &Order) -> Answer
        requires { is_waiting self.old order.now.owner ≡ false }
        ensures { IsAnswered M.NEVER_FAILS self.old order.now result self.new }
    {
        let admitted = match self.admitted(alloc, order) {
            Ok(admitted) => admitted,
            Err(answer) => return answer,
        };
        match self.serve(alloc, order, &admitted) {
            Ok(answer) => answer,
            Err(Memory) => Answer::Memory,
        }
    }

    /// Does what a command says that is to be done.
    fn serve(&mut self, alloc: Global, order: &Order, admitted: &Admitted) -> Result<Answer, Memory>
        requires { IsAdmitted self.old order.now admitted.now }
        ensures done { IfOk result (λ answer. IsExecuted M.NEVER_FAILS self.old order.now answer self.new admitted.now.command) }
        ensures memory { OnErr result (self.new ≡ self.old) }
    {
        match admitted.command {
            Command::ModeSense { pc, allocation, .. } => self.mode_sense(alloc, pc, allocation),
            Command::ModeSelect { .. } => Ok(self.mode_select(alloc, order)),
            Command::XdWriteExtended {
                second,
                length,
                address,
                ..
            } => {
                let secondary = Secondary {
                    row: second,
                    count: length as u16,
                    target: address,
                };
                self.send(alloc, order, admitted, secondary)
            }
            Command::Rebuild { .. } | Command::Regenerate { .. } => {
                self.gather(alloc, order, admitted)
            }
            _ => self.act(alloc, order, admitted),
        }
    }

    /// Does what a command of blocks says.
    fn act(&mut self, alloc: Global, order: &Order, admitted: &Admitted) -> Result<Answer, Memory>
        requires admitted { IsAdmitted self.old order.now admitted.now }
        requires blocks { BringsBlocks admitted.now.command }
        ensures done { IfOk result (λ answer. IsActed M.NEVER_FAILS self.old order.now admitted.now.command answer self.new) }
        ensures memory { OnErr result (self.new ≡ self.old) }
    {
        self.unit.act(alloc, order, admitted)
    }

    /// Does an XDWRITE EXTENDED, and asks that its delta be folded.
    fn send(
        &mut self,
        alloc: Global,
        order: &Order,
        admitted: &Admitted,
        secondary: Secondary,
    ) -> Result<Answer, Memory>
        requires admitted { IsAdmitted self.old order.now admitted.now }
        requires blocks { BringsBlocks admitted.now.command }
        ensures sent { IfOk result (λ answer. IsSent M.NEVER_FAILS self.old order.now admitted.now.command secondary.row secondary.count secondary.target answer self.new) }
        ensures memory { OnErr result (self.new ≡ self.old) }
    {
        self.unit.send(alloc, order, admitted, secondary)
    }

    /// Does a REBUILD or REGENERATE, or begins to gather what it takes.
    fn gather(
        &mut self,
        alloc: Global,
        order: &Order,
        admitted: &Admitted,
    ) -> Result<Answer, Memory>
        requires admitted { IsAdmitted self.old order.now admitted.now }
        requires gathers { IsGatherer admitted.now.command }
        ensures gathered { IfOk result (λ answer. IsGathered M.NEVER_FAILS self.old order.now admitted.now.command answer self.new) }
        ensures memory { OnErr result (self.new ≡ self.old) }
    {
        self.unit.gather(alloc, order, admitted)
    }
}
