//! A call of a host from its beginning to its end.

ghost use Rattle.std.specs.Prelude.{◌≡◌, ◌≢◌, IfOk};
ghost use Rattle.array_journal.specs.Calls.{IsNewCall};
ghost use Rattle.host_requests.specs.Forms.{transfer_as};
ghost use Rattle.host_requests.specs.Requests.{Moves, request_of};
ghost use Rattle.host_scripts.specs.declared.script.Action.TheVariants as actions;
ghost use Rattle.unit_plans.specs.Buses.{merged};
ghost use Rattle.array_control.specs.Arrays.{IsArrayOf, IsCalm, IsUnderWay};
ghost use Rattle.array_control.specs.Turns.{HasReadAll, MadeAll, WasTold};

use crate::array::Array;
use crate::call_run::CallRun;
use host_requests::{Request, raw_request};
use std::alloc::Global;
use std::sync::Wait;
use unit_plans::{Bus, Reply, Stop};

impl<B: Bus + Drop> Array<B> {
    /// Goes on with a call that moves blocks until all its pieces are done. While it is blocked it tries again.
    fn serve_all<'a, R: Wait>(
        &mut self,
        rt: &R,
        alloc: Global,
        mut pass: B::Pass,
        mut call: CallRun<'a>,
    ) -> Result<(Reply, B::Pass), Stop>
        requires array { IsArrayOf (B.setting self.old.bus) self.old.geometry self.old.mode self.old.max }
        requires pass { B.IsPass self.old.bus pass }
        requires calm { IsCalm B.alone B.reliable (B.setting self.old.bus) (merged (B.history self.old.bus pass)) }
        requires call { IsUnderWay (B.setting self.old.bus) call (merged (B.history self.old.bus pass)) }
        ensures made { IfOk result (λ r. MadeAll (B.setting self.old.bus) call.entry.number (Moves (transfer_as call.entry.transfer)) (merged (B.history self.old.bus pass)) (merged (B.history self.new.bus r.1))) }
        ensures read { IfOk result (λ r. HasReadAll (B.setting self.old.bus) call.entry.number (transfer_as call.entry.transfer) r.0 (merged (B.history self.new.bus r.1))) }
        ensures calm { IfOk result (λ r. IsCalm B.alone B.reliable (B.setting self.old.bus) (merged (B.history self.new.bus r.1))) }
        ensures pass { IfOk result (λ r. B.IsPass self.new.bus r.1) }
        ensures setting { B.setting self.new.bus ≡ B.setting self.old.bus }
        ensures same { self.new ≡ record self.old { bus = self.new.bus } }
    {
        for _ in rt.forever() {
            if call.is_done() {
                break;
            }
            let (_, back) = self.advance(alloc, pass, &mut call)?;
            pass = back;
        }
        let bytes = call.into_read();
        Ok((Reply::Good { bytes }, pass))
    }

    /// Serves a host's CDB, with the bytes that came with it, as the call of this number. It waits while a piece has to wait for a
    /// command of another caller. A CDB that fails a test is refused (SBC, READ(10) and WRITE(10)).
    pub fn execute<R: Wait>(
        &mut self,
        rt: &R,
        alloc: Global,
        pass: B::Pass,
        number: u32,
        cdb: &[u8],
        bytes: &[u8],
    ) -> Result<(Reply, B::Pass), Stop>
        requires array { IsArrayOf (B.setting self.old.bus) self.old.geometry self.old.mode self.old.max }
        requires pass { B.IsPass self.old.bus pass }
        requires calm { IsCalm B.alone B.reliable (B.setting self.old.bus) (merged (B.history self.old.bus pass)) }
        requires number { number ≢ 0 }
        requires new { IsNewCall number (merged (B.history self.old.bus pass)) }
        ensures made { IfOk result (λ r. MadeAll (B.setting self.old.bus) number (request_of (B.setting self.old.bus).array.geometry (actions.Raw cdb.now bytes.now)) (merged (B.history self.old.bus pass)) (merged (B.history self.new.bus r.1))) }
        ensures told { IfOk result (λ r. WasTold (B.setting self.old.bus) number (actions.Raw cdb.now bytes.now) (request_of (B.setting self.old.bus).array.geometry (actions.Raw cdb.now bytes.now)) r.0 (merged (B.history self.new.bus r.1))) }
        ensures calm { IfOk result (λ r. IsCalm B.alone B.reliable (B.setting self.old.bus) (merged (B.history self.new.bus r.1))) }
        ensures pass { IfOk result (λ r. B.IsPass self.new.bus r.1) }
        ensures setting { B.setting self.new.bus ≡ B.setting self.old.bus }
        ensures same { self.new ≡ record self.old { bus = self.new.bus } }
    {
        match raw_request(&self.geometry, cdb, bytes) {
            Request::Illegal { fault } => {
                let pass = self.refuse(alloc, pass, number, fault)?;
                let sense = fault.sense();
                Ok((Reply::Check { sense }, pass))
            }
            Request::Blocks { transfer } => {
                let call = self.call(alloc, number, transfer);
                self.serve_all(rt, alloc, pass, call)
            }
            _ => unreachable!(),
        }
    }
}
