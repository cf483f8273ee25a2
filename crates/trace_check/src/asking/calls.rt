//! Whether each call has the entries that it asks for.

ghost use Rattle.std.specs.Prelude.{◌≡◌, ◌↔◌, ◌<◌, ◌+◌, ◌^◌, ◌∷◌, [], false, IsTrue, IfOk, reverse, length, map};
ghost use Rattle.stripe_layout.specs.Layout.{stripes_of};
ghost use Rattle.array_journal.specs.declared.event.Why.TheVariants as causes;
ghost use Rattle.host_scripts.specs.Scripts.{IsScript};
ghost use Rattle.stripe_check.specs.Asked.{IsServed, AreServed, goes_through};
ghost use Rattle.host_requests.specs.Forms.{request_as, sense_of, IsWithin};
ghost use Rattle.host_requests.specs.Requests.{request_of};
ghost use Rattle.stripe_check.specs.Steps as asked;
ghost use Rattle.stripe_check.specs.Steps.{steps_of};
ghost use Rattle.trace_check.specs.EntrySteps.{step_of, AreStepsOf};

use crate::asking::causes::is_same_cause;
use crate::asking::deciding::both;
use crate::asking::entry_steps::{EntryStep, Step};
use crate::asking::noted_losses::NotedLosses;
use crate::asking::operator_calls::{is_lost, is_replaced};
use crate::asking::piece_order::{CallPieces, goes_through};
use crate::asking::steps_by_call::steps_by_call_of;
use array_journal::{What, Why};
use blocks_core::Memory;
use host_requests::{Request, RequestFault, request_of};
use host_scripts::{Call, Script};
use std::alloc::Global;

fn is_failure(step: Step, fault: RequestFault) -> bool
    ensures { IsTrue result ↔ (step_of step ≡ asked.Refused 0 (causes.Illegal (sense_of fault))) }
{
    match step {
        Step::Refused { piece, why } => {
            let same = is_same_cause(
                why,
                Why::Illegal {
                    sense: fault.sense(),
                },
            );
            piece == 0 && same
        }
        _ => false,
    }
}

fn is_same_what(a: What, b: What) -> bool
    ensures { IsTrue result ↔ (a ≡ b) }
{
    a == b
}

fn is_wipe(step: Step, target: u8, what: What) -> bool
    ensures { IsTrue result ↔ (step_of step ≡ asked.WipedAt (target + 1) what) }
{
    match step {
        Step::WipedAt { lock, what: other } => {
            let same = is_same_what(other, what);
            u16::from(lock) == u16::from(target) + 1 && same
        }
        _ => false,
    }
}

/// Whether a call that fails a test has its one refusal.
fn fails_so(steps: &[Step], fault: RequestFault) -> bool
    ensures { IsTrue result ↔ (map step_of steps.now ≡ asked.Refused 0 (causes.Illegal (sense_of fault)) ∷ []) }
{
    match steps {
        [step] => is_failure(*step, fault),
        _ => false,
    }
}

/// Whether a target is wiped once.
fn wipes_so(steps: &[Step], target: u8, what: What) -> bool
    ensures { IsTrue result ↔ (map step_of steps.now ≡ asked.WipedAt (target + 1) what ∷ []) }
{
    match steps {
        [step] => is_wipe(*step, target, what),
        _ => false,
    }
}

fn goes_over_stripes(script: &Script, steps: &[Step]) -> bool
    requires script { IsScript script.now }
    requires few { length steps.now < 2 ^ 32 }
    ensures { result ≡ goes_through false (stripes_of script.now.geometry) 0 0 (map step_of steps.now) }
{
    let pieces = CallPieces {
        fatal: false,
        count: u64::from(script.geometry.stripes()),
    };
    goes_through(pieces, steps)
}

/// Whether these are the steps of what is asked.
fn is_served_as(script: &Script, noted: &NotedLosses, request: Request, steps: &[Step]) -> bool
    requires script { IsScript script.now }
    requires within { IsWithin script.now.geometry request }
    requires few { length steps.now < 2 ^ 32 }
    ensures { IsTrue result ↔ IsServed script.now noted.now (request_as request.entry) (map step_of steps.now) }
{
    match request {
        Request::Illegal { fault } => fails_so(steps, fault),
        Request::Blocks { transfer } => {
            let count = u64::from(transfer.piece_count(script));
            goes_through(CallPieces { fatal: true, count }, steps)
        }
        Request::Rebuild { .. } => goes_over_stripes(script, steps),
        Request::Resync => goes_over_stripes(script, steps),
        Request::Lose { target } => is_lost(noted, target, steps),
        Request::Wipe { target, what } => wipes_so(steps, target, what),
        Request::Replace { slot } => is_replaced(slot, steps),
    }
}

/// Whether a call has the entries that it asks for, of which these are the steps.
fn is_served(script: &Script, noted: &NotedLosses, steps: &[Step], call: &Call) -> bool
    requires script { IsScript script.now }
    requires few { length steps.now < 2 ^ 32 }
    ensures { IsTrue result ↔ IsServed script.now noted.now (request_of script.now.geometry call.now.action) (map step_of steps.now) }
{
    let request = request_of(&script.geometry, &call.action);
    is_served_as(script, noted, request, steps)
}

/// Whether each call of a script has the entries that it asks for, by the steps of all entries. Takes
/// memory for the steps of the calls.
pub fn are_served(
    alloc: Global,
    script: &Script,
    noted: &NotedLosses,
    entry_steps: &[EntryStep],
) -> Result<bool, Memory>
    requires script { IsScript script.now }
    requires calls { length script.now.calls < 2 ^ 32 }
    requires marked { AreStepsOf (reverse entry_steps.now) noted.now }
    requires few { length entry_steps.now < 2 ^ 32 }
    ensures { IfOk result (λ served. IsTrue served ↔ AreServed script.now noted.now 1 script.now.calls) }
{
    let all = steps_by_call_of(alloc, entry_steps)?;
    let mut served = true;
    for (place, call) in script.calls.as_slice().iter().enumerate() {
        let here = is_served(script, noted, all.of(place as u32 + 1), call);
        served = both(here, served);
    }
    Ok(served)
}
