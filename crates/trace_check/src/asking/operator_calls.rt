//! Whether a call has the entries that it asks for.

ghost use Rattle.std.specs.Prelude.{◌≡◌, ◌∷◌, [], map, reverse};
ghost use Rattle.stripe_check.specs.Asked.{is_lost, is_replaced};
ghost use Rattle.trace_check.specs.EntrySteps.{step_of};

use crate::asking::entry_steps::Step;
use crate::asking::noted_losses::NotedLosses;
use array_journal::Why;
use run_check::is_same_name;

fn is_lost_by(noted: &NotedLosses, target: u8, step: Step) -> bool
    ensures { result ≡ is_lost noted.now target (step_of step ∷ []) }
{
    match step {
        Step::Lost { lock, life } => {
            u16::from(lock) == u16::from(target) + 1 && noted.is_noted(target, life)
        }
        _ => false,
    }
}

/// Whether these are the steps of a loss of the target.
pub fn is_lost(noted: &NotedLosses, target: u8, steps: &[Step]) -> bool
    ensures { result ≡ is_lost noted.now target (map step_of steps.now) }
{
    match steps {
        [step] => is_lost_by(noted, target, *step),
        _ => false,
    }
}

fn is_not_lost(step: Step, slot: u8) -> bool
    ensures { result ≡ is_replaced slot (step_of step ∷ []) }
{
    match step {
        Step::Refused {
            piece,
            why: Why::NotLost,
        } => piece == 0,
        _ => false,
    }
}

fn is_fresh_for(slot: u8, swapped: Step, renewed: Step) -> bool
    ensures { result ≡ is_replaced slot (step_of swapped ∷ step_of renewed ∷ []) }
{
    match (swapped, renewed) {
        (Step::Swapped { slot: other, name }, Step::Renewed { lock, swap }) => {
            other == slot && u16::from(lock) == u16::from(slot) + 1 && is_same_name(swap, name)
        }
        _ => false,
    }
}

/// Whether these are the steps of a disk that is replaced, or isn't lost.
pub fn is_replaced(slot: u8, steps: &[Step]) -> bool
    ensures { result ≡ is_replaced slot (map step_of steps.now) }
{
    match steps {
        [step] => is_not_lost(*step, slot),
        [swapped, renewed] => is_fresh_for(slot, *swapped, *renewed),
        _ => false,
    }
}
