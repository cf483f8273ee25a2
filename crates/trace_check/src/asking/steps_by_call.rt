//! The steps of each call.

ghost use Rattle.std.specs.Prelude.{◌≡◌, ◌==◌, ◌++◌, ◌∷◌, ◌≤◌, ◌+◌, [], ℕ, IfOk, OnOk, map, reverse, length, if◌then◌else◌};
ghost use Rattle.trace_check.specs.EntrySteps.{step_of, steps_with, steps_in};
ghost use Rattle.trace_check.specs.StepsByCall.{steps_kept};

use crate::asking::entry_steps::{EntryStep, Step};
use blocks_core::Memory;
use std::alloc::Global;
use std::collections::BTreeMap;

/// The steps of calls by their numbers, those of a call in their order.
#[derive(Debug, Drop)]
pub struct StepsByCall {
    kept: BTreeMap<u32, Vec<Step>>,
}

impl StepsByCall {
    /// No steps.
    fn new(alloc: Global) -> StepsByCall
        ensures { (n : ℕ) → steps_kept result n ≡ [] }
    {
        StepsByCall {
            kept: BTreeMap::new(alloc),
        }
    }

    /// Those of the call of a number.
    pub fn of(&self, number: u32) -> &[Step]
        ensures { result.now ≡ steps_kept self.now number }
    {
        match self.kept.get(&number) {
            Some(steps) => steps.as_slice(),
            None => &[],
        }
    }

    /// Puts one more step to those of a call.
    fn push(&mut self, alloc: Global, number: u32, step: Step) -> Result<(), Memory>
        ensures { OnOk result ((n : ℕ) → steps_kept self.new n ≡ (if number == n then steps_kept self.old n ++ step ∷ [] else steps_kept self.old n)) }
    {
        match self.kept.get_mut(&number) {
            Some(steps) => steps.push(step)?,
            None => {
                let mut steps = Vec::new(alloc);
                steps.push(step)?;
                self.kept.insert(number, steps)?;
            }
        }
        Ok(())
    }

    /// Takes the step of a step in, where it has one and is of a call.
    fn add(&mut self, alloc: Global, entry_step: &EntryStep) -> Result<(), Memory>
        ensures steps { OnOk result ((n : ℕ) → map step_of (steps_kept self.new n) ≡ map step_of (steps_kept self.old n) ++ steps_with n entry_step.now) }
        ensures few { OnOk result ((n : ℕ) → length (steps_kept self.new n) ≤ length (steps_kept self.old n) + 1) }
    {
        match (entry_step.call, entry_step.step) {
            (Some(number), Some(step)) => self.push(alloc, number, step),
            _ => Ok(()),
        }
    }
}

/// The steps that steps tell, by their calls.
pub fn steps_by_call_of(alloc: Global, entry_steps: &[EntryStep]) -> Result<StepsByCall, Memory>
    ensures steps { IfOk result (λ all. (n : ℕ) → map step_of (steps_kept all n) ≡ steps_in n (reverse entry_steps.now)) }
    ensures few { IfOk result (λ all. (n : ℕ) → length (steps_kept all n) ≤ length entry_steps.now) }
{
    let mut all = StepsByCall::new(alloc);
    for entry_step in entry_steps {
        all.add(alloc, entry_step)?;
    }
    Ok(all)
}
