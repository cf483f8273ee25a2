//! Names of one entry at each of some targets.

ghost use Rattle.std.specs.Prelude.{◌≡◌, ◌==◌, ◌+◌, ◌<◌, ◌&&◌, ◌∷◌, ℕ, List, false, MatchOption};
ghost use Rattle.array_journal.specs.declared.act.Act.TheVariants.{Fetches};
ghost use Rattle.array_journal.specs.Acts.{has_act, is_act, is_target, targets_that};
ghost use Rattle.array_journal.specs.May.{shuts_idle};
ghost use Rattle.run_check.specs.NameTests.{names, names_at};
ghost use Rattle.run_check.specs.Questions.{test_of};

use crate::context::{ArrayCommand, Context};
use crate::names::names;
use crate::questions::Question;
use array_journal::{Act, At, has_act, is_target};

/// Whether the first of some names is of an entry at a target that answers yes.
fn is_first_at(context: &Context, target: usize, question: Question, name: At) -> bool
    requires { target < 256 }
    ensures { result ≡ ((name.lock == target + 1) && names context.now.past.now context.now.stamp name (test_of question)) }
{
    usize::from(name.lock) == target + 1 && names(context, name, question)
}

/// The names after the first, where that is of an entry at a target that answers yes.
fn rest_after<'a>(
    context: &Context,
    target: usize,
    question: Question,
    names: &'a [At],
) -> Option<&'a [At]>
    requires { target < 256 }
    ensures { (targets : List ℕ) → MatchOption result
        (names_at context.now.past.now context.now.stamp (target ∷ targets) (test_of question) names.now ≡ false)
        (λ rest. names_at context.now.past.now context.now.stamp (target ∷ targets) (test_of question) names.now ≡ names_at context.now.past.now context.now.stamp targets (test_of question) rest.now) }
{
    match names {
        [name, rest @ ..] if is_first_at(context, target, question, *name) => Some(rest),
        _ => None,
    }
}

/// Whether the names are of the fetches of a command, one for each target at which it fetches, by rising
/// targets.
pub fn names_fetches(context: &Context, command: &ArrayCommand, names: &[At]) -> bool
    ensures { result ≡ names_at context.now.past.now context.now.stamp (targets_that context.now.setting.now (has_act context.now.setting.now Fetches command.now.task.now)) (is_act Fetches command.now.number) names.now }
{
    let question = Question::IsAct {
        act: Act::Fetches,
        command: command.number,
    };
    let mut rest = names;
    for target in 0..usize::from(context.setting.geometry.targets) {
        if has_act(context.setting, Act::Fetches, command.task, target) {
            match rest_after(context, target, question, rest) {
                Some(others) => rest = others,
                None => return false,
            }
        }
    }
    rest.is_empty()
}

/// Whether the names are of shuts of a command where it changed nothing, one for each of its targets, by
/// rising targets.
pub fn names_shuts(context: &Context, command: &ArrayCommand, names: &[At]) -> bool
    ensures { result ≡ names_at context.now.past.now context.now.stamp (targets_that context.now.setting.now (is_target context.now.setting.now command.now.task.now)) (shuts_idle command.now.number) names.now }
{
    let question = Question::ShutsIdle {
        command: command.number,
    };
    let mut rest = names;
    for target in 0..usize::from(context.setting.geometry.targets) {
        if is_target(context.setting, command.task, target) {
            match rest_after(context, target, question, rest) {
                Some(others) => rest = others,
                None => return false,
            }
        }
    }
    rest.is_empty()
}
