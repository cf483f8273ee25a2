//! The steps of plans.

ghost use Rattle.std.specs.Prelude.{◌≡◌};
ghost use Rattle.unit_plans.specs.Steps.{first_act, target_of};

use array_journal::{Act, Kind, Task};

/// How far a plan has come.
#[derive(Clone, Copy, Debug, PartialEq, Eq)]
pub enum Step {
    /// It has asked for nothing.
    Begun,
    /// It has asked for this act.
    Acting(Act),
    /// It has asked to close its command.
    Closing,
    /// It has replied.
    Over,
}

/// The first act of a command of a kind.
pub(crate) fn first_act(kind: Kind) -> Act
    ensures { result ≡ first_act kind }
{
    match kind {
        Kind::Update => Act::Diffs,
        _ => Act::Fetches,
    }
}

/// Where a read or an update makes an act: a fold at parity, the others at the target of the blocks.
pub(crate) fn target_of(task: &Task, act: Act) -> u8
    ensures { result ≡ target_of task.now act }
{
    match act {
        Act::Folds => task.parity,
        _ => task.target,
    }
}
