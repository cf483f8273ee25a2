//! Whether a loss may be noted.

ghost use Rattle.std.specs.Prelude.{◌≡◌, ◌<◌};
ghost use Rattle.run_check.specs.NoteTest.{may_note};

use crate::context::Context;
use crate::names::names;
use crate::questions::Question;
use array_journal::At;

/// Whether a loss may be noted.
pub fn may_note(context: &Context, slot: usize, lost: At) -> bool
    requires { slot < 256 }
    ensures { result ≡ may_note context.now.past.now context.now.stamp slot lost }
{
    let life = context.past.swap_count(slot);
    let is_loss = names(context, lost, Question::IsLossIn { life });
    let known = context.past.is_unfitted(slot);
    usize::from(lost.lock) == slot + 1 && is_loss && !known
}
