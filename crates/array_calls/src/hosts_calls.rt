//! Which calls are those of the first host.

ghost use Rattle.std.specs.Prelude.{◌≡◌, true};
ghost use Rattle.std.specs.List.{AllByRecursion};
ghost use Rattle.array_calls.specs.FirstHost.{IsOfFirst, IsMoved};

use host_scripts::{Action, Call};

/// Whether an action is a host's, and not the operator's.
fn is_moved(action: &Action) -> bool
    ensures { result ≡ true → IsMoved action.now }
{
    match action {
        Action::Read { .. } | Action::Write { .. } | Action::Fill { .. } | Action::Raw { .. } => {
            true
        }
        _ => false,
    }
}

/// Whether a call is one of the first host.
fn is_of_first(call: &Call) -> bool
    ensures { result ≡ true → IsOfFirst call.now }
{
    call.host == 0 && is_moved(&call.action)
}

/// Whether these calls are all of the first host.
pub fn are_of_first(calls: &[Call]) -> bool
    ensures { result ≡ true → AllByRecursion IsOfFirst calls.now }
{
    for call in calls {
        if !is_of_first(call) {
            return false;
        }
    }
    true
}
