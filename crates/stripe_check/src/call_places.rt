//! Where a list of calls keeps the one of a number.

ghost use Rattle.std.specs.Prelude.{◌≡◌, ◌==◌, ◌+◌, ◌<◌, ℕ, false, MatchOption};

/// The place of a call among so many. Calls count from 1, and a journal that isn't what the calls ask for may
/// name any: one that isn't there has no place, and is told nothing.
pub fn place_of_call(call: u32, calls: usize) -> Option<usize>
    ensures { MatchOption result ((n : ℕ) → n < calls → (call == n + 1) ≡ false) (λ place. (place < calls) × (call ≡ place + 1)) }
{
    let number = call as usize;
    if number == 0 || number > calls {
        None
    } else {
        Some(number - 1)
    }
}
