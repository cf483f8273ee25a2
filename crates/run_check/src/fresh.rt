//! Whether a fresh disk may be put in.

ghost use Rattle.std.specs.Prelude.{◌≡◌, ◌<◌};
ghost use Rattle.array_journal.specs.Entries.{entry_at};
ghost use Rattle.run_check.specs.FreshTest.{is_swap_for, may_freshen};

use crate::context::Context;
use array_journal::{At, Event};
use journal_index::Past;

/// Whether the entry of a name is a swap of a slot for a call.
fn is_swap(past: &Past, slot: usize, call: u32, swap: At) -> bool
    ensures { result ≡ is_swap_for slot call (entry_at swap past.now) }
{
    match past.entry_at(swap) {
        Some(
            Event::Swap {
                slot: its_slot,
                call: its_call,
            },
        ) => { usize::from(*its_slot) == slot && *its_call == call }
        _ => false,
    }
}

/// Whether a fresh disk may be put in.
pub fn may_freshen(context: &Context, target: usize, call: u32, swap: At) -> bool
    requires { target < 256 }
    ensures { result ≡ may_freshen context.now.past.now context.now.stamp target call swap }
{
    let swapped = is_swap(context.past, target, call, swap);
    let swaps = context.past.swaps_before(target, swap.stamp);
    let life = context.past.life_of(target);
    swapped && swap.stamp < context.stamp && swap.lock == 0 && swaps == life
}
