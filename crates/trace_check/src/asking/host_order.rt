//! Whether the calls of each host come one after another.

ghost use Rattle.std.specs.Prelude.{◌≡◌, ◌↔◌, ◌++◌, IsTrue, filter, reverse, List, ℕ};
ghost use Rattle.std.specs.Option.{option_copied};
ghost use Rattle.stripe_check.specs.Asked.{call_list, is_of_host, goes_back};
ghost use Rattle.host_requests.specs.Requests.{call_at};
ghost use Rattle.trace_check.specs.EntrySteps.{calls_in};
ghost use Rattle.trace_check.specs.HostOrder.{IsOrderOf, AreStepsInTurn};

use crate::asking::entry_steps::EntryStep;
use host_scripts::{Call, Script};

/// The greatest call so far, and whether none came before it that was greater.
#[derive(Clone, Copy, Debug)]
struct CallOrder {
    greatest: u32,
    rises: bool,
}

/// The call of a number, from 1.
pub fn call_at(script: &Script, number: u32) -> Option<&Call>
    ensures { option_copied result ≡ call_at script.now.calls number }
{
    if number == 0 {
        None
    } else {
        script.calls.get(number as usize - 1)
    }
}

fn is_of_host(script: &Script, host: u8, number: u32) -> bool
    ensures { result ≡ is_of_host script.now host number }
{
    match call_at(script, number) {
        Some(call) => call.host == host,
        None => false,
    }
}

/// The call of a step, where it is the host's.
fn host_call(script: &Script, host: u8, entry_step: &EntryStep) -> Option<u32>
    ensures { call_list result ≡ filter (is_of_host script.now host) (call_list entry_step.now.call) }
{
    match entry_step.call {
        Some(number) => {
            if is_of_host(script, host, number) {
                Some(number)
            } else {
                None
            }
        }
        None => None,
    }
}

fn order_after(order: CallOrder, call: Option<u32>) -> CallOrder
    ensures { (calls : List ℕ) → IsOrderOf order calls → IsOrderOf result (call_list call ++ calls) }
{
    match call {
        Some(number) => {
            if number < order.greatest {
                CallOrder {
                    greatest: order.greatest,
                    rises: false,
                }
            } else {
                CallOrder {
                    greatest: number,
                    rises: order.rises,
                }
            }
        }
        None => order,
    }
}

/// Whether a host's calls come one after another.
fn is_in_turn(script: &Script, entry_steps: &[EntryStep], host: u8) -> bool
    ensures { result ≡ goes_back (filter (is_of_host script.now host) (calls_in (reverse entry_steps.now))) }
{
    let mut order = CallOrder {
        greatest: 0,
        rises: true,
    };
    for entry_step in entry_steps {
        order = order_after(order, host_call(script, host, entry_step));
    }
    order.rises
}

/// Whether each host's calls come one after another.
pub fn are_in_turn(script: &Script, entry_steps: &[EntryStep]) -> bool
    ensures { IsTrue result ↔ AreStepsInTurn script.now (reverse entry_steps.now) }
{
    for host in 0..script.hosts {
        if !is_in_turn(script, entry_steps, host) {
            return false;
        }
    }
    true
}
