//! The calls of a script, one after the other.

ghost use Rattle.std.specs.Prelude.{◌≡◌, ◌<◌, ◌^◌, [], true, false, length};
ghost use Rattle.std.specs.List.{AllByRecursion};
ghost use Rattle.stripe_layout.specs.Modes.{sends_delta};
ghost use Rattle.host_scripts.specs.Scripts.{IsScript};
ghost use Rattle.unit_plans.specs.Buses.{merged};
ghost use Rattle.array_control.specs.Arrays.{IsArrayOf, IsCalm};
ghost use Rattle.array_control.specs.Turns.{StandsAt};
ghost use Rattle.array_calls.specs.FirstBus.{bus_of};
ghost use Rattle.array_calls.specs.FirstHost.{IsOfFirst};

use crate::answers::push_replies;
use crate::first_bus::{first_page, first_targets};
use crate::hosts_calls::are_of_first;
use array_book::Book;
use array_control::{Array, HostRun, Turned};
use blocks_core::{Bytes, Memory};
use history_locks::PlainBus;
use host_requests::most_blocks;
use host_scripts::{Script, parse};
use std::alloc::Global;
use stripe_check::trace;
use text_fields::push_counted;
use unit_plans::{Bus, Stop};

/// The most bytes of a script. Its lines are then counted in 32 bits, as `parse` wants.
const LIMIT: usize = 50_331_648;

/// What is answered to an input.
#[derive(Drop)]
pub enum Answer {
    Text(Bytes),
    /// It is no script, or one that is too long, or of a mode in which targets send their deltas, or not all of its calls are those
    /// of the first host, or memory ran out while it was read.
    NoInput,
}

/// Serves the calls of the script that an input spells.
pub fn answer_to(alloc: Global, input: &[u8]) -> Result<Answer, Stop> {
    if input.len() > LIMIT {
        return Ok(Answer::NoInput);
    }
    let Ok(script) = parse(alloc, input) else {
        return Ok(Answer::NoInput);
    };
    if script.mode.sends_delta() || !are_of_first(script.calls.as_slice()) {
        return Ok(Answer::NoInput);
    }
    let text = run_script(alloc, &script)?;
    Ok(Answer::Text(text))
}

/// What the first host of a script is told, and the trace of all that happened.
fn run_script(alloc: Global, script: &Script) -> Result<Bytes, Stop>
    requires script { IsScript script.now }
    requires fewer { length script.now.calls < 2 ^ 32 }
    requires planned { sends_delta script.now.mode ≡ false }
    requires hosts { AllByRecursion IsOfFirst script.now.calls }
{
    let targets = first_targets(alloc, script)?;
    let book = Book::new(alloc, script.geometry, script.mode, script.buffer)?;
    let (bus, pass) = PlainBus::new(targets, book, first_page(script));
    let mut text = Bytes::new(alloc);
    let bus = serve_script(alloc, script, bus, pass, &mut text)?;
    let (journal, _media) = bus.finish(alloc)?;
    text.push_slice(trace(alloc, &journal)?.as_slice())?;
    Ok(text)
}

/// Serves the calls of a script over a bus on which nothing happened, and tells the replies. The bus comes back.
fn serve_script<B: Bus + Drop>(
    alloc: Global,
    script: &Script,
    bus: B,
    pass: B::Pass,
    text: &mut Bytes,
) -> Result<B, Stop>
    requires script { IsScript script.now }
    requires fewer { length script.now.calls < 2 ^ 32 }
    requires planned { sends_delta script.now.mode ≡ false }
    requires hosts { AllByRecursion IsOfFirst script.now.calls }
    requires setting { B.setting bus ≡ bus_of script.now }
    requires alone { B.alone ≡ true }
    requires reliable { B.reliable ≡ true }
    requires pass { B.IsPass bus pass }
    requires first { merged (B.history bus pass) ≡ [] }
{
    let mut array = Array::new(bus, script.geometry, script.mode, most_blocks(script));
    let mut run = HostRun::new(alloc, &script.calls, 0)?;
    let turned = take_turns(alloc, &mut array, pass, &mut run)?;
    push_replies(text, script.calls.as_slice(), run.replies())?;
    push_end(text, turned)?;
    Ok(array.into_bus())
}

/// Lets a host act until no call of it is left, or its next act has to wait.
fn take_turns<'a, B: Bus + Drop>(
    alloc: Global,
    array: &mut Array<B>,
    pass: B::Pass,
    run: &mut HostRun<'a>,
) -> Result<Turned, Stop>
    requires array { IsArrayOf (B.setting array.old.bus) array.old.geometry array.old.mode array.old.max }
    requires pass { B.IsPass array.old.bus pass }
    requires calm { IsCalm B.alone B.reliable (B.setting array.old.bus) (merged (B.history array.old.bus pass)) }
    requires stands { StandsAt (B.setting array.old.bus) run.old (merged (B.history array.old.bus pass)) }
{
    let mut pass = pass;
    for _ in 0..u64::MAX {
        let (turned, back) = array.turn(alloc, pass, run)?;
        pass = back;
        if turned != Turned::Made {
            return Ok(turned);
        }
    }
    Ok(Turned::Made)
}

/// A line that says which command the next act has to wait for, where it has to.
fn push_end(text: &mut Bytes, turned: Turned) -> Result<(), Memory> {
    match turned {
        Turned::Blocked { by } => {
            push_counted(text, b"blocked", u64::from(by))?;
            text.push(b'\n')
        }
        _ => Ok(()),
    }
}
