//! The fields of each event behind its name.

ghost use Rattle.std.specs.Prelude.{◌≡◌};
ghost use Rattle.journal_text.specs.Steps.{Gives};
ghost use Rattle.journal_text.specs.Lines.{fetch_at, put_at, diff_at, take_at, fold_at, hold_at, shut_at, gone_at, wiped_at, fresh_at, open_at, close_at, spoil_at, note_at, swap_at, refuse_at, event_at, task_of_parts};

use crate::fault::LineFault;
use crate::reading::fields::{
    ActFields, AimFields, PlaceFields, act_fields, aim_fields, at_field, bytes_field, cause_field,
    flag_field, names_field, number_field, owners_field, place_fields, small_field, what_field,
    why_field,
};
use crate::reading::names::EventName;
use array_journal::{Event, Task};
use std::alloc::Global;

/// The event of an act of a command, with what this kind has besides.
macro_rules! act_event {
    ($kind:ident, $act:ident $(, $more:ident)*) => {{
        let ActFields { command, opened, cdb, row, bytes } = $act;
        Event::$kind { command, opened, cdb, row, bytes $(, $more)* }
    }};
}

#[tactic(auto, unfolding(crate::specs::Lines::fetch_at))]
fn fetch_fields(alloc: Global, line: &[u8]) -> Result<(Event, &[u8]), LineFault>
    ensures { Gives (λ x. (x.0, x.1.now)) result (fetch_at line.now) }
{
    let (act, rest) = act_fields(alloc, line)?;
    Ok((act_event!(Fetch, act), rest))
}

#[tactic(auto, unfolding(crate::specs::Lines::put_at))]
fn put_fields(alloc: Global, line: &[u8]) -> Result<(Event, &[u8]), LineFault>
    ensures { Gives (λ x. (x.0, x.1.now)) result (put_at line.now) }
{
    let (act, rest) = act_fields(alloc, line)?;
    let (names, rest) = names_field(alloc, rest)?;
    Ok((act_event!(Put, act, names), rest))
}

#[tactic(auto, unfolding(crate::specs::Lines::diff_at))]
fn diff_fields(alloc: Global, line: &[u8]) -> Result<(Event, &[u8]), LineFault>
    ensures { Gives (λ x. (x.0, x.1.now)) result (diff_at line.now) }
{
    let (act, rest) = act_fields(alloc, line)?;
    let (sent, rest) = flag_field(rest)?;
    let (dropped, rest) = flag_field(rest)?;
    let (back, rest) = flag_field(rest)?;
    Ok((act_event!(Diff, act, sent, dropped, back), rest))
}

#[tactic(auto, unfolding(crate::specs::Lines::take_at))]
fn take_fields(alloc: Global, line: &[u8]) -> Result<(Event, &[u8]), LineFault>
    ensures { Gives (λ x. (x.0, x.1.now)) result (take_at line.now) }
{
    let (act, rest) = act_fields(alloc, line)?;
    Ok((act_event!(Take, act), rest))
}

#[tactic(auto, unfolding(crate::specs::Lines::fold_at))]
fn fold_fields(alloc: Global, line: &[u8]) -> Result<(Event, &[u8]), LineFault>
    ensures { Gives (λ x. (x.0, x.1.now)) result (fold_at line.now) }
{
    let (act, rest) = act_fields(alloc, line)?;
    let (names, rest) = names_field(alloc, rest)?;
    Ok((act_event!(Fold, act, names), rest))
}

#[tactic(auto, unfolding(crate::specs::Lines::hold_at))]
fn hold_fields(alloc: Global, line: &[u8]) -> Result<(Event, &[u8]), LineFault>
    ensures { Gives (λ x. (x.0, x.1.now)) result (hold_at line.now) }
{
    let (act, rest) = act_fields(alloc, line)?;
    let (kept, rest) = flag_field(rest)?;
    let (names, rest) = names_field(alloc, rest)?;
    let (back, rest) = flag_field(rest)?;
    Ok((act_event!(Hold, act, kept, names, back), rest))
}

#[tactic(auto, unfolding(crate::specs::Lines::shut_at))]
fn shut_fields(line: &[u8]) -> Result<(Event, &[u8]), LineFault>
    ensures { Gives (λ x. (x.0, x.1.now)) result (shut_at line.now) }
{
    let (command, rest) = number_field(line)?;
    let (opened, rest) = at_field(rest)?;
    let (acted, rest) = flag_field(rest)?;
    let (gone, rest) = cause_field(rest)?;
    let event = Event::Shut {
        command,
        opened,
        acted,
        gone,
    };
    Ok((event, rest))
}

#[tactic(auto, unfolding(crate::specs::Lines::gone_at))]
fn gone_fields(alloc: Global, line: &[u8]) -> Result<(Event, &[u8]), LineFault>
    ensures { Gives (λ x. (x.0, x.1.now)) result (gone_at line.now) }
{
    let (life, rest) = number_field(line)?;
    let (call, rest) = number_field(rest)?;
    let (commands, rest) = owners_field(alloc, rest)?;
    let event = Event::Gone {
        life,
        call,
        commands,
    };
    Ok((event, rest))
}

#[tactic(auto, unfolding(crate::specs::Lines::wiped_at))]
fn wiped_fields(alloc: Global, line: &[u8]) -> Result<(Event, &[u8]), LineFault>
    ensures { Gives (λ x. (x.0, x.1.now)) result (wiped_at line.now) }
{
    let (what, rest) = what_field(line)?;
    let (call, rest) = number_field(rest)?;
    let (commands, rest) = owners_field(alloc, rest)?;
    let event = Event::Wiped {
        what,
        call,
        commands,
    };
    Ok((event, rest))
}

#[tactic(auto, unfolding(crate::specs::Lines::fresh_at))]
fn fresh_fields(line: &[u8]) -> Result<(Event, &[u8]), LineFault>
    ensures { Gives (λ x. (x.0, x.1.now)) result (fresh_at line.now) }
{
    let (call, rest) = number_field(line)?;
    let (swap, rest) = at_field(rest)?;
    let event = Event::Fresh { call, swap };
    Ok((event, rest))
}

fn task_of(aim: AimFields, place: PlaceFields) -> Task
    ensures { result ≡ task_of_parts aim place }
{
    let PlaceFields {
        target,
        parity,
        row,
        count,
        bytes,
    } = place;
    Task {
        call: aim.call,
        piece: aim.piece,
        kind: aim.kind,
        stripe: aim.stripe,
        target,
        parity,
        row,
        count,
        bytes,
    }
}

#[tactic(auto, unfolding(crate::specs::Lines::open_at))]
fn open_fields(alloc: Global, line: &[u8]) -> Result<(Event, &[u8]), LineFault>
    ensures { Gives (λ x. (x.0, x.1.now)) result (open_at line.now) }
{
    let (command, rest) = number_field(line)?;
    let (aim, rest) = aim_fields(rest)?;
    let (place, rest) = place_fields(alloc, rest)?;
    let event = Event::Open {
        command,
        task: task_of(aim, place),
    };
    Ok((event, rest))
}

#[tactic(auto, unfolding(crate::specs::Lines::close_at))]
fn close_fields(alloc: Global, line: &[u8]) -> Result<(Event, &[u8]), LineFault>
    ensures { Gives (λ x. (x.0, x.1.now)) result (close_at line.now) }
{
    let (command, rest) = number_field(line)?;
    let (done, rest) = flag_field(rest)?;
    let (names, rest) = names_field(alloc, rest)?;
    let (cause, rest) = cause_field(rest)?;
    let (bytes, rest) = bytes_field(alloc, rest)?;
    let event = Event::Close {
        command,
        done,
        names,
        cause,
        bytes,
    };
    Ok((event, rest))
}

#[tactic(auto, unfolding(crate::specs::Lines::spoil_at))]
fn spoil_fields(line: &[u8]) -> Result<(Event, &[u8]), LineFault>
    ensures { Gives (λ x. (x.0, x.1.now)) result (spoil_at line.now) }
{
    let (command, rest) = number_field(line)?;
    let (diff, rest) = at_field(rest)?;
    let (loss, rest) = at_field(rest)?;
    let (shut, rest) = at_field(rest)?;
    let event = Event::Spoil {
        command,
        diff,
        loss,
        shut,
    };
    Ok((event, rest))
}

#[tactic(auto, unfolding(crate::specs::Lines::note_at))]
fn note_fields(line: &[u8]) -> Result<(Event, &[u8]), LineFault>
    ensures { Gives (λ x. (x.0, x.1.now)) result (note_at line.now) }
{
    let (slot, rest) = small_field(line)?;
    let (gone, rest) = at_field(rest)?;
    let event = Event::Note { slot, gone };
    Ok((event, rest))
}

#[tactic(auto, unfolding(crate::specs::Lines::swap_at))]
fn swap_fields(line: &[u8]) -> Result<(Event, &[u8]), LineFault>
    ensures { Gives (λ x. (x.0, x.1.now)) result (swap_at line.now) }
{
    let (slot, rest) = small_field(line)?;
    let (call, rest) = number_field(rest)?;
    let event = Event::Swap { slot, call };
    Ok((event, rest))
}

#[tactic(auto, unfolding(crate::specs::Lines::refuse_at))]
fn refuse_fields(line: &[u8]) -> Result<(Event, &[u8]), LineFault>
    ensures { Gives (λ x. (x.0, x.1.now)) result (refuse_at line.now) }
{
    let (call, rest) = number_field(line)?;
    let (piece, rest) = number_field(rest)?;
    let (why, rest) = why_field(rest)?;
    let event = Event::Refuse { call, piece, why };
    Ok((event, rest))
}

/// The event of a name, and what stands after its fields.
#[tactic(auto, unfolding(crate::specs::Lines::event_at))]
pub fn event_fields(
    alloc: Global,
    name: EventName,
    line: &[u8],
) -> Result<(Event, &[u8]), LineFault>
    ensures { Gives (λ x. (x.0, x.1.now)) result (event_at name line.now) }
{
    match name {
        EventName::Fetch => fetch_fields(alloc, line),
        EventName::Put => put_fields(alloc, line),
        EventName::Diff => diff_fields(alloc, line),
        EventName::Take => take_fields(alloc, line),
        EventName::Fold => fold_fields(alloc, line),
        EventName::Hold => hold_fields(alloc, line),
        EventName::Shut => shut_fields(line),
        EventName::Gone => gone_fields(alloc, line),
        EventName::Wiped => wiped_fields(alloc, line),
        EventName::Fresh => fresh_fields(line),
        EventName::Open => open_fields(alloc, line),
        EventName::Close => close_fields(alloc, line),
        EventName::Spoil => spoil_fields(line),
        EventName::Note => note_fields(line),
        EventName::Swap => swap_fields(line),
        EventName::Refuse => refuse_fields(line),
    }
}
