//! Traces: a line for each entry.

ghost use Rattle.std.specs.Prelude.{◌≡◌, ◌++◌, ◌∷◌, [], OnOk, IfOk, IfSome, codes};
ghost use Rattle.std.specs.Fmt.{decimal};
ghost use Rattle.array_journal.specs.ActEvents.{act_in};
ghost use Rattle.journal_text.specs.Traces.{field, flag_text, at_text, cause_text, names_text, owners_text, aim_text, place_text, act_text, event_text, entry_line, trace_of};

mod fields;

use crate::printing::fields::{
    put_at, put_bytes, put_cause, put_flag, put_kind, put_names, put_number, put_owners, put_what,
    put_why,
};
use array_journal::{ActView, At, Entry, Event, Journal, Names, Task};
use blocks_core::{Bytes, Memory, Owners};
use std::alloc::Global;
use text_fields::push_number;

/// What all acts of commands have: the command, its opening, the CDB, the first row and the bytes.
fn put_act(text: &mut Bytes, act: &ActView) -> Result<(), Memory>
    ensures { OnOk result (text.new ≡ text.old ++ act_text act.now.command act.now.opened act.now.cdb.now act.now.row act.now.bytes.now) }
{
    put_number(text, u64::from(act.command))?;
    put_at(text, &act.opened)?;
    put_bytes(text, act.cdb.as_slice())?;
    put_number(text, u64::from(act.row))?;
    put_bytes(text, act.bytes)
}

/// The command of a task, and what it does.
fn put_aim(text: &mut Bytes, task: &Task) -> Result<(), Memory>
    ensures { OnOk result (text.new ≡ text.old ++ aim_text task.now) }
{
    put_number(text, u64::from(task.call))?;
    put_number(text, u64::from(task.piece))?;
    put_kind(text, task.kind)?;
    put_number(text, u64::from(task.stripe))
}

/// Where a task does it, and the blocks.
fn put_place(text: &mut Bytes, task: &Task) -> Result<(), Memory>
    ensures { OnOk result (text.new ≡ text.old ++ place_text task.now) }
{
    put_number(text, u64::from(task.target))?;
    put_number(text, u64::from(task.parity))?;
    put_number(text, u64::from(task.row))?;
    put_number(text, u64::from(task.count))?;
    put_bytes(text, task.bytes.as_slice())
}

fn put_open(text: &mut Bytes, command: u32, task: &Task) -> Result<(), Memory>
    ensures { OnOk result (text.new ≡ text.old ++ (codes "open" ++ (field (decimal command) ++ (aim_text task.now ++ place_text task.now)))) }
{
    text.push_slice(b"open")?;
    put_number(text, u64::from(command))?;
    put_aim(text, task)?;
    put_place(text, task)
}

fn put_close(
    text: &mut Bytes,
    command: u32,
    done: bool,
    names: &Names,
    cause: &Option<At>,
) -> Result<(), Memory>
    ensures { OnOk result (text.new ≡ text.old ++ (codes "close" ++ (field (decimal command) ++ (field (flag_text done) ++ (field (names_text names.now) ++ field (cause_text cause.now)))))) }
{
    text.push_slice(b"close")?;
    put_number(text, u64::from(command))?;
    put_flag(text, done)?;
    put_names(text, names.as_slice())?;
    put_cause(text, cause)
}

fn put_shut(
    text: &mut Bytes,
    command: u32,
    opened: &At,
    acted: bool,
    gone: &Option<At>,
) -> Result<(), Memory>
    ensures { OnOk result (text.new ≡ text.old ++ (codes "shut" ++ (field (decimal command) ++ (field (at_text opened.now) ++ (field (flag_text acted) ++ field (cause_text gone.now)))))) }
{
    text.push_slice(b"shut")?;
    put_number(text, u64::from(command))?;
    put_at(text, opened)?;
    put_flag(text, acted)?;
    put_cause(text, gone)
}

fn put_spoil(text: &mut Bytes, command: u32, diff: &At, loss: &At, shut: &At) -> Result<(), Memory>
    ensures { OnOk result (text.new ≡ text.old ++ (codes "spoil" ++ (field (decimal command) ++ (field (at_text diff.now) ++ (field (at_text loss.now) ++ field (at_text shut.now)))))) }
{
    text.push_slice(b"spoil")?;
    put_number(text, u64::from(command))?;
    put_at(text, diff)?;
    put_at(text, loss)?;
    put_at(text, shut)
}

/// A call, and the commands whose blocks were discarded.
fn put_discarded(text: &mut Bytes, call: u32, commands: &Owners) -> Result<(), Memory>
    ensures { OnOk result (text.new ≡ text.old ++ (field (decimal call) ++ field (owners_text commands.now))) }
{
    put_number(text, u64::from(call))?;
    put_owners(text, commands.as_slice())
}

/// The name of an act of a command, and what all acts have.
fn push_act(text: &mut Bytes, name: &[u8], event: &Event) -> Result<(), Memory>
    ensures { OnOk result (IfSome (act_in event.now) (λ a.
        text.new ≡ text.old ++ (name.now ++ act_text a.command a.opened a.cdb a.row a.bytes))) }
{
    match event.act() {
        Some(act) => {
            text.push_slice(name)?;
            put_act(text, &act)
        }
        None => Ok(()),
    }
}

/// The name of an event, and two fields of numbers.
fn push_numbers(text: &mut Bytes, name: &[u8], first: u32, second: u32) -> Result<(), Memory>
    ensures { OnOk result (text.new ≡ text.old ++ (name.now ++ (field (decimal first) ++ field (decimal second)))) }
{
    text.push_slice(name)?;
    put_number(text, u64::from(first))?;
    put_number(text, u64::from(second))
}

/// The name of an event, and a number and a name.
fn push_named(text: &mut Bytes, name: &[u8], number: u32, at: &At) -> Result<(), Memory>
    ensures { OnOk result (text.new ≡ text.old ++ (name.now ++ (field (decimal number) ++ field (at_text at.now)))) }
{
    text.push_slice(name)?;
    put_number(text, u64::from(number))?;
    put_at(text, at)
}

/// The name of an event and its fields.
fn push_event(text: &mut Bytes, event: &Event) -> Result<(), Memory>
    ensures { OnOk result (text.new ≡ text.old ++ event_text event.now) }
{
    match event {
        Event::Fetch { .. } => push_act(text, b"fetch", event),
        Event::Put { names, .. } => {
            push_act(text, b"put", event)?;
            put_names(text, names.as_slice())
        }
        Event::Diff {
            sent,
            dropped,
            back,
            ..
        } => {
            push_act(text, b"diff", event)?;
            put_flag(text, *sent)?;
            put_flag(text, *dropped)?;
            put_flag(text, *back)
        }
        Event::Take { .. } => push_act(text, b"take", event),
        Event::Fold { names, .. } => {
            push_act(text, b"fold", event)?;
            put_names(text, names.as_slice())
        }
        Event::Hold {
            kept,
            names,
            back,
            ..
        } => {
            push_act(text, b"hold", event)?;
            put_flag(text, *kept)?;
            put_names(text, names.as_slice())?;
            put_flag(text, *back)
        }
        Event::Shut {
            command,
            opened,
            acted,
            gone,
        } => put_shut(text, *command, opened, *acted, gone),
        Event::Gone {
            life,
            call,
            commands,
        } => {
            text.push_slice(b"gone")?;
            put_number(text, u64::from(*life))?;
            put_discarded(text, *call, commands)
        }
        Event::Wiped {
            what,
            call,
            commands,
        } => {
            text.push_slice(b"wiped")?;
            put_what(text, *what)?;
            put_discarded(text, *call, commands)
        }
        Event::Fresh { call, swap } => push_named(text, b"fresh", *call, swap),
        Event::Open { command, task } => put_open(text, *command, task),
        Event::Close {
            command,
            done,
            names,
            cause,
            bytes,
        } => {
            put_close(text, *command, *done, names, cause)?;
            put_bytes(text, bytes.as_slice())
        }
        Event::Spoil {
            command,
            diff,
            loss,
            shut,
        } => put_spoil(text, *command, diff, loss, shut),
        Event::Note { slot, gone } => push_named(text, b"note", u32::from(*slot), gone),
        Event::Swap { slot, call } => push_numbers(text, b"swap", u32::from(*slot), *call),
        Event::Refuse { call, piece, why } => {
            push_numbers(text, b"refuse", *call, *piece)?;
            put_why(text, why)
        }
    }
}

fn push_entry(text: &mut Bytes, entry: &Entry) -> Result<(), Memory>
    ensures { OnOk result (text.new ≡ text.old ++ entry_line entry.now) }
{
    push_number(text, entry.stamp)?;
    put_number(text, u64::from(entry.lock))?;
    text.push(b' ')?;
    push_event(text, &entry.event)?;
    text.push(b'\n')
}

/// The trace of a journal: a line for each entry, its stamp, its lock, the name of its event and its
/// fields in their order, parted by spaces.
pub fn trace(alloc: Global, journal: &Journal) -> Result<Bytes, Memory>
    ensures { IfOk result (λ text. text ≡ trace_of journal.now) }
{
    let mut text = Bytes::new(alloc);
    for entry in journal.as_slice() {
        push_entry(&mut text, entry)?;
    }
    Ok(text)
}
