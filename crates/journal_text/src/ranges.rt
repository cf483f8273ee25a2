//! The numbers of a journal in memory are in the ranges of their types, so its trace is read again. No
//! function here does anything: that it reads a field, or goes through a list, tells the prover the range
//! of a type.

ghost use Rattle.std.specs.Prelude.{◌≡◌, ◌<◌, ◌^◌, IfSome, length};
ghost use Rattle.std.specs.List.{AllByRecursion};
ghost use Rattle.array_journal.specs.ActEvents.{act_in};
ghost use Rattle.array_journal.specs.Merge.{Rises};
ghost use Rattle.text_fields.specs.Spelling.{AreBytes};
ghost use Rattle.journal_text.specs.Readable.{AreOwners, AreNames, IsAt, IsCause, IsCdb, IsAct, IsAim, IsPlace, IsSense, IsWhy, IsEvent, IsEntry, IsTraced};
ghost use Rattle.journal_text.specs.Told.{IsToldWhy, IsToldSense, IsTold, IsToldEntry};

use array_journal::{ActView, At, Entry, Event, Journal, Task, Why};
use blocks_core::Bytes;
use sbc_cdbs::Cdb;
use sense_data::{Pointer, Sense};

fn slice_in_range(bytes: &[u8])
    ensures { AreBytes bytes.now }
{}

fn owners_in_range(owners: &[u32])
    ensures { AreOwners owners.now }
{}

fn bytes_in_range(bytes: &Bytes)
    ensures { AreBytes bytes.now }
{
    slice_in_range(bytes.as_slice());
}

fn block_is_whole(bytes: &[u8; 16])
    ensures { length bytes.now ≡ 16 }
{}

fn cdb_in_range(cdb: &Cdb)
    ensures { IsCdb cdb.now }
{
    block_is_whole(&cdb.bytes);
    slice_in_range(cdb.as_slice());
}

fn at_in_range(at: &At)
    ensures { IsAt at.now }
{
    let _stamp = at.stamp;
    let _lock = at.lock;
}

fn cause_in_range(cause: &Option<At>)
    ensures { IsCause cause.now }
{
    match cause {
        None => {}
        Some(at) => at_in_range(at),
    }
}

fn names_in_range(names: &[At])
    ensures { AreNames names.now }
{
    for name in names {
        at_in_range(name);
    }
}

fn aim_in_range(task: &Task)
    ensures { IsAim task.now }
{
    let _call = task.call;
    let _piece = task.piece;
    let _stripe = task.stripe;
}

fn place_in_range(task: &Task)
    ensures { IsPlace task.now }
{
    let _target = task.target;
    let _parity = task.parity;
    let _row = task.row;
    let _count = task.count;
    bytes_in_range(&task.bytes);
}

fn view_in_range(view: &ActView)
    ensures { IsAct view.now.command view.now.opened view.now.cdb.now view.now.row view.now.bytes.now }
{
    let _command = view.command;
    let _row = view.row;
    at_in_range(&view.opened);
    cdb_in_range(view.cdb);
    slice_in_range(view.bytes);
}

fn act_in_range(event: &Event)
    ensures { IfSome (act_in event.now) (λ a. IsAct a.command a.opened a.cdb a.row a.bytes) }
{
    if let Some(view) = event.act() {
        view_in_range(&view);
    }
}

fn pointer_in_range(pointer: &Pointer)
    ensures { pointer.now.byte < 2 ^ 16 }
{
    let _byte = pointer.byte;
}

fn sense_in_range(sense: &Sense)
    requires { IsToldSense sense.now }
    ensures { IsSense sense.now }
{
    let _asc = sense.asc;
    let _ascq = sense.ascq;
    match sense.pointer {
        None => {}
        Some(pointer) => pointer_in_range(&pointer),
    }
}

fn why_in_range(why: &Why)
    requires { IsToldWhy why.now }
    ensures { IsWhy why.now }
{
    match why {
        Why::Illegal { sense } => sense_in_range(sense),
        _ => {}
    }
}

fn event_in_range(event: &Event)
    requires { IsTold event.now }
    ensures { IsEvent event.now }
{
    match event {
        Event::Fetch { .. } | Event::Diff { .. } | Event::Take { .. } => act_in_range(event),
        Event::Put { names, .. } | Event::Fold { names, .. } | Event::Hold { names, .. } => {
            act_in_range(event);
            names_in_range(names.as_slice())
        }
        Event::Shut {
            command,
            opened,
            acted: _,
            gone,
        } => {
            let _command = *command;
            at_in_range(opened);
            cause_in_range(gone)
        }
        Event::Gone {
            life,
            call,
            commands,
        } => {
            let _life = *life;
            let _call = *call;
            owners_in_range(commands.as_slice())
        }
        Event::Wiped {
            what: _,
            call,
            commands,
        } => {
            let _call = *call;
            owners_in_range(commands.as_slice())
        }
        Event::Fresh { call, swap } => {
            let _call = *call;
            at_in_range(swap)
        }
        Event::Open { command, task } => {
            let _command = *command;
            aim_in_range(task);
            place_in_range(task)
        }
        Event::Close {
            command,
            done: _,
            names,
            cause,
            bytes,
        } => {
            let _command = *command;
            names_in_range(names.as_slice());
            cause_in_range(cause);
            bytes_in_range(bytes)
        }
        Event::Spoil {
            command,
            diff,
            loss,
            shut,
        } => {
            let _command = *command;
            at_in_range(diff);
            at_in_range(loss);
            at_in_range(shut)
        }
        Event::Note { slot, gone } => {
            let _slot = *slot;
            at_in_range(gone)
        }
        Event::Swap { slot, call } => {
            let _slot = *slot;
            let _call = *call;
        }
        Event::Refuse { call, piece, why } => {
            let _call = *call;
            let _piece = *piece;
            why_in_range(why)
        }
    }
}

fn entry_in_range(entry: &Entry)
    requires { IsToldEntry entry.now }
    ensures { IsEntry entry.now }
{
    let _stamp = entry.stamp;
    let _lock = entry.lock;
    event_in_range(&entry.event);
}

fn entries_in_range(entries: &[Entry])
    requires { AllByRecursion IsToldEntry entries.now }
    ensures { AllByRecursion IsEntry entries.now }
{
    for entry in entries {
        entry_in_range(entry);
    }
}

/// A journal in memory whose senses are told whole and whose names rise is the one that its trace spells.
/// Nothing is read here: that `read_trace` gives it for its trace follows by that function's clauses.
pub fn printed_is_read(journal: &Journal)
    requires told { AllByRecursion IsToldEntry journal.now }
    requires rises { Rises journal.now }
    ensures { IsTraced journal.now }
{
    entries_in_range(journal.as_slice());
}
