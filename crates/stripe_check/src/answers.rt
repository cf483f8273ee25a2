//! What each call was told, and why it failed.

ghost use Rattle.std.specs.Prelude.{◌≡◌, ◌==◌, ◌+◌, ◌≤◌, ◌<◌, ℕ, [], ◌∷◌, ◌++◌, List, length, get_or, OnOk, Some, None, if◌then◌else◌};
ghost use Rattle.stripe_layout.specs.declared.geometry.Geometry.{Geometry};
ghost use Rattle.array_journal.specs.declared.entry.Entry.{Entry};
ghost use Rattle.array_journal.specs.Host.{is_read, is_degraded_read};
ghost use Rattle.stripe_check.specs.Folds.{AreCommands, AreReads, AreFailures, told_if};

use crate::call_places::place_of_call;
use crate::command_summary::{Brief, CommandSummary};
use crate::commands::command_at;
use crate::failure::Failure;
use array_journal::{Entry, Event, Kind};
use blocks_core::{Bytes, Memory};

/// Bytes that a call was told, behind those before.
fn add_read(reads: &mut Vec<Bytes>, call: u32, bytes: &[u8]) -> Result<(), Memory>
    ensures count { OnOk result (length reads.new.items ≡ length reads.old.items) }
    ensures each { OnOk result ((n : ℕ) → n < length reads.old.items → get_or reads.new.items n [] ≡ get_or reads.old.items n [] ++ (if call == n + 1 then bytes.now else [])) }
{
    match place_of_call(call, reads.len()) {
        Some(place) => reads[place].push_slice(bytes),
        None => Ok(()),
    }
}

/// Blocks that a command fetched: a read tells them its call.
fn add_fetched(reads: &mut Vec<Bytes>, command: CommandSummary, bytes: &[u8]) -> Result<(), Memory>
    ensures count { OnOk result (length reads.new.items ≡ length reads.old.items) }
    ensures each { OnOk result ((n : ℕ) → n < length reads.old.items → get_or reads.new.items n [] ≡ get_or reads.old.items n [] ++ told_if is_read (n + 1) command.brief bytes.now) }
{
    match command.brief {
        Some(
            Brief {
                kind: Kind::Read,
                call,
                ..
            },
        ) => add_read(reads, call, bytes),
        _ => Ok(()),
    }
}

/// Blocks with which a command was closed: a degraded read tells them its call.
fn add_closed(reads: &mut Vec<Bytes>, command: CommandSummary, bytes: &[u8]) -> Result<(), Memory>
    ensures count { OnOk result (length reads.new.items ≡ length reads.old.items) }
    ensures each { OnOk result ((n : ℕ) → n < length reads.old.items → get_or reads.new.items n [] ≡ get_or reads.old.items n [] ++ told_if is_degraded_read (n + 1) command.brief bytes.now) }
{
    match command.brief {
        Some(
            Brief {
                kind: Kind::DegradedRead,
                call,
                ..
            },
        ) => add_read(reads, call, bytes),
        _ => Ok(()),
    }
}

/// What an entry told calls.
pub fn keep_read(
    reads: &mut Vec<Bytes>,
    commands: &[CommandSummary],
    entry: &Entry,
) -> Result<(), Memory>
    ensures count { OnOk result (length reads.new.items ≡ length reads.old.items) }
    ensures told { OnOk result ((g : Geometry) (past : List Entry) → AreCommands past commands.now → AreReads g past reads.old.items → AreReads g (entry.now ∷ past) reads.new.items) }
{
    match &entry.event {
        Event::Fetch { command, bytes, .. } => {
            add_fetched(reads, command_at(commands, *command), bytes.as_slice())
        }
        Event::Close {
            command,
            done,
            bytes,
            ..
        } => {
            if *done {
                add_closed(reads, command_at(commands, *command), bytes.as_slice())
            } else {
                Ok(())
            }
        }
        _ => Ok(()),
    }
}

/// Notes why a call failed.
fn set_failure(failures: &mut [Option<Failure>], call: u32, failure: Failure)
    ensures { (n : ℕ) → n < length failures.old → get_or failures.new n None ≡ (if call == n + 1 then Some failure else get_or failures.old n None) }
{
    if let Some(place) = place_of_call(call, failures.len()) {
        failures[place] = Some(failure);
    }
}

/// Why an entry makes calls fail.
pub fn keep_failure(failures: &mut [Option<Failure>], commands: &[CommandSummary], entry: &Entry)
    ensures { (past : List Entry) → AreCommands past commands.now → AreFailures past failures.old → AreFailures (entry.now ∷ past) failures.new }
{
    match &entry.event {
        Event::Refuse { call, why, .. } => {
            set_failure(failures, *call, Failure::Refused { why: *why });
        }
        Event::Spoil { command, .. } => {
            if let Some(brief) = command_at(commands, *command).brief {
                set_failure(failures, brief.call, Failure::Spoilt);
            }
        }
        _ => {}
    }
}
