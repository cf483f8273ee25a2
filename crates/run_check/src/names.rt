//! Entries that an entry names.

ghost use Rattle.std.specs.Prelude.{◌≡◌, ◌<◌, ◌&&◌, None};
ghost use Rattle.std.specs.Option.{option_copied};
ghost use Rattle.array_journal.specs.Entries.{at_lt, entry_at, same_at};
ghost use Rattle.array_journal.specs.May.{passes, bytes_named};
ghost use Rattle.run_check.specs.NameTests.{open_task, opened_task, names, comes_after, rise_after};
ghost use Rattle.run_check.specs.Questions.{test_of};

use crate::context::Context;
use crate::questions::{Question, answer};
use array_journal::{At, Event, Task};
use journal_index::Past;

/// Whether the entry of a name answers yes.
pub fn passes(past: &Past, name: At, question: Question) -> bool
    ensures { result ≡ passes (test_of question) (entry_at name past.now) }
{
    match past.entry_at(name) {
        Some(event) => answer(question, event),
        None => false,
    }
}

/// Whether an entry of a name stands with a smaller stamp, and answers yes.
pub fn names(context: &Context, name: At, question: Question) -> bool
    ensures { result ≡ names context.now.past.now context.now.stamp name (test_of question) }
{
    passes(context.past, name, question) && name.stamp < context.stamp
}

/// The task of a command that is open.
pub fn open_task<'a>(past: &Past<'a>, command: u32) -> Option<&'a Task>
    ensures { option_copied result ≡ open_task past.now command }
{
    if past.is_open(command) {
        past.task_of(command)
    } else {
        None
    }
}

/// The task of the command that an entry of the book opens, which is named and has a smaller stamp.
pub fn opened_task<'a>(context: &Context<'a>, wanted: u32, opened: At) -> Option<&'a Task>
    ensures { option_copied result ≡ opened_task context.now.past.now context.now.stamp wanted opened }
{
    match context.past.entry_at(opened) {
        Some(Event::Open { command, task })
            if *command == wanted && opened.lock == 0 && opened.stamp < context.stamp => {
            Some(task)
        }
        _ => None,
    }
}

/// What the entry of a name read or took.
pub fn bytes_named<'a>(past: &Past<'a>, name: At) -> &'a [u8]
    ensures { result.now ≡ bytes_named past.now name }
{
    match past.entry_at(name) {
        Some(Event::Fetch { bytes, .. } | Event::Take { bytes, .. }) => bytes.as_slice(),
        _ => &[],
    }
}

/// Whether stamp and lock are the same: `==` of names, with a clause in the words of the definition's test.
pub fn is_same_name(a: At, b: At) -> bool
    ensures { result ≡ same_at a b }
{
    a.stamp == b.stamp && a.lock == b.lock
}

/// The order of a journal.
fn comes_before(a: At, b: At) -> bool
    ensures { result ≡ at_lt a b }
{
    a.stamp < b.stamp || (a.stamp == b.stamp && a.lock < b.lock)
}

/// Whether a name comes after another, where there is one.
fn comes_after(last: Option<At>, name: At) -> bool
    ensures { result ≡ comes_after last name }
{
    match last {
        Some(last) => comes_before(last, name),
        None => true,
    }
}

/// Whether each name comes before the next one in the order of a journal.
pub fn do_names_rise(names: &[At]) -> bool
    ensures { result ≡ rise_after None names.now }
{
    let mut last = None;
    for name in names {
        if !comes_after(last, *name) {
            return false;
        }
        last = Some(*name);
    }
    true
}
