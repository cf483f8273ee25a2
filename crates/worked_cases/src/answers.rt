//! What calls answer.

ghost use Rattle.std.specs.Prelude.{◌≡◌, [], IfOk};
ghost use Rattle.worked_cases.specs.Answers.{IsToolAnswer, IsCheckAnswer, IsServeAnswer};
ghost use Rattle.worked_cases.specs.Runs.{Answers};
ghost use Rattle.program_status.specs.Words.{texts};

use crate::calls::{Outlet, Program, TopCall};
use crate::piece_source::PieceSource;
use blocks_core::{Bytes, Memory};
use outer_io::{FailingSink, FailingSource};
use std::alloc::Global;
use target_service::serve;
use trace_check::check;
use xor_cli::tool;

/// What a top call answers: the status, and what it wrote.
#[derive(Drop)]
pub struct TopAnswer {
    pub status: u8,
    pub out: Bytes,
    pub notes: Bytes,
}

/// A sink that nothing was written to.
fn sink_of(alloc: Global, outlet: Outlet) -> Result<FailingSink, Memory>
    ensures { IfOk result (λ made. made.sink.bytes ≡ []) }
{
    let Outlet { room, fails } = outlet;
    FailingSink::new(alloc, room, fails)
}

/// A source of these bytes, of which these calls fail, and that gives so many bytes at a time.
fn source_of(input: Bytes, fails: Vec<u64>, piece: usize) -> PieceSource<FailingSource>
    ensures { result.source.unread ≡ input }
{
    PieceSource::new(FailingSource::new(input.into_vec(), fails), piece)
}

/// The answer of a call with this status.
fn answer_of(
    alloc: Global,
    status: u8,
    out: &FailingSink,
    notes: &FailingSink,
) -> Result<TopAnswer, Memory>
    ensures status { IfOk result (λ answer. answer.status ≡ status) }
    ensures out { IfOk result (λ answer. answer.out ≡ out.now.sink.bytes) }
    ensures notes { IfOk result (λ answer. answer.notes ≡ notes.now.sink.bytes) }
{
    Ok(TopAnswer {
        status,
        out: Bytes::from_slice(alloc, out.bytes())?,
        notes: Bytes::from_slice(alloc, notes.bytes())?,
    })
}

/// What `tool` answers.
fn tool_answer(alloc: Global, call: TopCall) -> Result<TopAnswer, Memory>
    ensures { IfOk result (IsToolAnswer (texts call.words.items) call.input) }
{
    let TopCall {
        words,
        input,
        source_fails,
        piece,
        out,
        notes,
        ..
    } = call;
    let mut source = source_of(input, source_fails, piece);
    let mut out = sink_of(alloc, out)?;
    let mut notes = sink_of(alloc, notes)?;
    let outcome = tool(alloc, words.as_slice(), &mut source, &mut out, &mut notes);
    answer_of(alloc, outcome.status, &out, &notes)
}

/// What `check` answers.
fn check_answer(alloc: Global, call: TopCall) -> Result<TopAnswer, Memory>
    ensures { IfOk result (IsCheckAnswer (texts call.words.items) call.input) }
{
    let TopCall {
        words,
        input,
        source_fails,
        piece,
        out,
        notes,
        ..
    } = call;
    let mut source = source_of(input, source_fails, piece);
    let mut out = sink_of(alloc, out)?;
    let mut notes = sink_of(alloc, notes)?;
    let status = check(alloc, words.as_slice(), &mut source, &mut out, &mut notes);
    answer_of(alloc, status, &out, &notes)
}

/// What `serve` answers.
fn serve_answer(alloc: Global, call: TopCall) -> Result<TopAnswer, Memory>
    ensures { IfOk result (IsServeAnswer (texts call.words.items) call.input) }
{
    let TopCall {
        words,
        input,
        source_fails,
        piece,
        out,
        notes,
        ..
    } = call;
    let mut source = source_of(input, source_fails, piece);
    let mut out = sink_of(alloc, out)?;
    let mut notes = sink_of(alloc, notes)?;
    let status = serve(alloc, words.as_slice(), &mut source, &mut out, &mut notes);
    answer_of(alloc, status, &out, &notes)
}

/// What a call answers.
pub fn answer_to(alloc: Global, call: TopCall) -> Result<TopAnswer, Memory>
    ensures { IfOk result (Answers call) }
{
    match call.program {
        Program::Array => tool_answer(alloc, call),
        Program::Checker => check_answer(alloc, call),
        Program::Target => serve_answer(alloc, call),
    }
}
