//! Runs worked cases: standard input lists them, and what each call answers goes to standard output.
#![tactic(auto)]

mod answers;
mod calls;
mod edits;
mod faults;
mod lines;
mod lists;
mod piece_source;
mod telling;
mod texts;
mod top;

use outer_io::{ReaderSource, WriterSink};
use std::process::ExitCode;
use top::answer_list;

fn main(rt: HostRuntime) -> ExitCode {
    let status = answer_list(
        rt.alloc(),
        &mut ReaderSource::new(rt.stdin()),
        &mut WriterSink::new(rt.stdout()),
        &mut WriterSink::new(rt.stderr()),
    );
    ExitCode::from(status)
}
