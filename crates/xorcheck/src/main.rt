//! The checker's command line: the word `check` after the program's name, a script, a line `output` and
//! a printed run on standard input, what it is found to be on standard output, and one line on standard
//! error where it isn't accepted.
#![tactic(auto)]

use outer_io::{ReaderSource, WriterSink};
use program_status::{Status, words_after_name};
use std::process::ExitCode;
use trace_check::check;

fn main(rt: HostRuntime) -> ExitCode {
    let Ok(words) = words_after_name(&rt) else {
        // Where even this can't be written, the status still tells it.
        let _ = rt.eprintln("no memory");
        return ExitCode::from(Status::NoMemory.code());
    };
    let status = check(
        rt.alloc(),
        words.as_slice(),
        &mut ReaderSource::new(rt.stdin()),
        &mut WriterSink::new(rt.stdout()),
        &mut WriterSink::new(rt.stderr()),
    );
    ExitCode::from(status)
}
