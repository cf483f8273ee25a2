//! The array's command line: words after the program's name, a script on standard input, the report
//! on standard output, and one line on standard error where there is no report.
#![tactic(auto)]

use outer_io::{ReaderSource, WriterSink};
use program_status::{Status, words_after_name};
use std::process::ExitCode;
use xor_cli::tool;

fn main(rt: HostRuntime) -> ExitCode {
    let Ok(words) = words_after_name(&rt) else {
        // Where even this can't be written, the status still tells it.
        let _ = rt.eprintln("no memory");
        return ExitCode::from(Status::NoMemory.code());
    };
    let outcome = tool(
        rt.alloc(),
        words.as_slice(),
        &mut ReaderSource::new(rt.stdin()),
        &mut WriterSink::new(rt.stdout()),
        &mut WriterSink::new(rt.stderr()),
    );
    ExitCode::from(outcome.status)
}
