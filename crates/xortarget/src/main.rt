//! Targets behind a stream: the word `serve` after the program's name, an opening and frames on standard
//! input, a reply to each frame on standard output, and one line on standard error where the stream
//! isn't served to its end.
#![tactic(auto)]

use outer_io::{ReaderSource, WriterSink};
use program_status::{Status, words_after_name};
use std::process::ExitCode;
use target_service::serve;

fn main(rt: HostRuntime) -> ExitCode {
    let Ok(words) = words_after_name(&rt) else {
        // Where even this can't be written, the status still tells it.
        let _ = rt.eprintln("no memory");
        return ExitCode::from(Status::NoMemory.code());
    };
    let status = serve(
        rt.alloc(),
        words.as_slice(),
        &mut ReaderSource::new(rt.stdin()),
        &mut WriterSink::new(rt.stdout()),
        &mut WriterSink::new(rt.stderr()),
    );
    ExitCode::from(status)
}
