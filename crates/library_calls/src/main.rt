//! Calls of the libraries that no other program makes, with ample memory: standard input has a script, a line
//! `trace` and a trace. Standard output gets the script as it is printed; the trace's entries, copied lock by
//! lock, merged and printed; the exclusive-or of each stripe over all targets after each entry; and the
//! summary.
#![tactic(auto)]

mod blocks;
mod buffers;
mod calls;
mod journals;
mod outside;
mod pages;
mod requests;
mod scripts;
mod state;
mod streams;
mod tables;

use calls::{Answer, answer_to};
use program_status::{Status, Verdict};
use std::io::{Read, Write};
use std::process::ExitCode;

fn main(rt: HostRuntime) -> ExitCode {
    let mut input = Vec::new(rt.alloc());
    if rt.stdin().read_to_end(&mut input).is_err() {
        return ExitCode::from(Status::ReadFault.code());
    }
    match answer_to(rt.alloc(), input.as_slice()) {
        Ok(Answer::Text(text)) => match rt.stdout().write_all(text.as_slice()) {
            Ok(()) => ExitCode::SUCCESS,
            Err(_) => ExitCode::from(Status::WriteFault.code()),
        },
        Ok(Answer::NoInput) => ExitCode::from(Verdict::Refused.code()),
        Err(_) => ExitCode::from(Status::NoMemory.code()),
    }
}
