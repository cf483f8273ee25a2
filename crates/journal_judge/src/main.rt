//! Judges journals: standard input has them one after another, each as a line `journal NAME`, a script that
//! sets the array up, a line `trace`, and the journal's trace. Each is answered by a line: its name, and
//! `run`, or `entry N` for the first entry that may not follow the ones before it.
#![tactic(auto)]

mod cases;

use cases::answers;
use program_status::Status;
use std::io::{Read, Write};
use std::process::ExitCode;

fn main(rt: HostRuntime) -> ExitCode {
    let mut input = Vec::new(rt.alloc());
    if rt.stdin().read_to_end(&mut input).is_err() {
        return ExitCode::from(Status::ReadFault.code());
    }
    let Ok(text) = answers(rt.alloc(), input.as_slice()) else {
        return ExitCode::from(Status::NoMemory.code());
    };
    match rt.stdout().write_all(text.as_slice()) {
        Ok(()) => ExitCode::SUCCESS,
        Err(_) => ExitCode::from(Status::WriteFault.code()),
    }
}
