//! Calls of one host, served by the array over targets in memory. Standard input has a script whose calls are all of the first host,
//! and read, write or fill blocks or are CDBs. Standard output gets a line for each call, as a report tells it, and the trace of all
//! that happened.
#![tactic(auto)]

mod answers;
mod first_bus;
mod hosts_calls;
mod runs;

use program_status::{Status, Verdict};
use runs::{Answer, answer_to};
use std::io::{Read, Write};
use std::process::ExitCode;

fn main(rt: HostRuntime) -> ExitCode {
    let mut input = Vec::new(rt.alloc());
    if rt.stdin().read_to_end(&mut input).is_err() {
        return ExitCode::from(Status::ReadFault.code());
    }
    match answer_to(rt.alloc(), input.as_slice()) {
        Ok(Answer::Text(text)) => match rt.stdout().write_all(text.as_slice()) {
            Ok(()) => ExitCode::SUCCESS,
            Err(_) => ExitCode::from(Status::WriteFault.code()),
        },
        Ok(Answer::NoInput) => ExitCode::from(Verdict::Refused.code()),
        Err(_) => ExitCode::from(Status::NoMemory.code()),
    }
}
