//! Calls of the machines that no other program makes, with ample memory: a book of commands, and a target over a medium
//! that fails at named calls. Standard output gets a line for each few calls, with what they answer.
#![tactic(auto)]

mod book;
mod book_calls;
mod target_calls;
mod targets;

use blocks_core::{Bytes, Memory};
use program_status::Status;
use std::alloc::Global;
use std::io::Write;
use std::process::ExitCode;

/// Makes the calls, one machine after the other.
fn answers(alloc: Global) -> Result<Bytes, Memory> {
    let mut text = Bytes::new(alloc);
    book::push_book(alloc, &mut text)?;
    targets::push_target(alloc, &mut text)?;
    targets::push_set_aside(alloc, &mut text)?;
    Ok(text)
}

fn main(rt: HostRuntime) -> ExitCode {
    let Ok(text) = answers(rt.alloc()) else {
        return ExitCode::from(Status::NoMemory.code());
    };
    match rt.stdout().write_all(text.as_slice()) {
        Ok(()) => ExitCode::SUCCESS,
        Err(_) => ExitCode::from(Status::WriteFault.code()),
    }
}
