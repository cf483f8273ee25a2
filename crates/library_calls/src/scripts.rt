//! A script of version 2, read and printed.

use blocks_core::{Bytes, Memory};
use host_scripts::{parse, print};
use std::alloc::Global;

/// Two areas, a line of the first turns, and a call of each of two hosts.
const AREAS: &[u8] =
    b"xorscript 2\ntargets 32\nblock 1\nareas 2\narea 1 2\narea 3 1\nbuffer 3\nmaxima 0 3 0\nmode readback\nseed 7\nhosts 2\norder BA\nA fill 1 2 0a\nB resync\n";

pub fn push_scripts(alloc: Global, text: &mut Bytes) -> Result<(), Memory> {
    match parse(alloc, AREAS) {
        Ok(script) => text.push_slice(print(alloc, &script)?.as_slice()),
        Err(_) => text.push_slice(b"no script\n"),
    }
}
