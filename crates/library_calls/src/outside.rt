//! `outer_io`: that adapters ask their streams, which no clause can say, and sinks in memory.

use blocks_core::{Bytes, Memory};
use outer_io::{Failed, FailingSink, MemorySink, ReaderSource, Sink, Source, WriterSink};
use std::alloc::Global;
use text_fields::{push_counted, push_hex};

pub fn push_outer_io(alloc: Global, text: &mut Bytes) -> Result<(), Memory> {
    push_reads(text)?;
    push_writes(alloc, text)?;
    push_sinks(alloc, text)
}

/// Three bytes that are read by two.
fn push_reads(text: &mut Bytes) -> Result<(), Memory> {
    let mut source = ReaderSource::new(b"abc".as_slice());
    let mut chunk = [0; 2];
    text.push_slice(b"reader")?;
    push_count(text, source.read(&mut chunk))?;
    text.push_slice(b" ")?;
    push_hex(text, &chunk)?;
    push_count(text, source.read(&mut chunk))?;
    push_count(text, source.read(&mut chunk))?;
    text.push_slice(b"\n")
}

/// Writes to a vector, and to a place without room.
fn push_writes(alloc: Global, text: &mut Bytes) -> Result<(), Memory> {
    let mut sink = WriterSink::new(Vec::new(alloc));
    text.push_slice(b"writer")?;
    push_count(text, sink.write(b"abc"))?;
    push_count(text, sink.write(b""))?;
    let mut full = WriterSink::new(std::io::Cursor::new([0u8; 0]));
    push_count(text, full.write(b"abc"))?;
    text.push_slice(b"\n")
}

/// Sinks with room for three bytes, of which one fails at its second call.
fn push_sinks(alloc: Global, text: &mut Bytes) -> Result<(), Memory> {
    let mut sink = MemorySink::new(alloc, 3)?;
    text.push_slice(b"sink")?;
    push_count(text, sink.write(b"ab"))?;
    push_count(text, sink.write(b"cd"))?;
    text.push_slice(b" ")?;
    push_hex(text, sink.bytes())?;
    let mut failing = FailingSink::new(alloc, 3, vec![in alloc; 2]?)?;
    text.push_slice(b"\nfailing sink")?;
    push_count(text, failing.write(b"ab"))?;
    push_count(text, failing.write(b"cd"))?;
    text.push_slice(b" ")?;
    push_hex(text, failing.bytes())?;
    text.push_slice(b"\n")
}

/// How many bytes went, or that the call failed.
fn push_count(text: &mut Bytes, count: Result<usize, Failed>) -> Result<(), Memory> {
    match count {
        Ok(count) => push_counted(text, b"", count as u64),
        Err(Failed) => text.push_slice(b" failed"),
    }
}
