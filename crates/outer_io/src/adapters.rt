ghost use Rattle.std.specs.Prelude.{◌≡◌, ◌≤◌, ◌<◌, length, IfOk, MatchResult};
ghost use Rattle.std.specs.Io.KnownBytes.{ReadConsumes, WriteAppends};
ghost use Rattle.outer_io.specs.Outside.{raised};

use crate::traits::{Failed, Sink, Source};
use std::io::{Read, Write};
use std::marker::Model;

/// A reader of std as a source. It tells the bytes left where the reader does.
#[derive(Drop)]
pub struct ReaderSource<R: Read> {
    reader: R,
    failures: u64,
}

impl<R: Read> Model for ReaderSource<R> {
    ghost use Rattle.outer_io.specs.Outside.{Reading};

    ghost Value = { Reading };

    ghost view = { λ s. record { remaining = R.remaining s.reader; faults = s.failures } };
}

impl<R: Read> ReaderSource<R> {
    pub fn new(reader: R) -> ReaderSource<R>
        ensures { result ≡ record { remaining = R.remaining reader; faults = 0 } }
    {
        ReaderSource {
            reader,
            failures: 0,
        }
    }
}

impl<R: Read> Source for ReaderSource<R> {
    ghost faults = { λ s. s.faults };

    ghost left = { λ s. s.remaining };

    fn read(&mut self, into: &mut [u8]) -> Result<usize, Failed>
        // An error of the reader is counted, and nothing else.
        ensures counts { MatchResult result (λ _. self.new.faults ≡ self.old.faults) (λ _. self.new.faults ≡ raised self.old.faults) }
        ensures never_falls { self.old.faults ≤ self.new.faults }

        // The bytes go as the reader's do: at an error those that it tells stay.
        ensures fits { IfOk result (λ count. count ≤ length into.new) }
        ensures bytes { ReadConsumes self.old.remaining self.new.remaining result into.new }
    {
        match self.reader.read(into) {
            Ok(count) => Ok(count),
            Err(_) => {
                self.failures = self.failures.saturating_add(1);
                Err(Failed)
            }
        }
    }
}

/// A writer of std as a sink. It tells the bytes written where the writer does. That the writer
/// takes nothing is a fault.
#[derive(Drop)]
pub struct WriterSink<W: Write> {
    writer: W,
    failures: u64,
}

impl<W: Write> Model for WriterSink<W> {
    ghost use Rattle.outer_io.specs.Outside.{Writing};

    ghost Value = { Writing };

    ghost view = { λ s. record { contents = W.contents s.writer; faults = s.failures } };
}

impl<W: Write> WriterSink<W> {
    pub fn new(writer: W) -> WriterSink<W>
        ensures { result ≡ record { contents = W.contents writer; faults = 0 } }
    {
        WriterSink {
            writer,
            failures: 0,
        }
    }
}

impl<W: Write> Sink for WriterSink<W> {
    ghost faults = { λ s. s.faults };

    ghost written = { λ s. s.contents };

    fn write(&mut self, piece: &[u8]) -> Result<usize, Failed>
        // An error of the writer is counted, and that it takes nothing of a piece that isn't empty.
        ensures counts { MatchResult result (λ _. self.new.faults ≡ self.old.faults) (λ _. self.new.faults ≡ raised self.old.faults) }
        ensures never_falls { self.old.faults ≤ self.new.faults }
        ensures goes_on { IfOk result (λ count. 0 < length piece.now → 0 < count) }

        // The bytes go as the writer's do: at an error none is taken.
        ensures fits { IfOk result (λ count. count ≤ length piece.now) }
        ensures bytes { WriteAppends self.old.contents self.new.contents result piece.now }
    {
        match self.writer.write(piece) {
            Ok(count) if count > 0 || piece.is_empty() => Ok(count),
            _ => {
                self.failures = self.failures.saturating_add(1);
                Err(Failed)
            }
        }
    }
}
