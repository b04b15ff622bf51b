// The source and the sink over any reader and writer of the standard library. They tell what these tell.
ghost use Rattle.std.specs.Prelude.{◌≡◌, ℕ, List, None};
ghost use Rattle.jr_store.specs.Streams.{WritesAll};

use crate::{Failed, Sink, Source};
use std::io::{Read, Write};

/// A source over a reader. Each error of the reader is a counted fault.
#[derive(Drop)]
pub struct StdSource<I> {
    reader: I,
    faults: u64,
}

impl<I: Read + Drop> StdSource<I> {
    pub fn new(reader: I) -> StdSource<I>
        ensures reader { result.reader ≡ reader }
        ensures faults { result.faults ≡ 0 }
    {
        StdSource { reader, faults: 0 }
    }
}

impl<I: Read + Drop> Source for StdSource<I> {
    ghost left = { λ s. I.remaining s.reader };

    ghost faults = { λ s. s.faults };

    fn read(&mut self, buf: &mut [u8]) -> Result<usize, Failed> {
        match self.reader.read(buf) {
            Ok(count) => Ok(count),
            Err(_) => {
                self.faults = self.faults.saturating_add(1);
                Err(Failed)
            }
        }
    }
}

/// A sink over a writer, which flushes after each write. Each error of the writer is a counted fault.
#[derive(Drop)]
pub struct StdSink<W> {
    writer: W,
    faults: u64,
}

impl<W: Write + Drop> StdSink<W> {
    pub fn new(writer: W) -> StdSink<W>
        ensures writer { result.writer ≡ writer }
        ensures faults { result.faults ≡ 0 }
    {
        StdSink { writer, faults: 0 }
    }
}

impl<W: Write + Drop> Sink for StdSink<W> {
    ghost contents = { λ s. None };

    ghost faults = { λ s. s.faults };

    fn write(&mut self, bytes: &[u8]) -> Result<(), Failed> {
        if self.writer.write_all(bytes).is_ok() && self.writer.flush().is_ok() {
            return Ok(());
        }
        self.faults = self.faults.saturating_add(1);
        Err(Failed)
    }
}
