// A source and a sink in memory, each with the numbers of the calls that are to fail.
ghost use Rattle.std.specs.Prelude.{◌≡◌, Some, IfOk, []};

use crate::calls::Calls;
use crate::{Failed, Sink, Source};
use jr_base::OutOfMemory;
use std::alloc::Global;
use std::io::{Cursor, Read};

/// The most bytes that a sink in memory takes: 64 MiB.
const MOST_BYTES: usize = 67_108_864;

/// A source of bytes in memory.
#[derive(Drop)]
pub struct MemSource {
    reader: Cursor<Vec<u8>>,
    calls: Calls,
}

impl MemSource {
    ghost use Rattle.jr_store.specs.MemoryStreams.{IsNewSource};

    /// A source of these bytes. Of its reads, which are numbered from 1, those with the failing numbers fail.
    pub fn new(bytes: Vec<u8>, failing: Vec<u64>) -> MemSource
        ensures { IsNewSource result bytes.items failing.items }
    {
        MemSource {
            reader: Cursor::new(bytes),
            calls: Calls::new(failing),
        }
    }
}

impl Source for MemSource {
    ghost use Rattle.jr_store.specs.MemoryStreams.{source_left};

    ghost left = { source_left };

    ghost faults = { λ s. s.calls.faults };

    fn read(&mut self, buf: &mut [u8]) -> Result<usize, Failed> {
        self.calls.next()?;
        match self.reader.read(buf) {
            Ok(count) => Ok(count),
            Err(_) => Err(self.calls.fault()),
        }
    }
}

/// A sink of bytes in memory.
#[derive(Drop)]
pub struct MemSink {
    bytes: Vec<u8>,
    calls: Calls,
}

impl MemSink {
    ghost use Rattle.jr_store.specs.MemoryStreams.{IsNewSink, sink_bytes};

    /// A sink to which nothing was written. Of its writes, which are numbered from 1, those with the failing numbers
    /// fail, and so does one past 64 MiB, which are taken here.
    pub fn new(alloc: Global, failing: Vec<u64>) -> Result<MemSink, OutOfMemory>
        ensures { IfOk result (λ sink. IsNewSink sink failing.items) }
    {
        Ok(MemSink {
            bytes: Vec::with_capacity(alloc, MOST_BYTES)?,
            calls: Calls::new(failing),
        })
    }

    /// The bytes that were written.
    pub fn bytes(&self) -> &[u8]
        ensures { result.now ≡ sink_bytes self.now }
    {
        &self.bytes
    }
}

impl Sink for MemSink {
    ghost use Rattle.jr_store.specs.MemoryStreams.{sink_bytes};

    ghost contents = { λ s. Some (sink_bytes s) };

    ghost faults = { λ s. s.calls.faults };

    fn write(&mut self, bytes: &[u8]) -> Result<(), Failed> {
        self.calls.next()?;
        if bytes.len() > MOST_BYTES - self.bytes.len().min(MOST_BYTES) {
            return Err(self.calls.fault());
        }
        match self.bytes.extend_from_slice(bytes) {
            Ok(()) => Ok(()),
            Err(_) => Err(self.calls.fault()),
        }
    }
}
