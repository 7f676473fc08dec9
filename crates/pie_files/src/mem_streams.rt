//! An input and an output in memory.
ghost use Rattle.std.specs.Prelude.{◌≡◌, ◌≤◌, [], OnOk, OnErr, vec_len};

use crate::failures::Failures;
use crate::{Sink, SinkError, Source, SourceError};
use pie_base::OutOfMemory;
use std::alloc::Global;

/// An input in memory.
#[derive(Drop)]
pub struct MemSource {
    bytes: Vec<u8>,
    at: usize,
    failures: Failures,
    ghost inside: { at ≤ vec_len bytes },
}

impl MemSource {
    ghost use Rattle.pie_files.specs.inner.MemStreams.{left_in, source_faults, InfallibleSource};

    /// An input of these bytes, no call of which is to fail.
    pub fn new(alloc: Global, bytes: Vec<u8>) -> MemSource
        ensures left { left_in result ≡ bytes.items }
        ensures faults { source_faults result ≡ 0 }
        ensures infallible { InfallibleSource result }
    {
        MemSource {
            bytes,
            at: 0,
            failures: Failures::new(alloc),
        }
    }

    /// From now on the calls with these numbers fail, counted from 1 since `new`.
    pub fn fail_at(&mut self, alloc: Global, calls: &[u64]) -> Result<(), OutOfMemory>
        ensures left { left_in self.new ≡ left_in self.old }
        ensures faults { source_faults self.new ≡ source_faults self.old }
    {
        self.failures.fail_at(alloc, calls)
    }
}

impl Source for MemSource {
    ghost use Rattle.std.specs.Prelude.{Some};
    ghost use Rattle.pie_files.specs.inner.MemStreams.{left_in, source_faults, InfallibleSource};

    ghost left = { λ s. Some (left_in s) };

    ghost faults = { source_faults };

    ghost infallible = { InfallibleSource };

    fn take(&mut self, into: &mut [u8]) -> Result<usize, SourceError> {
        if self.failures.next_fails() {
            return Err(SourceError::Failed);
        }
        let n = into.len().min(self.bytes.len() - self.at);
        into[..n].copy_from_slice(&self.bytes[self.at..self.at + n]);
        self.at += n;
        Ok(n)
    }
}

/// An output in memory.
#[derive(Drop)]
pub struct MemSink {
    bytes: Vec<u8>,
    failures: Failures,
}

impl MemSink {
    ghost use Rattle.pie_files.specs.inner.MemStreams.{held_at, sink_faults, InfallibleSink};

    /// An empty output, no call of which is to fail.
    pub fn new(alloc: Global) -> MemSink
        ensures empty { held_at result ≡ [] }
        ensures faults { sink_faults result ≡ 0 }
        ensures infallible { InfallibleSink result }
    {
        MemSink {
            bytes: Vec::new(alloc),
            failures: Failures::new(alloc),
        }
    }

    /// From now on the calls with these numbers fail, counted from 1 since `new`.
    pub fn fail_at(&mut self, alloc: Global, calls: &[u64]) -> Result<(), OutOfMemory>
        ensures held { held_at self.new ≡ held_at self.old }
        ensures faults { sink_faults self.new ≡ sink_faults self.old }
    {
        self.failures.fail_at(alloc, calls)
    }

    /// The bytes so far.
    pub fn bytes(&self) -> &[u8]
        ensures { result.now ≡ held_at self.now }
    {
        self.bytes.as_slice()
    }
}

impl Sink for MemSink {
    ghost use Rattle.std.specs.Prelude.{Some};
    ghost use Rattle.pie_files.specs.inner.MemStreams.{held_at, sink_faults, InfallibleSink};

    ghost held = { λ s. Some (held_at s) };

    ghost faults = { sink_faults };

    ghost infallible = { InfallibleSink };

    fn put(&mut self, piece: &[u8]) -> Result<usize, SinkError> {
        if self.failures.next_fails() {
            return Err(SinkError::Failed);
        }
        self.bytes.extend_from_slice(piece)?;
        Ok(piece.len())
    }
}
