//! A source and a sink in memory, which fail at the calls that are listed.

ghost use Rattle.std.specs.Prelude.{◌≡◌, ◌<◌, ◌≤◌, ◌↔◌, [], Some, IfOk, IsErr, IsTrue, length};
ghost use Rattle.std.specs.Io.KnownBytes.{ReadConsumes, WriteAppends};
ghost use Rattle.sb_outside.specs.Causes.{HasCause};

use crate::streams::{Failed, Sink, Source};
use std::alloc::Global;

/// Bytes in memory.
#[derive(Debug, Drop)]
pub struct MemSource {
    bytes: Vec<u8>,
    at: usize,
    fail: Vec<u64>,
    calls: u64,
    faults: u64,
    ghost within: { at ≤ length bytes.items },
}

impl MemSource {
    ghost use Rattle.sb_outside.specs.Memory.{source_calls, source_faults, source_left, source_listed};

    /// The calls with the numbers in `fail` will fail; calls are numbered from 1.
    pub fn new(bytes: Vec<u8>, fail: Vec<u64>) -> MemSource
        ensures left { source_left result ≡ bytes.items }
        ensures listed { source_listed result ≡ fail.items }
        ensures calls { source_calls result ≡ 0 }
        ensures faults { source_faults result ≡ 0 }
    {
        MemSource {
            bytes,
            at: 0,
            fail,
            calls: 0,
            faults: 0,
        }
    }
}

impl Source for MemSource {
    ghost use Rattle.std.specs.Prelude.{Some};
    ghost use Rattle.sb_outside.specs.Memory.{source_left, source_faults, source_fails_next};

    ghost left = { λ s. Some (source_left s) };

    ghost faults = { source_faults };

    fn read(&mut self, into: &mut [u8]) -> Result<usize, Failed>
        ensures bound { IfOk result (λ n. n ≤ length into.new) }
        ensures bytes { ReadConsumes (Some (source_left self.old)) (Some (source_left self.new)) result into.new }
        ensures cause { HasCause (source_faults self.old) (source_faults self.new) result }

        // Only a listed call fails.
        ensures listed { IsErr result ↔ IsTrue (source_fails_next self.old) }
    {
        self.calls = self.calls.saturating_add(1);
        if self.fail.contains(&self.calls) {
            self.faults = self.faults.saturating_add(1);
            return Err(Failed);
        }
        let rest = self.bytes.len() - self.at;
        let count = rest.min(into.len());
        into[..count].copy_from_slice(&self.bytes[self.at..self.at + count]);
        self.at += count;
        Ok(count)
    }
}

/// Bytes that were written, in memory.
#[derive(Debug, Drop)]
pub struct MemSink {
    bytes: Vec<u8>,
    fail: Vec<u64>,
    calls: u64,
    faults: u64,
}

impl MemSink {
    ghost use Rattle.sb_outside.specs.Memory.{sink_calls, sink_faults, sink_listed, sink_written};

    /// The calls with the numbers in `fail` will fail; calls are numbered from 1. A call that
    /// finds no memory fails too.
    pub fn new(alloc: Global, fail: Vec<u64>) -> MemSink
        ensures written { sink_written result ≡ [] }
        ensures listed { sink_listed result ≡ fail.items }
        ensures calls { sink_calls result ≡ 0 }
        ensures faults { sink_faults result ≡ 0 }
    {
        MemSink {
            bytes: Vec::new(alloc),
            fail,
            calls: 0,
            faults: 0,
        }
    }

    /// All that was written.
    pub fn as_slice(&self) -> &[u8]
        ensures { result.now ≡ sink_written self.now }
    {
        self.bytes.as_slice()
    }
}

impl Sink for MemSink {
    ghost use Rattle.std.specs.Prelude.{Some};
    ghost use Rattle.sb_outside.specs.Memory.{sink_written, sink_faults, sink_fails_next};

    ghost written = { λ s. Some (sink_written s) };

    ghost faults = { sink_faults };

    fn write(&mut self, bytes: &[u8]) -> Result<usize, Failed>
        ensures bound { IfOk result (λ n. n ≤ length bytes.now) }
        ensures some { IfOk result (λ n. 0 < length bytes.now → 0 < n) }
        ensures bytes { WriteAppends (Some (sink_written self.old)) (Some (sink_written self.new)) result bytes.now }
        ensures cause { HasCause (sink_faults self.old) (sink_faults self.new) result }

        // A listed call fails; want of memory may let others fail.
        ensures listed { IsTrue (sink_fails_next self.old) → IsErr result }
    {
        self.calls = self.calls.saturating_add(1);
        if self.fail.contains(&self.calls) || self.bytes.extend_from_slice(bytes).is_err() {
            self.faults = self.faults.saturating_add(1);
            return Err(Failed);
        }
        Ok(bytes.len())
    }
}
