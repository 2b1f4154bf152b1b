//! Standard input and output. They tell nothing of their bytes: what the system does with them
//! is trusted.

ghost use Rattle.std.specs.Prelude.{None};

use crate::streams::{Failed, Sink, Source};
use std::io;
use std::io::{Read, Write};

/// The standard input of a runtime.
#[derive(Drop)]
pub struct StdSource<R: Input + Drop> {
    rt: R,
    faults: u64,
}

impl<R: Input + Drop> StdSource<R> {
    pub fn new(rt: R) -> StdSource<R> {
        StdSource { rt, faults: 0 }
    }
}

impl<R: Input + Drop> Source for StdSource<R> {
    ghost left = { λ _. None };

    ghost faults = { λ s. s.faults };

    fn read(&mut self, into: &mut [u8]) -> Result<usize, Failed> {
        let mut reader = self.rt.reader();
        match reader.read(into) {
            Ok(count) => Ok(count),
            Err(_) => {
                self.faults = self.faults.saturating_add(1);
                Err(Failed)
            }
        }
    }
}

/// The standard output of a runtime. A call that takes nothing of a piece that isn't empty is
/// a failure.
#[derive(Drop)]
pub struct StdSink<R: Print + Drop> {
    rt: R,
    faults: u64,
}

impl<R: Print + Drop> StdSink<R> {
    pub fn new(rt: R) -> StdSink<R> {
        StdSink { rt, faults: 0 }
    }
}

impl<R: Print + Drop> Sink for StdSink<R> {
    ghost written = { λ _. None };

    ghost faults = { λ s. s.faults };

    fn write(&mut self, bytes: &[u8]) -> Result<usize, Failed> {
        let mut writer = io::writer(&self.rt);
        match writer.write(bytes) {
            Ok(count) if count > 0 || bytes.is_empty() => Ok(count),
            _ => {
                self.faults = self.faults.saturating_add(1);
                Err(Failed)
            }
        }
    }
}
