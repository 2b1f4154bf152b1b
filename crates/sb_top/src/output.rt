//! The transcript goes to the sink.

ghost use Rattle.std.specs.Prelude.{◌≡◌, ◌≤◌, ℕ, take, OnOk, OnErr, IfErr, IsTrue};
ghost use Rattle.std.specs.Io.KnownBytes.{Appends};
ghost use Rattle.sb_show.specs.Transcript.{transcript};
ghost use Rattle.sb_outside.specs.Causes.{HasCause, Rose};
ghost use Rattle.sb_top.specs.Ends.{why_unwritten};
ghost use Rattle.sb_top.specs.Writing.{IsWritten};

use crate::ending::Why;
use sb_log::Step;
use sb_outside::{Failed, Sink};
use sb_show::show;
use std::alloc::Global;

/// The transcript was not written whole: how many steps were, and whether the sink failed. Else
/// memory was wanting.
#[derive(Clone, Copy)]
pub struct Unwritten {
    pub whole: usize,
    pub fault: bool,
}

impl Unwritten {
    pub fn why(self) -> Why
        ensures { result ≡ why_unwritten self.fault }
    {
        if self.fault {
            Why::WriteFault
        } else {
            Why::OutOfMemory
        }
    }
}

// Writes all the bytes.
fn write_all<K: Sink>(sink: &mut K, bytes: &[u8]) -> Result<(), Failed>
    ensures ok { OnOk result (Appends (K.written sink.old) (K.written sink.new) bytes.now) }
    ensures err { OnErr result ((n : ℕ) × Appends (K.written sink.old) (K.written sink.new) (take n bytes.now)) }
    ensures cause { HasCause (K.faults sink.old) (K.faults sink.new) result }
{
    let mut at = 0;
    while at < bytes.len() {
        match sink.write(&bytes[at..]) {
            Err(Failed) => return Err(Failed),
            Ok(count) => at += count,
        }
    }
    Ok(())
}

/// Writes the transcript of these steps.
pub fn write_steps<K: Sink>(alloc: Global, sink: &mut K, steps: &[Step]) -> Result<(), Unwritten>
    ensures ok { OnOk result (Appends (K.written sink.old) (K.written sink.new) (transcript steps.now)) }
    ensures err { IfErr result (λ e. IsWritten (K.written sink.old) (K.written sink.new) steps.now e.whole) }
    ensures fault { IfErr result (λ e. IsTrue e.fault → Rose (K.faults sink.old) (K.faults sink.new)) }
    ensures later { K.faults sink.old ≤ K.faults sink.new }
{
    let mut whole = 0;
    while whole < steps.len() {
        let text = match show(alloc, &steps[whole]) {
            Err(_) => {
                return Err(Unwritten {
                    whole,
                    fault: false,
                });
            }
            Ok(text) => text,
        };
        match write_all(sink, text.as_slice()) {
            Err(Failed) => return Err(Unwritten { whole, fault: true }),
            Ok(()) => {}
        }
        whole += 1;
    }
    Ok(())
}
