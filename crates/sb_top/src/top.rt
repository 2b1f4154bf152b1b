//! The top call.

ghost use Rattle.std.specs.Prelude.{◌≡◌, ◌↔◌, false, map, string_bytes};
ghost use Rattle.sb_model.specs.Histories.{CommitsWhole, Legal};
ghost use Rattle.sb_outside.specs.Causes.{Rose};
ghost use Rattle.sb_top.specs.Ends.{Completes, Followed, HasBadScript, HasFilled, Wrote, is_steps, status_of};
ghost use Rattle.sb_top.specs.Room.{HasRoomThroughout};
ghost use Rattle.sb_top.specs.Following.{first};
ghost use Rattle.sb_top.specs.Laws.{DeliversThroughout, PicksThroughout};
ghost use Rattle.sb_top.specs.Runs.{IsSound};

use crate::drive::drive;
use crate::ending::{Ended, Why, end};
use crate::first;
use crate::input::{Unread, read_all};
use sb_outside::{Sink, Source};
use sb_script::{ScriptRefused, script};
use std::alloc::Global;

/// Reads a script from the source, runs it, and writes its transcript to the sink.
///
/// The words are those of the command line behind the program's name.
pub fn run<S: Source, K: Sink>(
    alloc: Global,
    words: &[String],
    source: &mut S,
    sink: &mut K,
) -> Ended
    ensures status { result.status ≡ status_of result.why }

    // The sink has the transcript of the history, or the part of it that has `written_steps` steps whole.
    ensures text { Wrote result.why (K.written sink.old) (K.written sink.new) result.history.items result.written_steps }

    // The history has the steps of the script's commands, each once and in order.
    ensures follows { Followed result.why (S.left source.old) (S.left source.new) result.history.items }

    // Each answer is the one that the definitions give.
    ensures legal { Legal first result.history.items }

    // After each step each side received what its partner sent: in order, each once, none skipped.
    ensures delivery { DeliversThroughout first result.history.items }

    // The operations of each transaction stand in one entry, whole.
    ensures whole { CommitsWhole first result.history.items }

    // A RECEIVE gives no row exactly where nothing is picked, and else takes the picked items.
    ensures picks { PicksThroughout first result.history.items }

    ensures usage { (result.why ≡ Why.Usage) ↔ (is_steps (map (λ w. string_bytes w) words.now) ≡ false) }
    ensures script { HasBadScript result.why (S.left source.old) (S.left source.new) }
    ensures filled { HasFilled result.why result.history.items }
    ensures read_fault { result.why ≡ Why.ReadFault → Rose (S.faults source.old) (S.faults source.new) }
    ensures write_fault { result.why ≡ Why.WriteFault → Rose (K.faults sink.old) (K.faults sink.new) }

    // Each step came while the history had room.
    ensures room { HasRoomThroughout result.history.items }

    // With the word, a script and no fault the whole script runs, unless memory is wanting or the history is full.
    ensures complete { Completes (is_steps (map (λ w. string_bytes w) words.now)) (S.left source.old) (Rose (S.faults source.old) (S.faults source.new)) (Rose (K.faults sink.old) (K.faults sink.new)) result.status }
{
    session(alloc, words, source, sink)
}

// The whole run. What follows from its other clauses is told by `run` alone.
fn session<S: Source, K: Sink>(
    alloc: Global,
    words: &[String],
    source: &mut S,
    sink: &mut K,
) -> Ended
    ensures status { result.status ≡ status_of result.why }
    ensures text { Wrote result.why (K.written sink.old) (K.written sink.new) result.history.items result.written_steps }
    ensures follows { Followed result.why (S.left source.old) (S.left source.new) result.history.items }
    ensures sound { IsSound result.history.items }
    ensures usage { (result.why ≡ Why.Usage) ↔ (is_steps (map (λ w. string_bytes w) words.now) ≡ false) }
    ensures script { HasBadScript result.why (S.left source.old) (S.left source.new) }
    ensures filled { HasFilled result.why result.history.items }
    ensures read_fault { result.why ≡ Why.ReadFault → Rose (S.faults source.old) (S.faults source.new) }
    ensures write_fault { result.why ≡ Why.WriteFault → Rose (K.faults sink.old) (K.faults sink.new) }
{
    if !are_steps(words) {
        return end(Why::Usage, Vec::new(alloc), 0);
    }
    let bytes = match read_all(alloc, source) {
        Err(Unread::Fault) => return end(Why::ReadFault, Vec::new(alloc), 0),
        Err(Unread::OutOfMemory) => return end(Why::OutOfMemory, Vec::new(alloc), 0),
        Ok(bytes) => bytes,
    };
    let commands = match script(alloc, bytes.as_slice()) {
        Err(ScriptRefused::BadLine { line, why }) => {
            return end(Why::Script { line, why }, Vec::new(alloc), 0);
        }
        Err(ScriptRefused::OutOfMemory) => return end(Why::OutOfMemory, Vec::new(alloc), 0),
        Ok(commands) => commands,
    };
    match first::instance(alloc) {
        Err(_) => end(Why::OutOfMemory, Vec::new(alloc), 0),
        Ok(instance) => drive(alloc, commands, instance, sink),
    }
}

// Whether the words are `steps` alone.
fn are_steps(words: &[String]) -> bool
    ensures { result ≡ is_steps (map (λ w. string_bytes w) words.now) }
{
    match words {
        [word] => word.as_str() == "steps",
        _ => false,
    }
}
