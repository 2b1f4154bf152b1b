//! Runs the commands of a script.

ghost use Rattle.std.specs.Prelude.{◌≡◌, ◌≤◌, None, drop, length};
ghost use Rattle.sb_laws.specs.Ready.{ready_log};
ghost use Rattle.sb_log.specs.declared.identifiers.Who.TheVariants.{A};
ghost use Rattle.sb_model.specs.Instance.{opened};
ghost use Rattle.sb_outside.specs.Causes.{Rose};
ghost use Rattle.sb_top.specs.Ends.{HasFilled, Ran, Wrote, status_of};
ghost use Rattle.sb_top.specs.Runs.{IsSound, IsStopping};

use crate::ending::{Ended, Why, end};
use crate::history::{History, Stopped};
use crate::output::write_steps;
use crate::perform::perform;
use sb_instance::Instance;
use sb_log::Step;
use sb_outside::Sink;
use sb_proc::Variables;
use sb_script::Command;
use std::alloc::Global;

// The steps from this place on.
fn steps_from(steps: &[Step], from: usize) -> &[Step]
    requires { from ≤ length steps.now }
    ensures { result.now ≡ drop from steps.now }
{
    &steps[from..]
}

// Why a run that stopped so ends.
fn why_stopped(stopped: Stopped, history: &History) -> Why
    ensures { IsStopping stopped history.now.steps result }
{
    match stopped {
        Stopped::OutOfMemory => Why::OutOfMemory,
        Stopped::HistoryFull => Why::HistoryFull {
            bytes: history.bytes(),
            steps: history.len() as u64,
        },
    }
}

/// Runs the commands, and writes the steps of each.
pub fn drive<K: Sink>(
    alloc: Global,
    commands: Vec<Command>,
    instance: Instance,
    sink: &mut K,
) -> Ended
    requires { instance ≡ opened A ready_log None }
    ensures sound { IsSound result.history.items }
    ensures ran { Ran result.why commands.items result.history.items }
    ensures text { Wrote result.why (K.written sink.old) (K.written sink.new) result.history.items result.written_steps }
    ensures filled { HasFilled result.why result.history.items }
    ensures fault { result.why ≡ Why.WriteFault → Rose (K.faults sink.old) (K.faults sink.new) }
    ensures status { result.status ≡ status_of result.why }
{
    let mut instance = instance;
    let mut history = History::new(alloc);
    let mut variables = Variables::new(alloc);
    for command in commands {
        let written = history.len();
        let done = perform(alloc, &mut instance, &mut history, variables, command);
        match write_steps(alloc, sink, steps_from(history.steps(), written)) {
            Ok(()) => {}
            Err(unwritten) => {
                return end(
                    unwritten.why(),
                    history.into_steps(),
                    written + unwritten.whole,
                );
            }
        }
        match done {
            Ok(after) => variables = after,
            Err(stopped) => return stop(why_stopped(stopped, &history), history),
        }
    }
    stop(Why::Fine, history)
}

// The end of a run whose transcript was written.
fn stop(why: Why, history: History) -> Ended
    ensures status { result.status ≡ status_of why }
    ensures why { result.why ≡ why }
    ensures history { result.history.items ≡ history.steps }
    ensures written { result.written_steps ≡ length history.steps }
{
    let whole = history.len();
    end(why, history.into_steps(), whole)
}
