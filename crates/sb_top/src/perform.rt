//! What a command of a script does.

ghost use Rattle.std.specs.Prelude.{◌≡◌, true, IsErrOf, option_map};
ghost use Rattle.sb_top.specs.Following as says;
ghost use Rattle.sb_top.specs.Room.{is_full};
ghost use Rattle.sb_top.specs.Runs.{GoesOn, IsPlain, Made, MadeWith, where_done, world_of};

use crate::clean::clean;
use crate::history::{History, Stopped};
use crate::refusals::refuse_unbuilt;
use crate::statements::{SESSION, run_batch};
use sb_instance::Instance;
use sb_log::{Actor, Session};
use sb_proc::Variables;
use sb_script::Command;
use std::alloc::Global;

/// Does a command, and gives the variables that it leaves. Where it stops, a step that was to
/// come isn't made, and left all as before.
pub fn perform(
    alloc: Global,
    instance: &mut Instance,
    history: &mut History,
    variables: Variables,
    command: Command,
) -> Result<Variables, Stopped>
    requires { IsPlain instance.old }
    ensures goes { GoesOn instance.old history.old.steps instance.new history.new.steps (MadeWith result (λ after steps. says.Does (world_of instance.old) variables command steps after)) }
    ensures full { IsErrOf result Stopped.HistoryFull → is_full history.new.steps ≡ true }
{
    match command {
        Command::Batch { text, block } => {
            run_batch(alloc, instance, history, variables, text, block)
        }
        Command::Clean => left(variables, clean(alloc, instance, history)),
        command => left(variables, pass(alloc, instance, history, &command)),
    }
}

// The variables as they were, where all was done.
fn left(variables: Variables, done: Result<(), Stopped>) -> Result<Variables, Stopped>
    ensures { result ≡ where_done done variables }
{
    match done {
        Ok(()) => Ok(variables),
        Err(stopped) => Err(stopped),
    }
}

// Refuses a command that isn't built. A connection to the only session has no effect.
fn pass(
    alloc: Global,
    instance: &mut Instance,
    history: &mut History,
    command: &Command,
) -> Result<(), Stopped>
    requires { IsPlain instance.old }
    ensures goes { GoesOn instance.old history.old.steps instance.new history.new.steps (Made result (says.Passes command.now)) }
    ensures full { IsErrOf result Stopped.HistoryFull → is_full history.new.steps ≡ true }
{
    match unbuilt(command) {
        None => Ok(()),
        Some(word) => refuse_unbuilt(alloc, instance, history, Actor::World, word),
    }
}

// The word of a command that isn't built.
fn unbuilt(command: &Command) -> Option<&'static str>
    ensures { option_map (λ word. word.now) result ≡ says.unbuilt command.now }
{
    match command {
        Command::Connect(session) => unless_first(*session),
        Command::Pump => Some("pump"),
        Command::Deliver(_) => Some("deliver"),
        Command::Lose(_) => Some("lose"),
        Command::Tick(_) => Some("tick"),
        Command::Clock(_) => Some("clock"),
        Command::Fuse(_) => Some("fuse"),
        Command::Crash(_) => Some("crash"),
        Command::Open => Some("open"),
        Command::Serve => Some("serve"),
        Command::Dump => Some("dump"),
        Command::Inject(_) => Some("inject"),
        Command::Batch { .. } | Command::Clean => None,
    }
}

// There is one session so far.
fn unless_first(session: Session) -> Option<&'static str>
    ensures { option_map (λ word. word.now) result ≡ says.unless_first session }
{
    if session == SESSION {
        None
    } else {
        Some("connect")
    }
}
