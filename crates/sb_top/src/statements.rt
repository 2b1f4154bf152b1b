//! The statements of a batch, each a step but for those that need no instance.

ghost use Rattle.std.specs.Prelude.{◌≡◌, ◌↔◌, ◌++◌, ◌∷◌, [], List, true, if◌then◌else◌, IfOk, IsErrOf, IsTrue, OnOk};
ghost use Rattle.sb_instance.specs.Asked.{is_built};
ghost use Rattle.sb_proc.specs.Machines as machines;
ghost use Rattle.sb_top.specs.Following as says;
ghost use Rattle.sb_log.specs.declared.requests.Reply as reply;
ghost use Rattle.sb_log.specs.declared.requests.Request as request;
ghost use Rattle.sb_log.specs.declared.steps.Answer.TheVariants as answer;
ghost use Rattle.sb_log.specs.declared.steps.Step as declared;
ghost use Rattle.sb_model.specs.Steps.{is_of_words};
ghost use Rattle.sb_top.specs.Room.{IsLonger, is_full};
ghost use Rattle.sb_top.specs.Runs.{AskMade, GoesOn, IsPlain, MadeWith, OneMade, TurnMade};

use crate::history::{History, Stopped};
use crate::refusals::{refuse, refuse_unbuilt};
use sb_instance::Instance;
use sb_log::{Actor, Answer, Event, Refusal, Request, Session, Step, Text, Who};
use sb_parse::Block;
use sb_proc::{Act, Machine, MachineFault, Variables};
use sb_show::request_words;
use std::alloc::{AllocError, Global};

/// The session of all batches so far.
pub const SESSION: Session = Session {
    instance: Who::A,
    number: 1,
};

/// Runs a batch, up to the first statement that is refused, and gives the variables that it leaves.
pub fn run_batch(
    alloc: Global,
    instance: &mut Instance,
    history: &mut History,
    variables: Variables,
    text: Text,
    block: Block,
) -> Result<Variables, Stopped>
    requires { IsPlain instance.old }
    ensures goes { GoesOn instance.old history.old.steps instance.new history.new.steps (MadeWith result (λ after steps. says.DoesFrom (says.begun variables text block) steps after)) }
    ensures full { IsErrOf result Stopped.HistoryFull → is_full history.new.steps ≡ true }
{
    let mut machine = Machine::new(alloc, Who::A, text, block, variables);
    'turns: while turn(alloc, instance, history, &mut machine)? {}
    Ok(machine.into_variables())
}

// Goes on to the next step of a batch, and says whether the batch goes on behind it.
fn turn(
    alloc: Global,
    instance: &mut Instance,
    history: &mut History,
    machine: &mut Machine,
) -> Result<bool, Stopped>
    requires { IsPlain instance.old }
    ensures goes { GoesOn instance.old history.old.steps instance.new history.new.steps (TurnMade machine.old machine.new result) }
    ensures full { IsErrOf result Stopped.HistoryFull → is_full history.new.steps ≡ true }
    ensures longer { IfOk result (λ goes_on. IsTrue goes_on → IsLonger history.old.steps history.new.steps) }
{
    match machine.next() {
        Ok(Act::End) => Ok(false),
        Ok(Act::Run(request)) => run_request(alloc, instance, history, machine, request),
        Err(MachineFault::OutOfMemory) => Err(Stopped::OutOfMemory),
        Err(MachineFault::Refused { words, refusal }) => {
            fail(instance, history, words, refusal)?;
            Ok(false)
        }
    }
}

// Asks what a statement asks, where it is built, and tells the machine the reply.
fn run_request(
    alloc: Global,
    instance: &mut Instance,
    history: &mut History,
    machine: &mut Machine,
    request: Request,
) -> Result<bool, Stopped>
    requires plain { IsPlain instance.old }
    requires given { machines.gives machine.old ≡ Some (Act.Run request) }
    ensures goes { GoesOn instance.old history.old.steps instance.new history.new.steps (TurnMade machine.old machine.new result) }
    ensures full { IsErrOf result Stopped.HistoryFull → is_full history.new.steps ≡ true }
    ensures longer { IfOk result (λ goes_on. IsTrue goes_on → IsLonger history.old.steps history.new.steps) }
{
    if !is_built(&request) {
        let words = request_words(&request);
        refuse_unbuilt(alloc, instance, history, Actor::Session(SESSION), words)?;
        return Ok(false);
    }
    let is_refused = ask(instance, history, request)?;
    if is_refused {
        return Ok(false);
    }
    tell(machine, history.steps())?;
    Ok(true)
}

fn is_built(request: &Request) -> bool
    ensures { result ≡ is_built request.now }
{
    matches!(
        request,
        Request::Define(_)
            | Request::AlterQueue { .. }
            | Request::Send { .. }
            | Request::Receive { .. }
    )
}

// Asks a request of session 1, and says whether it was refused.
fn ask(instance: &mut Instance, history: &mut History, request: Request) -> Result<bool, Stopped>
    requires plain { IsPlain instance.old }
    requires built { IsTrue (is_built request) }
    ensures goes { GoesOn instance.old history.old.steps instance.new history.new.steps (AskMade request result) }
    ensures full { IsErrOf result Stopped.HistoryFull → is_full history.new.steps ≡ true }
    ensures longer { OnOk result (IsLonger history.old.steps history.new.steps) }
{
    history.make_room()?;
    match instance.statement(SESSION.number, 0, &request) {
        Ok(reply) => {
            history.push(asked(request, Answer::Replied(reply)));
            Ok(false)
        }
        Err(refusal) => {
            if is_want_of_memory(&refusal) {
                return Err(Stopped::OutOfMemory);
            }
            let undone = None;
            history.push(asked(request, Answer::Refused { refusal, undone }));
            Ok(true)
        }
    }
}

fn is_want_of_memory(refusal: &Refusal) -> bool
    ensures { IsTrue result ↔ (refusal.now ≡ Refusal.OutOfMemory) }
{
    matches!(refusal, Refusal::OutOfMemory)
}

fn asked(request: Request, answer: Answer) -> Step
    ensures { result ≡ says.asked request answer }
{
    Step {
        who: Actor::Session(SESSION),
        event: Event::Asked(request),
        answer,
    }
}

// Tells the machine the reply of the last step.
fn tell(machine: &mut Machine, steps: &[Step]) -> Result<(), AllocError>
    ensures { (before : List declared.Step) (r : request.Request) (given : reply.Reply) → steps.now ≡ before ++ says.asked r (answer.Replied given) ∷ [] → OnOk result (machine.new ≡ machines.told machine.old given) }
{
    match steps.last() {
        Some(step) => match &step.answer {
            Answer::Replied(reply) => machine.told(reply),
            _ => Ok(()),
        },
        None => Ok(()),
    }
}

// Refuses a statement before it asks: as it is refused where it is built.
fn fail(
    instance: &Instance,
    history: &mut History,
    words: Text,
    refusal: Refusal,
) -> Result<(), Stopped>
    requires plain { IsPlain instance.now }
    requires words { IsTrue (is_of_words refusal) }
    ensures goes { GoesOn instance.now history.old.steps instance.now history.new.steps (OneMade (says.refused_words says.first_session words (if says.is_built_word words then refusal else Refusal.NotYet)) result) }
    ensures full { IsErrOf result Stopped.HistoryFull → is_full history.new.steps ≡ true }
{
    let refusal = if is_built_word(words.as_str()) {
        refusal
    } else {
        Refusal::NotYet
    };
    refuse(instance, history, Actor::Session(SESSION), words, refusal)
}

fn is_built_word(words: &str) -> bool
    ensures { result ≡ says.is_built_word words.now }
{
    words == "SEND" || words == "RECEIVE" || words == "DECLARE" || words == "SET" || words == "IF"
}
