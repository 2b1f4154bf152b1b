//! What happens in a step.

ghost use Rattle.std.specs.Prelude.{◌≡◌, ◌++◌, OnOk, length};
ghost use Rattle.sb_show.specs.Values.{capped};
ghost use Rattle.sb_show.specs.Events as says;

use crate::value::{
    ID, LETTER, SIDE, name_len, numbered_len, push_handle, push_letter, push_name, push_numbered,
    push_side, push_text, text_len, total,
};
use sb_log::{Ddl, Event, Handle, Request, Who};
use std::alloc::AllocError;

fn definition_words(definition: &Ddl) -> &'static str
    ensures { result.now ≡ says.definition_words definition.now }
{
    match definition {
        Ddl::MessageType(_) => "CREATE MESSAGE TYPE",
        Ddl::Contract(_) => "CREATE CONTRACT",
        Ddl::Queue(_) => "CREATE QUEUE",
        Ddl::Service(_) => "CREATE SERVICE",
        Ddl::Route(_) => "CREATE ROUTE",
        Ddl::Priority(_) => "CREATE BROKER PRIORITY",
        Ddl::Table(_) => "CREATE TABLE",
        Ddl::Procedure(_) => "CREATE PROCEDURE",
    }
}

/// The fixed words of a statement.
pub fn request_words(request: &Request) -> &'static str
    ensures { result.now ≡ says.request_words request.now }
{
    match request {
        Request::Define(definition) => definition_words(definition),
        Request::AlterQueue { .. } => "ALTER QUEUE",
        Request::Begin => "BEGIN TRANSACTION",
        Request::Commit => "COMMIT",
        Request::Rollback => "ROLLBACK",
        Request::BeginDialog { .. } => "BEGIN DIALOG",
        Request::Send { .. } => "SEND",
        Request::Receive { .. } => "RECEIVE",
        Request::GetGroup { .. } => "GET CONVERSATION GROUP",
        Request::Move { .. } => "MOVE",
        Request::End { .. } => "END CONVERSATION",
        Request::Timer { .. } => "BEGIN CONVERSATION TIMER",
        Request::Insert { .. } => "INSERT",
        Request::Update { .. } => "UPDATE",
        Request::Delete { .. } => "DELETE",
        Request::Read { .. } => "SELECT",
    }
}

fn push_at_instance(out: &mut Vec<u8>, word: &str, instance: Who) -> Result<(), AllocError>
    ensures { OnOk result (out.new.items ≡ out.old.items ++ says.at_instance word.now instance) }
{
    push_text(out, word)?;
    push_letter(out, instance)
}

#[tactic(auto, unfolding(crate::specs::Events::at_instance_numbered))]
fn push_at_instance_numbered(
    out: &mut Vec<u8>,
    word: &str,
    instance: Who,
    number: u64,
) -> Result<(), AllocError>
    ensures { OnOk result (out.new.items ≡ out.old.items ++ says.at_instance_numbered word.now instance number) }
{
    push_at_instance(out, word, instance)?;
    push_numbered(out, " ", number)
}

#[tactic(auto, unfolding(crate::specs::Events::at_instance_handle))]
fn push_at_instance_handle(
    out: &mut Vec<u8>,
    word: &str,
    instance: Who,
    handle: Handle,
) -> Result<(), AllocError>
    ensures { OnOk result (out.new.items ≡ out.old.items ++ says.at_instance_handle word.now instance handle) }
{
    push_at_instance(out, word, instance)?;
    push_text(out, " ")?;
    push_handle(out, handle)
}

fn push_destination(out: &mut Vec<u8>, to: Option<Who>) -> Result<(), AllocError>
    ensures { OnOk result (out.new.items ≡ out.old.items ++ says.destination_text to) }
{
    match to {
        None => Ok(()),
        Some(instance) => push_at_instance(out, " to ", instance),
    }
}

/// Appends what happens in a step.
#[tactic(auto, unfolding(crate::specs::Events::event_text))]
pub fn push_event(out: &mut Vec<u8>, event: &Event) -> Result<(), AllocError>
    ensures { OnOk result (out.new.items ≡ out.old.items ++ says.event_text event.now) }
{
    match event {
        Event::Asked(request) => push_text(out, request_words(request)),
        Event::Words(words) => push_text(out, words.as_str()),
        Event::Start { queue, group } => {
            push_text(out, "start ")?;
            push_name(out, queue)?;
            push_text(out, " ")?;
            push_handle(out, *group)
        }
        Event::Pump(instance) => push_at_instance(out, "pump ", *instance),
        Event::Deliver { frame, to } => {
            push_numbered(out, "deliver ", *frame)?;
            push_destination(out, *to)
        }
        Event::HandOver { side, number } => {
            push_text(out, "hand over ")?;
            push_side(out, *side)?;
            push_numbered(out, " ", *number)
        }
        Event::Lose(frame) => push_numbered(out, "lose ", *frame),
        Event::Tick(seconds) => push_numbered(out, "tick ", *seconds),
        Event::Clock(moment) => push_numbered(out, "clock ", *moment),
        Event::Timer { instance, handle } => {
            push_at_instance_handle(out, "timer ", *instance, *handle)
        }
        Event::Lifetime { instance, handle } => {
            push_at_instance_handle(out, "lifetime ", *instance, *handle)
        }
        Event::Fuse { instance, calls } => {
            push_at_instance_numbered(out, "fuse ", *instance, *calls)
        }
        Event::Crash { instance, pick } => {
            push_at_instance_numbered(out, "crash ", *instance, *pick)
        }
        Event::Open(instance) => push_at_instance(out, "open ", *instance),
        Event::Serve => push_text(out, "serve"),
        Event::Inject { instance, .. } => push_at_instance(out, "inject ", *instance),
        Event::Dump(instance) => push_at_instance(out, "dump ", *instance),
    }
}

#[tactic(auto, using(crate::proofs::Lengths::lengths), unfolding(crate::specs::Events::at_instance_numbered))]
fn at_instance_numbered_len(word: &str, number: u64) -> u64
    ensures { (x : _) → result ≡ capped (length (says.at_instance_numbered word.now x number)) }
{
    total(&[text_len(word), LETTER, numbered_len(" ", number)])
}

#[tactic(auto, using(crate::proofs::Lengths::lengths), unfolding(crate::specs::Events::at_instance_handle))]
fn at_instance_handle_len(word: &str) -> u64
    ensures { (x : _) (h : _) → result ≡ capped (length (says.at_instance_handle word.now x h)) }
{
    total(&[text_len(word), LETTER, text_len(" "), ID])
}

#[tactic(auto, using(crate::proofs::Lengths::lengths))]
fn destination_len(to: Option<Who>) -> u64
    ensures { result ≡ length (says.destination_text to) }
{
    match to {
        None => 0,
        Some(_) => text_len(" to ") + LETTER,
    }
}

/// The length of what happens in a step.
#[tactic(auto, using(crate::proofs::Lengths::lengths), unfolding(crate::specs::Events::event_text, crate::specs::Values::side_text))]
pub fn event_len(event: &Event) -> u64
    ensures { result ≡ capped (length (says.event_text event.now)) }
{
    match event {
        Event::Asked(request) => text_len(request_words(request)),
        Event::Words(words) => text_len(words.as_str()),
        Event::Start { queue, .. } => {
            total(&[text_len("start "), name_len(queue), text_len(" "), ID])
        }
        Event::Pump(_) => text_len("pump ") + LETTER,
        Event::Deliver { frame, to } => {
            total(&[numbered_len("deliver ", *frame), destination_len(*to)])
        }
        Event::HandOver { number, .. } => {
            total(&[text_len("hand over "), SIDE, numbered_len(" ", *number)])
        }
        Event::Lose(frame) => numbered_len("lose ", *frame),
        Event::Tick(seconds) => numbered_len("tick ", *seconds),
        Event::Clock(moment) => numbered_len("clock ", *moment),
        Event::Timer { .. } => at_instance_handle_len("timer "),
        Event::Lifetime { .. } => at_instance_handle_len("lifetime "),
        Event::Fuse { calls, .. } => at_instance_numbered_len("fuse ", *calls),
        Event::Crash { pick, .. } => at_instance_numbered_len("crash ", *pick),
        Event::Open(_) => text_len("open ") + LETTER,
        Event::Serve => text_len("serve"),
        Event::Inject { .. } => text_len("inject ") + LETTER,
        Event::Dump(_) => text_len("dump ") + LETTER,
    }
}
