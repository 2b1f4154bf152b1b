//! A script of statements and hand-overs on one instance.

ghost use Rattle.std.specs.Prelude.{IfOk, IsTrue};
ghost use Rattle.sb_instance.specs.Asked.{is_built};

use crate::{Instance, Unready};
use sb_log::{
    Bytes, ContractDef, Ddl, Entry, Filter, Handle, Header, Listed, MessageDef, Name, Op, QueueDef,
    Refusal, Reply, Request, Sender, SentBy, ServiceDef, SideId, Verdict,
};
use std::alloc::Global;
use std::mem::drop;
use std::process::Abort;
use std::test::Fail;

const A: u128 = 0xa000_0000_0000_0000_0000_0000_0000_0000;

const NEAR: SideId = SideId {
    conversation: Handle(A + 1),
    initiator: true,
};

fn name(alloc: Global, text: &str) -> Result<Name, Fail> {
    Ok(Name::new(alloc, text)?)
}

fn queue(alloc: Global, own: &str) -> Result<Entry, Fail> {
    Ok(Entry::Defined(Ddl::Queue(QueueDef {
        name: name(alloc, own)?,
        on: true,
        poison: true,
        activation: None,
    })))
}

fn service(alloc: Global, own: &str, queue: &str) -> Result<Entry, Fail> {
    let mut contracts = Listed::new(alloc);
    contracts.push(name(alloc, "DEFAULT")?)?;
    Ok(Entry::Defined(Ddl::Service(ServiceDef {
        name: name(alloc, own)?,
        queue: name(alloc, queue)?,
        contracts,
    })))
}

fn begun(alloc: Global, contract: &str) -> Result<Entry, Fail> {
    let header = Header {
        from_service: name(alloc, "Near")?,
        to_service: name(alloc, "Far")?,
        contract: name(alloc, contract)?,
        from: Handle(A),
        to: None,
        expires: 2147483647,
    };
    let mut ops = Listed::new(alloc);
    ops.push(Op::Begin {
        handle: Handle(A + 1),
        group: Handle(A + 2),
        header,
    })?;
    Ok(Entry::Txn { tx: 1, ops })
}

fn entries(alloc: Global, contract: &str) -> Result<Vec<Entry>, Fail> {
    let mut log = Vec::new(alloc);
    log.push(queue(alloc, "NearQ")?)?;
    log.push(queue(alloc, "FarQ")?)?;
    log.push(service(alloc, "Near", "NearQ")?)?;
    log.push(service(alloc, "Far", "FarQ")?)?;
    log.push(begun(alloc, contract)?)?;
    Ok(log)
}

/// Two services and a dialog between them, over this contract.
fn dialog_over(alloc: Global, contract: &str) -> Result<Instance, Fail> {
    let log = entries(alloc, contract)?;
    Ok(Instance::ready(alloc, log)?)
}

fn dialog(alloc: Global) -> Result<Instance, Fail> {
    dialog_over(alloc, "DEFAULT")
}

fn send_typed(alloc: Global, handle: u128, kind: Option<Name>) -> Result<Request, Fail>
    ensures { IfOk result (λ request. IsTrue (is_built request)) }
{
    Ok(Request::Send {
        handle: Handle(handle),
        kind,
        body: Some(Bytes::from_vec([0x78, 0].to_vec(alloc)?)),
    })
}

fn send(alloc: Global, handle: u128) -> Result<Request, Fail>
    ensures { IfOk result (λ request. IsTrue (is_built request)) }
{
    send_typed(alloc, handle, None)
}

fn send_of(alloc: Global, kind: &str) -> Result<Request, Fail>
    ensures { IfOk result (λ request. IsTrue (is_built request)) }
{
    let kind = name(alloc, kind)?;
    send_typed(alloc, A + 1, Some(kind))
}

fn receive(alloc: Global, queue: &str, top: Option<i64>) -> Result<Request, Fail>
    ensures { IfOk result (λ request. IsTrue (is_built request)) }
{
    Ok(Request::Receive {
        queue: name(alloc, queue)?,
        top,
        filter: Filter::All,
    })
}

fn alter(alloc: Global, queue: &str, on: bool) -> Result<Request, Fail>
    ensures { IfOk result (λ request. IsTrue (is_built request)) }
{
    Ok(Request::AlterQueue {
        queue: name(alloc, queue)?,
        on,
    })
}

fn define(ddl: Ddl) -> Request
    ensures { IsTrue (is_built result) }
{
    Request::Define(ddl)
}

fn define_queue(alloc: Global, own: &str) -> Result<Request, Fail>
    ensures { IfOk result (λ request. IsTrue (is_built request)) }
{
    let name = name(alloc, own)?;
    Ok(define(Ddl::Queue(QueueDef {
        name,
        on: true,
        poison: true,
        activation: None,
    })))
}

fn define_type(alloc: Global, own: &str, empty: bool) -> Result<Request, Fail>
    ensures { IfOk result (λ request. IsTrue (is_built request)) }
{
    let name = name(alloc, own)?;
    Ok(define(Ddl::MessageType(MessageDef { name, empty })))
}

fn sent(alloc: Global, kind: &str, by: Sender) -> Result<SentBy, Fail> {
    let kind = name(alloc, kind)?;
    Ok(SentBy { kind, by })
}

/// A contract by which each end may send DEFAULT and Mark, and the target Answer.
fn define_contract(alloc: Global, own: &str) -> Result<Request, Fail>
    ensures { IfOk result (λ request. IsTrue (is_built request)) }
{
    let mut types = Listed::new(alloc);
    types.push(sent(alloc, "DEFAULT", Sender::Any)?)?;
    types.push(sent(alloc, "Mark", Sender::Any)?)?;
    types.push(sent(alloc, "Answer", Sender::Target)?)?;
    let name = name(alloc, own)?;
    Ok(define(Ddl::Contract(ContractDef { name, types })))
}

fn let_go(_request: Request) {}

fn text_of(alloc: Global, why: Refusal) -> Result<String, Fail> {
    Ok(format!(in alloc; "{why}")?)
}

fn is_done(reply: Reply) -> bool {
    reply == Reply::Done
}

/// `done`, or the refusal as a transcript shows it.
fn answer(alloc: Global, it: &mut Instance, request: Request) -> Result<String, Fail>
    requires { IsTrue (is_built request) }
{
    let outcome = it.statement(1, 0, &request);
    let_go(request);
    match outcome {
        Err(why) => text_of(alloc, why),
        Ok(reply) => {
            let text = if is_done(reply) { "done" } else { "other" };
            Ok(String::from_str(alloc, text)?)
        }
    }
}

/// The statement is answered so, and adds so many entries.
fn asked(
    rt: &impl Abort,
    alloc: Global,
    it: &mut Instance,
    request: Result<Request, Fail>,
    wanted: (&str, usize),
) -> Result<(), Fail>
    requires { IfOk request (λ asked. IsTrue (is_built asked)) }
{
    let before = it.log().len();
    let told = answer(alloc, it, request?)?;
    assert_eq!(rt; told.as_str(), wanted.0);
    assert_eq!(rt; it.log().len(), before.saturating_add(wanted.1));
    Ok(())
}

fn messages_in(reply: Reply) -> Option<usize> {
    match reply {
        Reply::Received { items } => Some(items.len()),
        _ => None,
    }
}

/// A RECEIVE of the queue's first message finds so many.
fn received(rt: &impl Abort, alloc: Global, it: &mut Instance, found: usize) -> Result<(), Fail> {
    let first = it.statement(1, 0, &receive(alloc, "FarQ", Some(1))?)?;
    assert_eq!(rt; messages_in(first), Some(found));
    Ok(())
}

fn hand(rt: &impl Abort, it: &mut Instance, number: u64, given: Verdict) -> Result<(), Fail> {
    assert!(rt; it.can_hand_over(NEAR, number));
    assert_eq!(rt; it.hand_over(NEAR, number)?, given);
    Ok(())
}

const DONE: (&str, usize) = ("done", 1);

fn send_and_receive(rt: &impl Abort, alloc: Global, it: &mut Instance) -> Result<(), Fail> {
    asked(rt, alloc, it, send(alloc, A + 1), DONE)?;
    assert_eq!(rt; it.pending(alloc)?.len(), 1);
    hand(rt, it, 1, Verdict::New)?;
    assert_eq!(rt; it.log().len(), 7);
    received(rt, alloc, it, 1)?;
    received(rt, alloc, it, 0)?;
    assert_eq!(rt; it.log().len(), 8);
    Ok(())
}

#[test]
fn a_message_is_sent_handed_over_and_received(rt: HostRuntime) -> Result<(), Fail> {
    let mut it = dialog(rt.alloc())?;
    let outcome = send_and_receive(&rt, rt.alloc(), &mut it);
    drop(it);
    outcome
}

fn hand_over_in_turn(rt: &impl Abort, alloc: Global, it: &mut Instance) -> Result<(), Fail> {
    for _ in 0..4 {
        asked(rt, alloc, it, send(alloc, A + 1), DONE)?;
    }
    hand(rt, it, 1, Verdict::New)?;
    hand(rt, it, 2, Verdict::Next)?;
    hand(rt, it, 4, Verdict::Early)?;
    hand(rt, it, 3, Verdict::Next)?;
    hand(rt, it, 3, Verdict::Repeat)?;
    hand(rt, it, 4, Verdict::Next)?;
    assert_eq!(rt; it.log().len(), 13);
    Ok(())
}

#[test]
fn messages_are_handed_over_in_turn(rt: HostRuntime) -> Result<(), Fail> {
    let mut it = dialog(rt.alloc())?;
    let outcome = hand_over_in_turn(&rt, rt.alloc(), &mut it);
    drop(it);
    outcome
}

fn ask_for_none(rt: &impl Abort, alloc: Global, it: &mut Instance) -> Result<(), Fail> {
    let unknown = ("16 NoConversation a0000000-0000-0000-0000-000000000009", 0);
    asked(rt, alloc, it, send(alloc, A + 9), unknown)?;
    let none = receive(alloc, "FarQ", Some(0));
    asked(rt, alloc, it, none, ("23 BadNumber 0", 0))
}

#[test]
fn an_unknown_handle_and_a_receive_of_none_are_refused(rt: HostRuntime) -> Result<(), Fail> {
    let mut it = dialog(rt.alloc())?;
    let outcome = ask_for_none(&rt, rt.alloc(), &mut it);
    drop(it);
    outcome
}

/// The last entry is the definition of this queue.
fn unready(alloc: Global, log: Vec<Entry>) -> Option<Unready> {
    Instance::ready(alloc, log).err()
}

#[test]
fn a_log_that_says_a_name_twice_is_bad(rt: HostRuntime) -> Result<(), Fail> {
    let alloc = rt.alloc();
    let mut log = entries(alloc, "DEFAULT")?;
    assert!(rt; unready(alloc, log.clone()?) == None);
    log.push(queue(alloc, "FarQ")?)?;
    assert!(rt; unready(alloc, log) == Some(Unready::BadLog));
    Ok(())
}

#[test]
fn a_log_that_sets_a_queue_that_is_not_there_is_bad(rt: HostRuntime) -> Result<(), Fail> {
    let alloc = rt.alloc();
    for (own, wanted) in [("FarQ", None), ("Far", Some(Unready::BadLog))] {
        let mut log = entries(alloc, "DEFAULT")?;
        let queue = name(alloc, own)?;
        log.push(Entry::QueueSet { queue, on: false })?;
        assert!(rt; unready(alloc, log) == wanted);
    }
    Ok(())
}

fn ends_with_queue(alloc: Global, it: &Instance, own: &str) -> Result<bool, Fail> {
    let entry = queue(alloc, own)?;
    Ok(it.log().last() == Some(&entry))
}

fn define_twice(rt: &impl Abort, alloc: Global, it: &mut Instance) -> Result<(), Fail> {
    asked(rt, alloc, it, define_queue(alloc, "ThirdQ"), DONE)?;
    assert!(rt; ends_with_queue(alloc, it, "ThirdQ")?);
    let again = define_queue(alloc, "ThirdQ");
    asked(rt, alloc, it, again, ("7 NameTaken [ThirdQ]", 0))
}

#[test]
fn a_definition_is_written_once(rt: HostRuntime) -> Result<(), Fail> {
    let mut it = dialog(rt.alloc())?;
    let outcome = define_twice(&rt, rt.alloc(), &mut it);
    drop(it);
    outcome
}

fn define_by_others(rt: &impl Abort, alloc: Global, it: &mut Instance) -> Result<(), Fail> {
    let taken = ("7 NameTaken [NearQ]", 0);
    asked(rt, alloc, it, define_queue(alloc, "NearQ"), taken)?;
    let missing = ("8 NoMessageType [Mark]", 0);
    asked(rt, alloc, it, define_contract(alloc, "Asking"), missing)?;
    asked(rt, alloc, it, define_type(alloc, "Mark", true), DONE)?;
    asked(rt, alloc, it, define_type(alloc, "Answer", false), DONE)?;
    asked(rt, alloc, it, define_contract(alloc, "Asking"), DONE)
}

#[test]
fn a_definition_sees_what_the_log_defines(rt: HostRuntime) -> Result<(), Fail> {
    let mut it = dialog(rt.alloc())?;
    let outcome = define_by_others(&rt, rt.alloc(), &mut it);
    drop(it);
    outcome
}

fn define_asking(rt: &impl Abort, alloc: Global, it: &mut Instance) -> Result<(), Fail> {
    asked(rt, alloc, it, define_type(alloc, "Mark", true), DONE)?;
    asked(rt, alloc, it, define_contract(alloc, "Asking"), DONE)
}

fn send_types(rt: &impl Abort, alloc: Global, it: &mut Instance) -> Result<(), Fail> {
    let unknown = ("8 NoMessageType [Answer]", 0);
    asked(rt, alloc, it, send_of(alloc, "Answer"), unknown)?;
    asked(rt, alloc, it, define_type(alloc, "Answer", false), DONE)?;
    let outside = ("19 NotInContract [Answer]", 0);
    asked(rt, alloc, it, send_of(alloc, "Answer"), outside)?;
    define_asking(rt, alloc, it)?;
    let other = ("20 NotYours [Answer]", 0);
    asked(rt, alloc, it, send_of(alloc, "Answer"), other)?;
    asked(
        rt,
        alloc,
        it,
        send_of(alloc, "Mark"),
        ("21 BodyNotEmpty 2", 0),
    )?;
    asked(rt, alloc, it, send_of(alloc, "DEFAULT"), DONE)
}

#[test]
fn a_type_is_sent_as_its_contract_says(rt: HostRuntime) -> Result<(), Fail> {
    let mut it = dialog_over(rt.alloc(), "Asking")?;
    let outcome = send_types(&rt, rt.alloc(), &mut it);
    drop(it);
    outcome
}

fn receive_while_off(rt: &impl Abort, alloc: Global, it: &mut Instance) -> Result<(), Fail> {
    asked(rt, alloc, it, send(alloc, A + 1), DONE)?;
    hand(rt, it, 1, Verdict::New)?;
    asked(rt, alloc, it, alter(alloc, "FarQ", false), DONE)?;
    let first = receive(alloc, "FarQ", Some(1));
    asked(rt, alloc, it, first, ("24 QueueOff [FarQ]", 0))?;
    asked(rt, alloc, it, alter(alloc, "FarQ", true), DONE)?;
    received(rt, alloc, it, 1)
}

#[test]
fn nothing_is_received_while_a_queue_is_off(rt: HostRuntime) -> Result<(), Fail> {
    let mut it = dialog(rt.alloc())?;
    let outcome = receive_while_off(&rt, rt.alloc(), &mut it);
    drop(it);
    outcome
}

fn hand_over_while_off(rt: &impl Abort, alloc: Global, it: &mut Instance) -> Result<(), Fail> {
    asked(rt, alloc, it, send(alloc, A + 1), DONE)?;
    asked(rt, alloc, it, alter(alloc, "FarQ", false), DONE)?;
    hand(rt, it, 1, Verdict::NotHere(4))?;
    asked(rt, alloc, it, alter(alloc, "FarQ", true), DONE)?;
    hand(rt, it, 1, Verdict::New)
}

#[test]
fn nothing_is_handed_over_to_a_queue_that_is_off(rt: HostRuntime) -> Result<(), Fail> {
    let mut it = dialog(rt.alloc())?;
    let outcome = hand_over_while_off(&rt, rt.alloc(), &mut it);
    drop(it);
    outcome
}

fn set_queues(rt: &impl Abort, alloc: Global, it: &mut Instance) -> Result<(), Fail> {
    asked(rt, alloc, it, alter(alloc, "FarQ", true), ("done", 0))?;
    asked(rt, alloc, it, alter(alloc, "FarQ", false), DONE)?;
    asked(rt, alloc, it, alter(alloc, "FarQ", false), ("done", 0))?;
    asked(rt, alloc, it, define_queue(alloc, "ThirdQ"), DONE)?;
    asked(rt, alloc, it, alter(alloc, "ThirdQ", false), DONE)?;
    let none = ("10 NoQueue [Nowhere]", 0);
    asked(rt, alloc, it, alter(alloc, "Nowhere", false), none)
}

#[test]
fn a_queue_that_is_set_so_is_left(rt: HostRuntime) -> Result<(), Fail> {
    let mut it = dialog(rt.alloc())?;
    let outcome = set_queues(&rt, rt.alloc(), &mut it);
    drop(it);
    outcome
}

/// An instance that notes nothing is asked the same, and has to answer the same.
fn ask(
    rt: &impl Abort,
    it: &mut Instance,
    other: &mut Instance,
    request: &Request,
) -> Result<(), Fail>
    requires { IsTrue (is_built request.now) }
{
    other.forget();
    let own = it.statement(1, 0, request);
    assert!(rt; own == other.statement(1, 0, request));
    assert_eq!(rt; it.log().len(), other.log().len());
    Ok(())
}

/// Hands the next message over, if there is one.
fn hand_next(
    rt: &impl Abort,
    it: &mut Instance,
    other: &mut Instance,
    handed: &mut u64,
) -> Result<(), Fail> {
    let next = handed.wrapping_add(1);
    other.forget();
    if it.can_hand_over(NEAR, next) && other.can_hand_over(NEAR, next) {
        let given = it.hand_over(NEAR, next)?;
        assert_eq!(rt; other.hand_over(NEAR, next)?, given);
        if given == Verdict::New || given == Verdict::Next {
            *handed = next;
        }
    }
    Ok(())
}

fn request(alloc: Global, kind: u32) -> Result<Request, Fail>
    ensures { IfOk result (λ request. IsTrue (is_built request)) }
{
    match kind {
        0 => send(alloc, A + 1),
        2 => receive(alloc, "FarQ", Some(1)),
        3 => receive(alloc, "NearQ", Some(1)),
        4 => receive(alloc, "FarQ", None),
        5 => alter(alloc, "FarQ", false),
        _ => alter(alloc, "FarQ", true),
    }
}

/// A hand-over, or a statement.
fn act(
    rt: &impl Abort,
    alloc: Global,
    it: &mut Instance,
    other: &mut Instance,
    handed: &mut u64,
    kind: u32,
) -> Result<(), Fail> {
    if kind == 1 {
        return hand_next(rt, it, other, handed);
    }
    let request = request(alloc, kind)?;
    ask(rt, it, other, &request)
}

/// Two messages are sent and handed over, and then four acts follow.
fn act_in_turn(
    rt: &impl Abort,
    alloc: Global,
    it: &mut Instance,
    other: &mut Instance,
    script: u32,
) -> Result<(), Fail> {
    let mut handed = 0;
    let mut left = script;
    for kind in [0, 0, 1, 1] {
        act(rt, alloc, it, other, &mut handed, kind)?;
    }
    for _ in 0..4 {
        act(rt, alloc, it, other, &mut handed, left % 7)?;
        left /= 7;
    }
    Ok(())
}

fn play(rt: &impl Abort, alloc: Global, script: u32) -> Result<(), Fail> {
    let mut it = dialog(alloc)?;
    match dialog(alloc) {
        Err(fail) => {
            drop(it);
            Err(fail)
        }
        Ok(mut other) => {
            let outcome = act_in_turn(rt, alloc, &mut it, &mut other, script);
            drop(it);
            drop(other);
            outcome
        }
    }
}

#[test]
fn what_is_noted_answers_as_the_log_does(rt: HostRuntime) -> Result<(), Fail> {
    for script in 0..2401 {
        play(&rt, rt.alloc(), script)?;
    }
    Ok(())
}
