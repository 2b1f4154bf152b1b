//! The checks of a SEND, in the order in which they refuse.

ghost use Rattle.std.specs.Prelude.{◌≡◌, ◌⊎◌, ◌++◌, ◌∷◌, [], true, IfOk, IfSome, unwrap_or, option_and_then};
ghost use Rattle.std.specs.List.{Contains};
ghost use Rattle.sb_model.specs.Catalog.{default_name, find_contract, sender_of};
ghost use Rattle.sb_model.specs.Replies.{body_length, contract_of, in_state, live, own_group, send, send_typed, with_group, with_side};
ghost use Rattle.sb_model.specs.States.{may_send, state_of};
ghost use Rattle.sb_instance.specs.Asked.{ask_of, IsSent};
ghost use Rattle.sb_instance.specs.Sending.{AreSending, MaySend};

use crate::stopped::Stopped;
use sb_log::{Body, Entry, Handle, Name, Refusal, Sender, SideId};
use sb_scan::{
    SeenContract, find_contract, find_message_type, is_cleaned, made, may_be_sent_by, may_send,
    sender_of, side_of, state_of,
};
use std::alloc::{AllocError, Global};

/// The longest body, in bytes.
const LONGEST: u64 = 65536;

/// A side that may send, with its handle.
#[derive(Clone, Copy, Drop)]
pub struct Sending {
    pub handle: Handle,
    pub side: SideId,
}

/// The side of this handle that is there and isn't cleaned.
pub fn live(alloc: Global, log: &[Entry], handle: Handle) -> Result<Option<SideId>, AllocError>
    ensures { IfOk result (λ side. side ≡ live (ask_of log.now) handle) }
{
    match side_of(alloc, log, handle)? {
        None => Ok(None),
        Some(side) => {
            if is_cleaned(log, side) {
                Ok(None)
            } else {
                Ok(Some(side))
            }
        }
    }
}

fn sender(log: &[Entry], side: SideId, kind: &Name) -> Option<Sender>
    ensures { result ≡ option_and_then (λ def. sender_of def kind.now) (find_contract log.now (contract_of (ask_of log.now) side)) }
{
    match made(log, side) {
        None => sender_of(SeenContract::BuiltIn, kind),
        Some(found) => match find_contract(log, &found.header.contract) {
            None => None,
            Some(contract) => sender_of(contract, kind),
        },
    }
}

fn body_length(body: &Option<Body>) -> u64
    ensures { result ≡ body_length body.now }
{
    match body {
        None => 0,
        Some(bytes) => bytes.as_slice().len() as u64,
    }
}

fn check_typed(
    log: &[Entry],
    side: SideId,
    kind: &Name,
    is_empty: bool,
    body: &Option<Body>,
) -> Result<SideId, Stopped>
    ensures sent { IsSent (send_typed (ask_of log.now) side kind.now is_empty body.now) kind.now body.now result }
    ensures same { IfOk result (λ from. from ≡ side) }
{
    let Some(by) = sender(log, side, kind) else {
        return Err(Stopped::Refused(Refusal::NotInContract(kind.clone()?)));
    };
    if !may_be_sent_by(by, side.initiator) {
        return Err(Stopped::Refused(Refusal::NotYours(kind.clone()?)));
    }
    let length = body_length(body);
    if is_empty && body.is_some() {
        return Err(Stopped::Refused(Refusal::BodyNotEmpty(length)));
    }
    if LONGEST < length {
        return Err(Stopped::Refused(Refusal::BodyTooLong(length)));
    }
    Ok(side)
}

fn check_state(
    log: &[Entry],
    side: SideId,
    kind: &Name,
    is_empty: bool,
    body: &Option<Body>,
) -> Result<SideId, Stopped>
    ensures sent { IsSent (with_group (ask_of log.now) (own_group (ask_of log.now) side) (in_state (ask_of log.now) side may_send (send_typed (ask_of log.now) side kind.now is_empty body.now))) kind.now body.now result }
    ensures same { IfOk result (λ from. from ≡ side) }
    ensures allowed { IfOk result (λ from. may_send (state_of log.now side) ≡ true) }
{
    let state = state_of(log, side);
    if !may_send(state) {
        return Err(Stopped::Refused(Refusal::WrongState(state)));
    }
    check_typed(log, side, kind, is_empty, body)
}

fn recalled(known: &[Sending], handle: Handle) -> Option<Sending>
    ensures known { IfSome result (Contains known.now) }
    ensures handle { IfSome result (λ x. x.handle ≡ handle) }
{
    for sending in known {
        if sending.handle == handle {
            return Some(*sending);
        }
    }
    None
}

fn check_found(
    alloc: Global,
    log: &[Entry],
    handle: Handle,
    kind: &Name,
    is_empty: bool,
    body: &Option<Body>,
) -> Result<SideId, Stopped>
    ensures sent { IsSent (with_side (ask_of log.now) handle (λ s. with_group (ask_of log.now) (own_group (ask_of log.now) s) (in_state (ask_of log.now) s may_send (send_typed (ask_of log.now) s kind.now is_empty body.now)))) kind.now body.now result }
    ensures may { IfOk result (MaySend log.now handle) }
{
    let Some(side) = live(alloc, log, handle)? else {
        return Err(Stopped::Refused(Refusal::NoConversation(handle)));
    };
    check_state(log, side, kind, is_empty, body)
}

fn check_handle(
    alloc: Global,
    log: &[Entry],
    known: &[Sending],
    handle: Handle,
    kind: &Name,
    is_empty: bool,
    body: &Option<Body>,
) -> Result<SideId, Stopped>
    requires { AreSending log.now known.now }
    ensures sent { IsSent (with_side (ask_of log.now) handle (λ s. with_group (ask_of log.now) (own_group (ask_of log.now) s) (in_state (ask_of log.now) s may_send (send_typed (ask_of log.now) s kind.now is_empty body.now)))) kind.now body.now result }
    ensures may { IfOk result (MaySend log.now handle) }
{
    match recalled(known, handle) {
        None => check_found(alloc, log, handle, kind, is_empty, body),
        Some(sending) => check_typed(log, sending.side, kind, is_empty, body),
    }
}

/// The side that a SEND is from, where nothing refuses it. Of a side that is known to be
/// one that may send, the log isn't asked again.
pub fn check_send(
    alloc: Global,
    log: &[Entry],
    known: &[Sending],
    handle: Handle,
    kind: &Name,
    body: &Option<Body>,
) -> Result<SideId, Stopped>
    requires { AreSending log.now known.now }
    ensures sent { IsSent (send (ask_of log.now) handle kind.now body.now) kind.now body.now result }
    ensures may { IfOk result (MaySend log.now handle) }
{
    let Some(found) = find_message_type(log, kind) else {
        return Err(Stopped::Refused(Refusal::NoMessageType(kind.clone()?)));
    };
    check_handle(alloc, log, known, handle, kind, found.is_empty(), body)
}

/// Notes a side that may send, unless it is noted. Where memory is wanting, it isn't.
pub fn note(known: &mut Vec<Sending>, handle: Handle, side: SideId)
    ensures { (known.new.items ≡ known.old.items) ⊎ (known.new.items ≡ known.old.items ++ record { handle = handle; side = side } ∷ []) }
{
    if recalled(known.as_slice(), handle).is_none() {
        let _ = known.push(Sending { handle, side });
    }
}

/// The type of a SEND that may name none.
pub fn kind_of(alloc: Global, kind: &Option<Name>) -> Result<Name, AllocError>
    ensures { IfOk result (λ name. name ≡ unwrap_or kind.now default_name) }
{
    match kind {
        None => Ok(Name::from_string(String::from_str(alloc, "DEFAULT")?)),
        Some(name) => name.clone(),
    }
}
