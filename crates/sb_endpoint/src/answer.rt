//! The tables of acceptance, by the facts of one side.

ghost use Rattle.std.specs.Prelude.{◌≡◌};
ghost use Rattle.sb_model.specs.Acceptance.{instance_id, is_for_other, receiver};
ghost use Rattle.sb_endpoint.specs.Acceptance.{ack_verdict_on, verdict_on};
ghost use Rattle.sb_endpoint.specs.States.{numbered_by};

use crate::endpoint::Endpoint;
use sb_log::{Ack, Data, Handle, SideId, Verdict, Who};

const HIGH: u128 = 1 << 64;

/// The broker instance id.
fn instance_id(who: Who) -> Handle
    ensures { result ≡ instance_id who }
{
    match who {
        Who::A => Handle(0xa000_0000_0000_0000 * HIGH),
        Who::B => Handle(0xb000_0000_0000_0000 * HIGH),
    }
}

/// The side that receives the message.
pub(crate) fn receiver(sent: &Data) -> SideId
    ensures { result ≡ receiver sent.now }
{
    SideId {
        conversation: sent.side.conversation,
        initiator: !sent.side.initiator,
    }
}

fn is_for_other(who: Who, sent: &Data) -> bool
    ensures { result ≡ is_for_other who sent.now }
{
    match sent.header.to {
        None => false,
        Some(to) => to != instance_id(who),
    }
}

/// The first row of the table that applies to a message.
pub(crate) fn message_verdict(
    who: Who,
    sent: &Data,
    endpoint: &Endpoint,
    missing: u8,
    queue_on: bool,
) -> Verdict
    ensures { result ≡ verdict_on who sent.now endpoint.now missing queue_on }
{
    if is_for_other(who, sent) {
        Verdict::NotHere(1)
    } else if !endpoint.is_made() && receiver(sent).initiator {
        Verdict::NotHere(2)
    } else if endpoint.is_closed() {
        Verdict::Gone
    } else if sent.number <= endpoint.accepted {
        Verdict::Repeat
    } else if sent.number - endpoint.accepted > 1 {
        Verdict::Early
    } else if missing == 3 {
        Verdict::NotHere(3)
    } else if !queue_on {
        Verdict::NotHere(4)
    } else if missing > 0 {
        Verdict::NotHere(missing)
    } else if !endpoint.is_made() {
        Verdict::New
    } else {
        Verdict::Next
    }
}

/// The first row of the table that applies to an acknowledgement.
pub(crate) fn ack_verdict(who: Who, ack: &Ack, endpoint: &Endpoint, numbered: u64) -> Verdict
    requires { numbered ≡ numbered_by endpoint.now }
    ensures { result ≡ ack_verdict_on who ack.now endpoint.now }
{
    if ack.to != instance_id(who) {
        Verdict::NotHere(1)
    } else if !endpoint.is_made() {
        Verdict::NotHere(2)
    } else if numbered < ack.upto && !ack.closed {
        Verdict::NotHere(7)
    } else if endpoint.acked < ack.upto || (ack.closed && !endpoint.closed) {
        Verdict::AckNew
    } else {
        Verdict::AckOld
    }
}
