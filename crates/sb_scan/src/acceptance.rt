//! The table of acceptance.

ghost use Rattle.std.specs.Prelude.{◌≡◌, false, is_none, length, not, nat_le, nat_lt, ◌+◌, ◌&&◌, ◌||◌};
ghost use Rattle.std.specs.Option.{option_map_or};
ghost use Rattle.std.specs.List.{list_any};
ghost use Rattle.sb_model.specs.Sides.{same_name};
ghost use Rattle.sb_model.specs.Items.{queue_of};
ghost use Rattle.sb_model.specs.Catalog.{find_contract, find_service, queue_is_on};
ghost use Rattle.sb_model.specs.Messages.{accepted, acked, is_closed, is_closed_by_ack, numbered};
ghost use Rattle.sb_model.specs.Acceptance.{
  ack_verdict,
  instance_id,
  is_empty_type,
  is_for_other,
  is_type_refused,
  makes_side,
  never_sent,
  offers,
  receiver,
  receiving_queue,
  verdict,
};
ghost use Rattle.sb_scan.specs.Terms.{is_sent_by};

use crate::catalog::{
    find_contract, find_message_type, find_service, may_be_sent_by, queue_is_on, sender_of,
    service_queue,
};
use crate::making::{has_side, partner};
use crate::queue::queue_of;
use crate::sent::{accepted, acked, is_closed, is_closed_by_ack, message_at};
use sb_log::{Ack, Content, Data, Entry, Handle, Name, SideId, Verdict, Who};

const HIGH: u128 = 1 << 64;

/// The broker instance id.
pub fn instance_id(who: Who) -> Handle
    ensures { result ≡ instance_id who }
{
    match who {
        Who::A => Handle(0xa000_0000_0000_0000 * HIGH),
        Who::B => Handle(0xb000_0000_0000_0000 * HIGH),
    }
}

/// The side that receives the message.
pub fn receiver(data: &Data) -> SideId
    ensures { result ≡ receiver data.now }
{
    partner(data.side)
}

fn is_for_other(who: Who, data: &Data) -> bool
    ensures { result ≡ is_for_other who data.now }
{
    match data.header.to {
        None => false,
        Some(to) => to != instance_id(who),
    }
}

/// Whether the message makes its side.
pub fn makes_side(log: &[Entry], data: &Data) -> bool
    ensures { result ≡ makes_side log.now data.now }
{
    !has_side(log, receiver(data))
}

fn is_queue_on(log: &[Entry], data: &Data) -> bool
    ensures { result ≡ option_map_or (queue_is_on log.now) (receiving_queue log.now data.now) false }
{
    let queue = if makes_side(log, data) {
        service_queue(log, &data.header.to_service)
    } else {
        queue_of(log, receiver(data))
    };
    match queue {
        None => false,
        Some(name) => queue_is_on(log, name),
    }
}

fn is_listed(names: &[Name], name: &Name) -> bool
    ensures { result ≡ list_any (same_name name.now) names.now }
{
    for listed in names {
        if *name == *listed {
            return true;
        }
    }
    false
}

fn offers(log: &[Entry], data: &Data) -> bool
    ensures { result ≡ offers log.now data.now }
{
    match find_service(log, &data.header.to_service) {
        None => false,
        Some(service) => is_listed(service.contracts.as_slice(), &data.header.contract),
    }
}

fn is_empty_type(log: &[Entry], name: &Name) -> bool
    ensures { result ≡ is_empty_type log.now name.now }
{
    match find_message_type(log, name) {
        None => false,
        Some(found) => found.is_empty(),
    }
}

fn is_sent_by(log: &[Entry], contract: &Name, kind: &Name, initiator: bool) -> bool
    ensures { result ≡ is_sent_by log.now contract.now kind.now initiator }
{
    match find_contract(log, contract) {
        None => false,
        Some(found) => match sender_of(found, kind) {
            None => false,
            Some(by) => may_be_sent_by(by, initiator),
        },
    }
}

fn is_type_refused(log: &[Entry], from: SideId, contract: &Name, content: &Content) -> bool
    ensures { result ≡ is_type_refused log.now from contract.now content.now }
{
    match content {
        Content::App { kind, body } => {
            !is_sent_by(log, contract, kind, from.initiator)
                || (is_empty_type(log, kind) && body.is_some())
        }
        _ => false,
    }
}

/// What the log says for a message that comes in.
#[derive(Clone, Copy)]
pub struct Known {
    pub is_for_other: bool,
    pub makes_side: bool,
    pub to_initiator: bool,
    pub is_closed: bool,
    pub accepted: u64,
    pub has_service: bool,
    pub is_queue_on: bool,
    pub has_contract: bool,
    pub offers: bool,
    pub is_type_refused: bool,
}

/// The first row of the table that applies, by what the caller knows of the log.
pub fn verdict_by(who: Who, log: &[Entry], data: &Data, known: Known) -> Verdict
    requires other { known.is_for_other ≡ is_for_other who data.now }
    requires makes { known.makes_side ≡ makes_side log.now data.now }
    requires to { known.to_initiator ≡ (receiver data.now).initiator }
    requires closed { known.is_closed ≡ is_closed log.now (receiver data.now) }
    requires accepted { known.accepted ≡ accepted log.now (receiver data.now) }
    requires service { known.has_service ≡ not (is_none (find_service log.now data.now.header.to_service)) }
    requires queue { known.is_queue_on ≡ option_map_or (queue_is_on log.now) (receiving_queue log.now data.now) false }
    requires contract { known.has_contract ≡ not (is_none (find_contract log.now data.now.header.contract)) }
    requires offers { known.offers ≡ offers log.now data.now }
    requires typed { known.is_type_refused ≡ is_type_refused log.now data.now.side data.now.header.contract data.now.content }

    ensures { result ≡ verdict who log.now data.now }
{
    if known.is_for_other {
        Verdict::NotHere(1)
    } else if known.makes_side && known.to_initiator {
        Verdict::NotHere(2)
    } else if known.is_closed {
        Verdict::Gone
    } else if data.number <= known.accepted {
        Verdict::Repeat
    } else if data.number - known.accepted > 1 {
        Verdict::Early
    } else if known.makes_side && !known.has_service {
        Verdict::NotHere(3)
    } else if !known.is_queue_on {
        Verdict::NotHere(4)
    } else if !known.has_contract || (known.makes_side && !known.offers) {
        Verdict::NotHere(5)
    } else if known.is_type_refused {
        Verdict::NotHere(6)
    } else if known.makes_side {
        Verdict::New
    } else {
        Verdict::Next
    }
}

fn has_service(log: &[Entry], name: &Name) -> bool
    ensures { result ≡ not (is_none (find_service log.now name.now)) }
{
    match find_service(log, name) {
        None => false,
        Some(_) => true,
    }
}

fn has_contract(log: &[Entry], name: &Name) -> bool
    ensures { result ≡ not (is_none (find_contract log.now name.now)) }
{
    match find_contract(log, name) {
        None => false,
        Some(_) => true,
    }
}

/// How a message that comes in is answered.
pub fn verdict(who: Who, log: &[Entry], data: &Data) -> Verdict
    ensures { result ≡ verdict who log.now data.now }
{
    let to = receiver(data);
    let contract = &data.header.contract;
    let known = Known {
        is_for_other: is_for_other(who, data),
        makes_side: makes_side(log, data),
        to_initiator: to.initiator,
        is_closed: is_closed(log, to),
        accepted: accepted(log, to) as u64,
        has_service: has_service(log, &data.header.to_service),
        is_queue_on: is_queue_on(log, data),
        has_contract: has_contract(log, contract),
        offers: offers(log, data),
        is_type_refused: is_type_refused(log, data.side, contract, &data.content),
    };
    verdict_by(who, log, data, known)
}

fn is_never_sent(log: &[Entry], ack: &Ack) -> bool
    ensures { result ≡ never_sent log.now ack.now }
{
    if ack.upto == 0 || ack.closed {
        return false;
    }
    match message_at(log, ack.side, ack.upto - 1) {
        None => true,
        Some(_) => false,
    }
}

fn is_news(log: &[Entry], ack: &Ack) -> bool
    ensures { result ≡ (nat_lt (acked log.now ack.now.side) ack.now.upto || (ack.now.closed && not (is_closed_by_ack log.now ack.now.side))) }
{
    acked(log, ack.side) < ack.upto || (ack.closed && !is_closed_by_ack(log, ack.side))
}

/// How an acknowledgement that comes in is answered.
pub fn ack_verdict(who: Who, log: &[Entry], ack: &Ack) -> Verdict
    ensures { result ≡ ack_verdict who log.now ack.now }
{
    if ack.to != instance_id(who) {
        Verdict::NotHere(1)
    } else if !has_side(log, ack.side) {
        Verdict::NotHere(2)
    } else if is_never_sent(log, ack) {
        Verdict::NotHere(7)
    } else if is_news(log, ack) {
        Verdict::AckNew
    } else {
        Verdict::AckOld
    }
}
