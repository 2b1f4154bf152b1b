//! Handing a message to its partner's side on the same instance.

ghost use Rattle.std.specs.Prelude.{◌≡◌, ◌<◌, ◌+◌, ◌++◌, ◌-◌, ◌%◌, ◌^◌, IfOk, OnOk, flat_map, is_some, length, option_to_list, suc};
ghost use Rattle.sb_model.specs.Sides.{id, partner, sides};
ghost use Rattle.sb_model.specs.Messages.{accepted, numbered};
ghost use Rattle.sb_model.specs.Acceptance.{accepted_entry, instance_id, makes_side};
ghost use Rattle.sb_model.specs.Frames.{sent_header};
ghost use Rattle.sb_scan.specs.Seen.{making_of};
ghost use Rattle.sb_instance.specs.Handing.{carried, carried_for, new_made, pending_in, turned};

use sb_log::{Data, Entry, Handle, Header, NewSide, SideId, Who};
use sb_scan::{
    MadeSide, accepted, destination, instance_id, made, makes_side, message_at, numbered, partner,
    receiver, sides,
};
use std::alloc::{AllocError, Global};

/// What a `:clean` still has to hand over for a side.
#[derive(Clone, Copy, Debug, PartialEq, Eq)]
pub struct Pending {
    pub side: SideId,
    /// How many messages are numbered.
    pub numbered: u64,
    /// How many of them the partner accepted.
    pub accepted: u64,
}

fn count_numbered(alloc: Global, log: &[Entry], side: SideId) -> Result<u64, AllocError>
    ensures { IfOk result (λ count. count ≡ length (numbered log.now side)) }
{
    let messages = numbered(alloc, log, side)?;
    Ok(messages.len() as u64)
}

fn count_accepted(log: &[Entry], side: SideId) -> u64
    ensures { result ≡ accepted log.now (partner side) }
{
    accepted(log, partner(side)) as u64
}

fn pending_for(
    alloc: Global,
    who: Who,
    log: &[Entry],
    made: MadeSide<'_>,
) -> Result<Option<Pending>, AllocError>
    ensures { IfOk result (λ found. option_to_list found ≡ pending_in who log.now (making_of made.entry)) }
{
    if destination(who, log, made) != who {
        return Ok(None);
    }
    Ok(Some(Pending {
        side: made.side,
        numbered: count_numbered(alloc, log, made.side)?,
        accepted: count_accepted(log, made.side),
    }))
}

fn push_pending(
    alloc: Global,
    who: Who,
    log: &[Entry],
    made: MadeSide<'_>,
    found: &mut Vec<Pending>,
) -> Result<(), AllocError>
    ensures { OnOk result (found.new.items ≡ found.old.items ++ pending_in who log.now (making_of made.entry)) }
{
    if let Some(pending) = pending_for(alloc, who, log, made)? {
        found.push(pending)?;
    }
    Ok(())
}

/// What is still to be handed over, in the order of the log.
pub fn all_pending(alloc: Global, who: Who, log: &[Entry]) -> Result<Vec<Pending>, AllocError>
    ensures { IfOk result (λ found. found.items ≡ flat_map (pending_in who log.now) (sides log.now)) }
{
    let sides = sides(alloc, log)?;
    let known = sides.as_slice();
    let mut found = Vec::new(alloc);
    for made in known {
        push_pending(alloc, who, log, *made, &mut found)?;
    }
    Ok(found)
}

fn turned(who: Who, header: &Header) -> Result<Header, AllocError>
    ensures { IfOk result (λ sent. sent ≡ turned who header.now) }
{
    Ok(Header {
        from_service: header.to_service.clone()?,
        to_service: header.from_service.clone()?,
        contract: header.contract.clone()?,
        from: instance_id(who),
        to: Some(header.from),
        expires: header.expires,
    })
}

/// The header as the side sends it.
pub fn sent_header(who: Who, made: MadeSide<'_>) -> Result<Header, AllocError>
    ensures { IfOk result (λ header. header ≡ sent_header who (making_of made.entry)) }
{
    if made.side.initiator {
        made.header.clone()
    } else {
        turned(who, made.header)
    }
}

/// The side that the message makes where it has none yet.
pub fn new_side(
    log: &[Entry],
    message: &Data,
    handle: Handle,
    group: Handle,
) -> Result<Option<NewSide>, AllocError>
    ensures { IfOk result (λ new. new ≡ new_made log.now message.now handle group) }
{
    if makes_side(log, message) {
        Ok(Some(NewSide {
            handle,
            group,
            header: message.header.clone()?,
        }))
    } else {
        Ok(None)
    }
}

fn drawn(who: Who, next: u64) -> Handle
    ensures { result ≡ id ((instance_id who).0 + next) }
{
    match who {
        Who::A => Handle(0xa000_0000_0000_0000_0000_0000_0000_0000 + u128::from(next)),
        Who::B => Handle(0xb000_0000_0000_0000_0000_0000_0000_0000 + u128::from(next)),
    }
}

fn carried_for(
    who: Who,
    log: &[Entry],
    side: SideId,
    before: u64,
    made: MadeSide<'_>,
) -> Result<Option<Data>, AllocError>
    requires { before < 2 ^ 64 - 1 }
    ensures { IfOk result (λ message. message ≡ carried_for who log.now side before (making_of made.entry)) }
{
    if destination(who, log, made) != who {
        return Ok(None);
    }
    match message_at(log, side, before) {
        None => Ok(None),
        Some(content) => Ok(Some(Data {
            side: made.side,
            number: before + 1,
            header: sent_header(who, made)?,
            content: content.copied()?,
        })),
    }
}

fn carried_after(
    who: Who,
    log: &[Entry],
    side: SideId,
    before: u64,
) -> Result<Option<Data>, AllocError>
    requires { before < 2 ^ 64 - 1 }
    ensures { IfOk result (λ message. message ≡ carried who log.now side (suc before)) }
{
    match made(log, side) {
        None => Ok(None),
        Some(found) => carried_for(who, log, side, before, found),
    }
}

/// The message of the side with this number, where its partner is on the same instance.
pub fn carried(
    who: Who,
    log: &[Entry],
    side: SideId,
    number: u64,
) -> Result<Option<Data>, AllocError>
    ensures { IfOk result (λ message. message ≡ carried who log.now side number) }
{
    if number == 0 {
        return Ok(None);
    }
    carried_after(who, log, side, number - 1)
}

fn is_carried_for(who: Who, log: &[Entry], side: SideId, before: u64, made: MadeSide<'_>) -> bool
    ensures { result ≡ is_some (carried_for who log.now side before (making_of made.entry)) }
{
    if destination(who, log, made) != who {
        return false;
    }
    match message_at(log, side, before) {
        None => false,
        Some(_) => true,
    }
}

fn is_carried_after(who: Who, log: &[Entry], side: SideId, before: u64) -> bool
    ensures { result ≡ is_some (carried who log.now side (suc before)) }
{
    match made(log, side) {
        None => false,
        Some(found) => is_carried_for(who, log, side, before, found),
    }
}

/// Whether there is such a message.
pub fn is_carried(who: Who, log: &[Entry], side: SideId, number: u64) -> bool
    ensures { result ≡ is_some (carried who log.now side number) }
{
    if number == 0 {
        return false;
    }
    is_carried_after(who, log, side, number - 1)
}

/// The entry of a message that is accepted; a side that it makes draws the next two handles.
pub fn accepted_entry(
    who: Who,
    log: &[Entry],
    next: u64,
    message: Data,
) -> Result<Entry, AllocError>
    ensures { IfOk result (λ entry. entry ≡ accepted_entry log.now (id ((instance_id who).0 + next)) (id ((instance_id who).0 + (next + 1) % 2 ^ 64)) message) }
{
    let handle = drawn(who, next);
    let group = drawn(who, next.wrapping_add(1));
    let made = new_side(log, &message, handle, group)?;
    Ok(Entry::Accepted {
        side: receiver(&message),
        number: message.number,
        made,
        content: message.content,
    })
}
