//! What is known of a side while its messages are handed over one after the other.

ghost use Rattle.std.specs.Prelude.{◌≡◌, ◌+◌, IfOk, IfSome, IsTrue, drop};
ghost use Rattle.sb_log.specs.declared.steps.Verdict.TheVariants.{Next};
ghost use Rattle.sb_model.specs.Acceptance.{is_empty_type, is_type_refused};
ghost use Rattle.sb_model.specs.Messages.{numbered};
ghost use Rattle.sb_scan.specs.Terms.{is_sent_by};
ghost use Rattle.sb_instance.specs.Carrying.{IsBehind};

use sb_log::{Content, Data, Entry, Name, SideId, Verdict};
use sb_scan::{find_contract, find_message_type, may_be_sent_by, numbered, sender_of};
use std::alloc::{AllocError, Global};
use std::collections::VecDeque;

/// A side whose last message was taken in, and its messages behind that one.
#[derive(Drop)]
pub struct Carrying {
    pub side: SideId,
    /// The number of the message that was taken in.
    pub number: u64,
    pub contract: Name,
    pub rest: VecDeque<Content>,
}

impl Carrying {
    /// Whether the message of this side with this number comes next.
    pub fn is_before(&self, side: SideId, number: u64) -> bool
        ensures { IsTrue result → (self.now.side ≡ side) × (number ≡ self.now.number + 1) }
    {
        self.side == side && number != 0 && self.number == number - 1
    }
}

fn messages_behind(
    alloc: Global,
    log: &[Entry],
    side: SideId,
    count: u64,
) -> Result<VecDeque<Content>, AllocError>
    ensures { IfOk result (λ rest. rest.items ≡ drop count (numbered log.now side)) }
{
    let messages = numbered(alloc, log, side)?;
    let all = messages.as_slice();
    let mut rest = VecDeque::new(alloc);
    for place in (count as usize)..all.len() {
        rest.push_back(all[place].copied()?)?;
    }
    Ok(rest)
}

fn carrying_behind(alloc: Global, log: &[Entry], message: &Data) -> Result<Carrying, AllocError>
    ensures { IfOk result (IsBehind log.now message.now) }
{
    Ok(Carrying {
        side: message.side,
        number: message.number,
        contract: message.header.contract.clone()?,
        rest: messages_behind(alloc, log, message.side, message.number)?,
    })
}

/// What is known of the side behind a message that is taken in. Where memory is wanting,
/// nothing is.
pub fn behind(alloc: Global, log: &[Entry], message: &Data, given: Verdict) -> Option<Carrying>
    ensures next { IfSome result (λ known. given ≡ Next) }
    ensures known { IfSome result (IsBehind log.now message.now) }
{
    match given {
        Verdict::Next => match carrying_behind(alloc, log, message) {
            Err(_) => None,
            Ok(known) => Some(known),
        },
        _ => None,
    }
}

fn is_sent_by(log: &[Entry], contract: &Name, kind: &Name, initiator: bool) -> bool
    ensures { result ≡ is_sent_by log.now contract.now kind.now initiator }
{
    match find_contract(log, contract) {
        None => false,
        Some(found) => match sender_of(found, kind) {
            None => false,
            Some(by) => may_be_sent_by(by, initiator),
        },
    }
}

fn is_empty_type(log: &[Entry], name: &Name) -> bool
    ensures { result ≡ is_empty_type log.now name.now }
{
    match find_message_type(log, name) {
        None => false,
        Some(found) => found.is_empty(),
    }
}

/// Whether the contract or the type of the message refuses it.
pub fn is_type_refused(log: &[Entry], from: SideId, contract: &Name, content: &Content) -> bool
    ensures { result ≡ is_type_refused log.now from contract.now content.now }
{
    match content {
        Content::App { kind, body } => {
            !is_sent_by(log, contract, kind, from.initiator)
                || (is_empty_type(log, kind) && body.is_some())
        }
        _ => false,
    }
}
