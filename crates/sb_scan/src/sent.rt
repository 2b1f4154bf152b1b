//! What a log says of the messages of one side: sent, ended, accepted, acknowledged,
//! numbered and outgoing.

ghost use Rattle.std.specs.Prelude.{◌≡◌, ◌+◌, ◌^◌, ◌<◌, Some, vec_len, IfOk, OnOk, flat_map, fold, max, map, option_map, option_to_list, slice_get, is_some, ◌++◌, drop};
ghost use Rattle.std.specs.List.{list_any};
ghost use Rattle.sb_model.specs.Sides.{ops_of, ops_of_entry};
ghost use Rattle.sb_model.specs.Messages.{
  accepted,
  acked,
  cleans,
  content_of_send,
  end_of_op,
  ends_side,
  final_content,
  final_sent,
  first_of,
  is_cleaned,
  is_closed,
  is_closed_by_ack,
  is_ended,
  is_expired,
  numbered,
  outgoing,
  sends,
};
ghost use Rattle.sb_scan.specs.Seen.{content_seen, nth_or_left, reached};

use sb_log::{Body, Content, Entry, Final, Name, Op, SideId, Text};
use std::alloc::{AllocError, Global};

/// A message of a side, as it stands in the log.
#[derive(Clone, Copy)]
pub enum SeenContent<'a> {
    App {
        kind: &'a Name,
        body: &'a Option<Body>,
    },
    EndDialog,
    Error {
        code: u32,
        text: &'a Text,
    },
}

impl SeenContent<'_> {
    /// A copy of the message.
    pub fn copied(self) -> Result<Content, AllocError>
        ensures { IfOk result (λ content. content ≡ content_seen self.entry) }
    {
        match self {
            SeenContent::App { kind, body } => Ok(Content::App {
                kind: kind.clone()?,
                body: body.clone()?,
            }),
            SeenContent::EndDialog => Ok(Content::EndDialog),
            SeenContent::Error { code, text } => Ok(Content::Error {
                code,
                text: text.clone()?,
            }),
        }
    }
}

/// The message that an operation sends from the side.
pub fn sent_by(op: &Op, side: SideId) -> Option<SeenContent<'_>>
    ensures { option_to_list (option_map content_seen result) ≡ content_of_send side op.now }
{
    match op {
        Op::Send {
            side: own,
            kind,
            body,
        } => {
            if *own == side {
                Some(SeenContent::App { kind, body })
            } else {
                None
            }
        }
        _ => None,
    }
}

#[tactic(auto, using(crate::proofs::Looking::nth))]
fn sent_among(ops: &[Op], side: SideId, n: u64) -> Result<SeenContent<'_>, u64>
    ensures { reached result ≡ nth_or_left (flat_map (content_of_send side) ops.now) n }
{
    let mut left = n;
    for op in ops {
        if let Some(message) = sent_by(op, side) {
            if left == 0 {
                return Ok(message);
            }
            left -= 1;
        }
    }
    Err(left)
}

fn sent_in(entry: &Entry, side: SideId, n: u64) -> Result<SeenContent<'_>, u64>
    ensures { reached result ≡ nth_or_left (flat_map (content_of_send side) (ops_of_entry entry.now)) n }
{
    match entry {
        Entry::Txn { ops, .. } => sent_among(ops.as_slice(), side, n),
        _ => Err(n),
    }
}

/// The n-th message that the side sent, from 0, or how many more were to be passed by
/// than there are.
pub fn sent_at(log: &[Entry], side: SideId, n: u64) -> Result<SeenContent<'_>, u64>
    ensures { reached result ≡ nth_or_left (sends log.now side) n }
{
    let mut left = n;
    for entry in log {
        left = match sent_in(entry, side, left) {
            Ok(message) => return Ok(message),
            Err(more) => more,
        };
    }
    Err(left)
}

/// The final message of an end.
pub fn final_content(last: &Final) -> Option<SeenContent<'_>>
    ensures { option_to_list (option_map content_seen result) ≡ final_content last.now }
{
    match last {
        Final::Silent => None,
        Final::EndDialog => Some(SeenContent::EndDialog),
        Final::Error { code, text } => Some(SeenContent::Error { code: *code, text }),
    }
}

fn final_by(op: &Op, side: SideId) -> Option<SeenContent<'_>>
    ensures { option_to_list (option_map content_seen result) ≡ flat_map final_content (end_of_op side op.now) }
{
    match op {
        Op::End { side: own, last } => {
            if *own == side {
                final_content(last)
            } else {
                None
            }
        }
        _ => None,
    }
}

fn final_among(ops: &[Op], side: SideId) -> Option<SeenContent<'_>>
    ensures { option_to_list (option_map content_seen result) ≡ first_of (flat_map final_content (flat_map (end_of_op side) ops.now)) }
{
    for op in ops {
        if let Some(last) = final_by(op, side) {
            return Some(last);
        }
    }
    None
}

/// The final message of the first end that has one.
pub fn final_sent(log: &[Entry], side: SideId) -> Option<SeenContent<'_>>
    ensures { option_to_list (option_map content_seen result) ≡ final_sent log.now side }
{
    for entry in log {
        if let Entry::Txn { ops, .. } = entry {
            if let Some(last) = final_among(ops.as_slice(), side) {
                return Some(last);
            }
        }
    }
    None
}

/// The message of the side with the number n + 1.
pub fn message_at(log: &[Entry], side: SideId, n: u64) -> Option<SeenContent<'_>>
    ensures { option_map content_seen result ≡ slice_get (numbered log.now side) n }
{
    match sent_at(log, side, n) {
        Ok(message) => Some(message),
        Err(0) => final_sent(log, side),
        Err(_) => None,
    }
}

fn push_sent<'a>(
    messages: &mut Vec<SeenContent<'a>>,
    ops: &'a [Op],
    side: SideId,
) -> Result<(), AllocError>
    ensures { OnOk result (map content_seen messages.new.items ≡ map content_seen messages.old.items ++ flat_map (content_of_send side) ops.now) }
{
    for op in ops {
        if let Some(message) = sent_by(op, side) {
            messages.push(message)?;
        }
    }
    Ok(())
}

/// What the side sent, in order.
pub fn sends(alloc: Global, log: &[Entry], side: SideId) -> Result<Vec<SeenContent<'_>>, AllocError>
    ensures { IfOk result (λ messages. map content_seen messages.items ≡ sends log.now side) }
{
    let mut messages = Vec::new(alloc);
    for entry in log {
        if let Entry::Txn { ops, .. } = entry {
            push_sent(&mut messages, ops.as_slice(), side)?;
        }
    }
    Ok(messages)
}

/// The messages of the side, numbered from 1.
pub fn numbered(
    alloc: Global,
    log: &[Entry],
    side: SideId,
) -> Result<Vec<SeenContent<'_>>, AllocError>
    ensures { IfOk result (λ messages. map content_seen messages.items ≡ numbered log.now side) }
{
    let mut messages = sends(alloc, log, side)?;
    if let Some(last) = final_sent(log, side) {
        messages.push(last)?;
    }
    Ok(messages)
}

/// The messages behind the first `count`.
fn behind<'a>(
    alloc: Global,
    messages: &[SeenContent<'a>],
    count: usize,
) -> Result<Vec<SeenContent<'a>>, AllocError>
    ensures { IfOk result (λ rest. rest.items ≡ drop count messages.now) }
{
    if count < messages.len() {
        Vec::from_slice(alloc, &messages[count..])
    } else {
        Ok(Vec::new(alloc))
    }
}

fn unacked(alloc: Global, log: &[Entry], side: SideId) -> Result<Vec<SeenContent<'_>>, AllocError>
    ensures rest { IfOk result (λ messages. map content_seen messages.items ≡ drop (acked log.now side) (numbered log.now side)) }
    ensures numbers { IfOk result (λ messages. 0 < vec_len messages → acked log.now side + vec_len messages < 2 ^ 64) }
{
    let messages = numbered(alloc, log, side)?;
    let rest = behind(alloc, messages.as_slice(), acked(log, side) as usize)?;
    Ok(rest)
}

/// The messages of the side that are still to be sent.
pub fn outgoing(
    alloc: Global,
    log: &[Entry],
    side: SideId,
) -> Result<Vec<SeenContent<'_>>, AllocError>
    ensures rest { IfOk result (λ messages. map content_seen messages.items ≡ outgoing log.now side) }

    // The number of the last one, of any, is a `u64`.
    ensures numbers { IfOk result (λ messages. 0 < vec_len messages → acked log.now side + vec_len messages < 2 ^ 64) }
{
    if is_cleaned(log, side) || is_expired(log, side) || is_closed_by_ack(log, side) {
        Ok(Vec::new(alloc))
    } else {
        unacked(alloc, log, side)
    }
}

fn ops_clean(ops: &[Op], side: SideId) -> bool
    ensures { result ≡ list_any (cleans side) ops.now }
{
    for op in ops {
        if let Op::Cleanup { side: own } = op {
            if *own == side {
                return true;
            }
        }
    }
    false
}

/// Whether the side was cleaned.
pub fn is_cleaned(log: &[Entry], side: SideId) -> bool
    ensures { result ≡ is_cleaned log.now side }
{
    for entry in log {
        if let Entry::Txn { ops, .. } = entry {
            if ops_clean(ops.as_slice(), side) {
                return true;
            }
        }
    }
    false
}

fn ops_end(ops: &[Op], side: SideId) -> bool
    ensures { result ≡ list_any (ends_side side) ops.now }
{
    for op in ops {
        if let Op::End { side: own, .. } = op {
            if *own == side {
                return true;
            }
        }
    }
    false
}

/// Whether the side was ended.
pub fn is_ended(log: &[Entry], side: SideId) -> bool
    ensures { result ≡ is_ended log.now side }
{
    for entry in log {
        if let Entry::Txn { ops, .. } = entry {
            if ops_end(ops.as_slice(), side) {
                return true;
            }
        }
    }
    false
}

/// Whether the side's lifetime has passed.
pub fn is_expired(log: &[Entry], side: SideId) -> bool
    ensures { result ≡ is_expired log.now side }
{
    for entry in log {
        if let Entry::Expired { side: own } = entry {
            if *own == side {
                return true;
            }
        }
    }
    false
}

/// How many messages the side accepted.
pub fn accepted(log: &[Entry], side: SideId) -> usize
    ensures { result ≡ accepted log.now side }
{
    let mut count = 0;
    for entry in log {
        if let Entry::Accepted { side: own, .. } = entry {
            if *own == side {
                count += 1;
            }
        }
    }
    count
}

/// The greatest number of the side's messages that was acknowledged.
pub fn acked(log: &[Entry], side: SideId) -> u64
    ensures { result ≡ acked log.now side }
{
    let mut most = 0;
    for entry in log {
        if let Entry::Acked {
            side: own,
            upto,
            ..
        } = entry
        {
            if *own == side {
                most = most.max(*upto);
            }
        }
    }
    most
}

/// Whether the partner was told to have closed.
pub fn is_closed_by_ack(log: &[Entry], side: SideId) -> bool
    ensures { result ≡ is_closed_by_ack log.now side }
{
    for entry in log {
        if let Entry::Acked {
            side: own,
            closed,
            ..
        } = entry
        {
            if *own == side && *closed {
                return true;
            }
        }
    }
    false
}

/// Whether the side has an end, a cleanup or an expiry.
pub fn is_closed(log: &[Entry], side: SideId) -> bool
    ensures { result ≡ is_closed log.now side }
{
    is_ended(log, side) || is_cleaned(log, side) || is_expired(log, side)
}
