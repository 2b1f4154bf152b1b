//! The state of a conversation endpoint.

ghost use Rattle.std.specs.Prelude.{◌≡◌, not, drop};
ghost use Rattle.std.specs.List.{list_any};
ghost use Rattle.sb_model.specs.Messages.{acked, contents_accepted, final_sent, numbered, sends};
ghost use Rattle.sb_model.specs.States.{
  is_done,
  is_empty,
  is_end_dialog,
  is_error,
  is_final,
  may_end,
  may_send,
  state_of,
};

use crate::sent::{
    acked, final_sent, is_cleaned, is_closed_by_ack, is_ended, is_expired, message_at, sent_at,
};
use sb_log::{Content, Entry, SideId, State};

/// Whether the content ends a dialog, with or without an error.
pub fn is_final(content: &Content) -> bool
    ensures { result ≡ is_final content.now }
{
    match content {
        Content::App { .. } => false,
        _ => true,
    }
}

fn is_error(content: &Content) -> bool
    ensures { result ≡ is_error content.now }
{
    match content {
        Content::Error { .. } => true,
        _ => false,
    }
}

fn is_end_dialog(content: &Content) -> bool
    ensures { result ≡ is_end_dialog content.now }
{
    match content {
        Content::EndDialog => true,
        _ => false,
    }
}

/// Whether the partner's final message was accepted.
pub fn has_accepted_final(log: &[Entry], side: SideId) -> bool
    ensures { result ≡ list_any is_final (contents_accepted log.now side) }
{
    for entry in log {
        if let Entry::Accepted {
            side: own,
            content,
            ..
        } = entry
        {
            if *own == side {
                if is_final(content) {
                    return true;
                }
            }
        }
    }
    false
}

fn has_accepted_error(log: &[Entry], side: SideId) -> bool
    ensures { result ≡ list_any is_error (contents_accepted log.now side) }
{
    for entry in log {
        if let Entry::Accepted {
            side: own,
            content,
            ..
        } = entry
        {
            if *own == side {
                if is_error(content) {
                    return true;
                }
            }
        }
    }
    false
}

fn has_accepted_end(log: &[Entry], side: SideId) -> bool
    ensures { result ≡ list_any is_end_dialog (contents_accepted log.now side) }
{
    for entry in log {
        if let Entry::Accepted {
            side: own,
            content,
            ..
        } = entry
        {
            if *own == side {
                if is_end_dialog(content) {
                    return true;
                }
            }
        }
    }
    false
}

fn has_accepted_nothing(log: &[Entry], side: SideId) -> bool
    ensures { result ≡ is_empty (contents_accepted log.now side) }
{
    for entry in log {
        if let Entry::Accepted { side: own, .. } = entry {
            if *own == side {
                return false;
            }
        }
    }
    true
}

fn has_sent_nothing(log: &[Entry], side: SideId) -> bool
    ensures { result ≡ is_empty (sends log.now side) }
{
    match sent_at(log, side, 0) {
        Ok(_) => false,
        Err(_) => true,
    }
}

fn has_no_final(log: &[Entry], side: SideId) -> bool
    ensures { result ≡ is_empty (final_sent log.now side) }
{
    match final_sent(log, side) {
        Some(_) => false,
        None => true,
    }
}

fn is_all_acked(log: &[Entry], side: SideId) -> bool
    ensures { result ≡ is_empty (drop (acked log.now side) (numbered log.now side)) }
{
    let upto = acked(log, side);
    match message_at(log, side, upto) {
        Some(_) => false,
        None => true,
    }
}

/// Whether nothing of an ended side is left to be sent or heard.
pub fn is_done(log: &[Entry], side: SideId) -> bool
    ensures { result ≡ is_done log.now side }
{
    has_no_final(log, side)
        || is_all_acked(log, side)
        || is_closed_by_ack(log, side)
        || has_accepted_final(log, side)
        || is_expired(log, side)
}

/// The state of the side, as `sys.conversation_endpoints` has it.
pub fn state_of(log: &[Entry], side: SideId) -> State
    ensures { result ≡ state_of log.now side }
{
    let ended = is_ended(log, side);
    if is_cleaned(log, side) || (ended && is_done(log, side)) {
        State::CD
    } else if ended {
        State::DO
    } else if has_accepted_error(log, side) || is_expired(log, side) {
        State::ER
    } else if has_accepted_end(log, side) {
        State::DI
    } else if side.initiator && has_sent_nothing(log, side) && has_accepted_nothing(log, side) {
        State::SO
    } else {
        State::CO
    }
}

/// Whether a side in this state may send.
pub fn may_send(state: State) -> bool
    ensures { result ≡ may_send state }
{
    match state {
        State::SO | State::CO => true,
        _ => false,
    }
}

/// Whether a side in this state may be ended, moved or given a timer.
pub fn may_end(state: State) -> bool
    ensures { result ≡ may_end state }
{
    match state {
        State::SO | State::CO | State::DI | State::ER => true,
        _ => false,
    }
}
