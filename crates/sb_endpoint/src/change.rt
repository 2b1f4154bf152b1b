//! What an entry says of one side.

ghost use Rattle.std.specs.Prelude.{◌≡◌, ◌≤◌, length, not};
ghost use Rattle.sb_model.specs.Messages.{final_content};
ghost use Rattle.sb_model.specs.States.{is_empty, is_end_dialog, is_error};
ghost use Rattle.sb_endpoint.specs.Changes.{begun, changes_of};

use crate::endpoint::Made;
use sb_log::{Content, Entry, Final, GroupId, Handle, SideId};

/// What an entry says of one side.
#[derive(Clone, Copy)]
pub(crate) enum Change {
    Made(Made),
    Moved(GroupId),
    Sent,
    Ended { has_final: bool },
    Cleaned,
    Expired,
    Accepted { is_end: bool, is_error: bool },
    Acked { upto: u64, closed: bool },
}

/// The side that a dialog with this handle begins with.
pub(crate) fn begun(handle: Handle) -> SideId
    ensures { result ≡ begun handle }
{
    SideId {
        conversation: handle,
        initiator: true,
    }
}

/// Whether the end sends a final message.
pub(crate) fn has_final(last: &Final) -> bool
    ensures { result ≡ not (is_empty (final_content last.now)) }
{
    match last {
        Final::Silent => false,
        Final::EndDialog | Final::Error { .. } => true,
    }
}

pub(crate) fn is_end_dialog(content: &Content) -> bool
    ensures { result ≡ is_end_dialog content.now }
{
    match content {
        Content::EndDialog => true,
        _ => false,
    }
}

pub(crate) fn is_error(content: &Content) -> bool
    ensures { result ≡ is_error content.now }
{
    match content {
        Content::Error { .. } => true,
        _ => false,
    }
}

/// No fewer than the changes that the entry brings.
pub(crate) fn most_changes(entry: &Entry) -> usize
    ensures { length (changes_of entry.now) ≤ result }
{
    match entry {
        Entry::Txn { ops, .. } => ops.len(),
        _ => 2,
    }
}
