//! The items of a log, and those that wait in a queue.

ghost use Rattle.std.specs.Prelude.{◌≡◌, ◌==◌, ◌++◌, None, Some, IfOk, OnOk, filter, flat_map, map, option_map, option_to_list};
ghost use Rattle.std.specs.List.{list_any};
ghost use Rattle.sb_model.specs.Sides.{ops_of};
ghost use Rattle.sb_model.specs.Items.{is_taken, item_of, items, taken_by, waiting, waits_at};
ghost use Rattle.sb_scan.specs.Shown.{item_seen, source_message};

use crate::queue::queue_of;
use crate::sent::{is_cleaned, is_ended};
use crate::xml::{error_body, lifetime_body};
use sb_log::{Content, Entry, Item, Kind, Msg, Name, Op, SideId};
use std::alloc::{AllocError, Global};

/// What brought an item.
#[derive(Clone, Copy)]
pub enum Source<'a> {
    Content(&'a Content),
    Timer,
    Lifetime,
}

/// An item, as it stands in the log.
#[derive(Clone, Copy)]
pub struct SeenItem<'a> {
    pub number: u64,
    pub side: SideId,
    pub sequence: u64,
    pub source: Source<'a>,
}

fn message(alloc: Global, source: Source<'_>) -> Result<Msg, AllocError>
    ensures { IfOk result (λ message. message ≡ source_message source.entry) }
{
    match source {
        Source::Content(Content::App { kind, body }) => Ok(Msg {
            kind: Kind::App(kind.clone()?),
            body: body.clone()?,
        }),
        Source::Content(Content::EndDialog) => Ok(Msg {
            kind: Kind::EndDialog,
            body: None,
        }),
        Source::Content(Content::Error { code, text }) => Ok(Msg {
            kind: Kind::Error,
            body: Some(error_body(alloc, *code, text)?),
        }),
        Source::Timer => Ok(Msg {
            kind: Kind::DialogTimer,
            body: None,
        }),
        Source::Lifetime => Ok(Msg {
            kind: Kind::Error,
            body: Some(lifetime_body(alloc)?),
        }),
    }
}

impl SeenItem<'_> {
    /// The item with its message.
    pub fn copied(self, alloc: Global) -> Result<Item, AllocError>
        ensures { IfOk result (λ item. item ≡ item_seen self.entry) }
    {
        Ok(Item {
            number: self.number,
            side: self.side,
            sequence: self.sequence,
            message: message(alloc, self.source)?,
        })
    }
}

/// The item that the entry brings, with the number that it gets.
pub fn item_in(entry: &Entry, number: u64) -> Option<SeenItem<'_>>
    ensures { option_map item_seen result ≡ item_of number entry.now }
{
    match entry {
        Entry::Accepted {
            side,
            number: sequence,
            content,
            ..
        } => Some(SeenItem {
            number,
            side: *side,
            sequence: *sequence,
            source: Source::Content(content),
        }),
        Entry::Fired { side } => Some(SeenItem {
            number,
            side: *side,
            sequence: 0,
            source: Source::Timer,
        }),
        Entry::Expired { side } => Some(SeenItem {
            number,
            side: *side,
            sequence: 0,
            source: Source::Lifetime,
        }),
        _ => None,
    }
}

/// The items of the log, in its order.
pub fn items(alloc: Global, log: &[Entry]) -> Result<Vec<SeenItem<'_>>, AllocError>
    ensures { IfOk result (λ found. map item_seen found.items ≡ items log.now) }
{
    let mut found = Vec::new(alloc);
    let mut number = 1;
    for entry in log {
        if let Some(item) = item_in(entry, number) {
            found.push(item)?;
            number += 1;
        }
    }
    Ok(found)
}

fn ops_take(ops: &[Op], number: u64) -> bool
    ensures { result ≡ list_any (λ n. n == number) (flat_map taken_by ops.now) }
{
    for op in ops {
        if let Op::Took { item, .. } = op {
            if *item == number {
                return true;
            }
        }
    }
    false
}

/// Whether the item was taken.
pub fn is_taken(log: &[Entry], number: u64) -> bool
    ensures { result ≡ is_taken log.now number }
{
    for entry in log {
        if let Entry::Txn { ops, .. } = entry {
            if ops_take(ops.as_slice(), number) {
                return true;
            }
        }
    }
    false
}

/// Whether an item of the side with this number waits in the queue.
#[tactic(auto, unfolding(sb_model::specs::Items::waits_at))]
pub fn waits_at(log: &[Entry], queue: &Name, side: SideId, number: u64) -> bool
    ensures { result ≡ waits_at log.now queue.now side number }
{
    let Some(own) = queue_of(log, side) else {
        return false;
    };
    *own == *queue && !is_taken(log, number) && !is_ended(log, side) && !is_cleaned(log, side)
}

/// The items that wait in the queue, in the order of the log.
pub fn waiting<'a>(
    alloc: Global,
    log: &'a [Entry],
    queue: &Name,
) -> Result<Vec<SeenItem<'a>>, AllocError>
    ensures { IfOk result (λ found. map item_seen found.items ≡ waiting log.now queue.now) }
{
    let mut found = Vec::new(alloc);
    let mut number = 1;
    for entry in log {
        if let Some(item) = item_in(entry, number) {
            if waits_at(log, queue, item.side, number) {
                found.push(item)?;
            }
            number += 1;
        }
    }
    Ok(found)
}
