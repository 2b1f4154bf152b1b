//! What a side received.

ghost use Rattle.std.specs.Prelude.{◌≡◌, ◌++◌, IfOk, OnOk, filter_map, flat_map, map, option_map, option_to_list};
ghost use Rattle.sb_model.specs.Sides.{ops_of_entry};
ghost use Rattle.sb_model.specs.Items.{item_at, received_content, receives, taken_by};
ghost use Rattle.sb_scan.specs.Seen.{content_seen};
ghost use Rattle.sb_scan.specs.Shown.{item_seen};

use crate::item::{SeenItem, Source, item_in};
use crate::sent::SeenContent;
use sb_log::{Content, Entry, Op, SideId};
use std::alloc::{AllocError, Global};

/// The item with this number.
pub fn item_at(log: &[Entry], number: u64) -> Option<SeenItem<'_>>
    ensures { option_map item_seen result ≡ item_at log.now number }
{
    let mut next = 1;
    for entry in log {
        if let Some(item) = item_in(entry, next) {
            if next == number {
                return Some(item);
            }
            next += 1;
        }
    }
    None
}

fn received<'a>(item: SeenItem<'a>, side: SideId) -> Option<SeenContent<'a>>
    ensures { option_to_list (option_map content_seen result) ≡ received_content side (item_seen item.entry) }
{
    if item.side != side {
        return None;
    }
    match item.source {
        Source::Content(Content::App { kind, body }) => Some(SeenContent::App { kind, body }),
        _ => None,
    }
}

fn received_by<'a>(log: &'a [Entry], op: &Op, side: SideId) -> Option<SeenContent<'a>>
    ensures { option_to_list (option_map content_seen result) ≡ flat_map (received_content side) (filter_map (item_at log.now) (taken_by op.now)) }
{
    match op {
        Op::Took { item, .. } => match item_at(log, *item) {
            None => None,
            Some(found) => received(found, side),
        },
        _ => None,
    }
}

fn push_received<'a>(
    contents: &mut Vec<SeenContent<'a>>,
    log: &'a [Entry],
    ops: &[Op],
    side: SideId,
) -> Result<(), AllocError>
    ensures { OnOk result (map content_seen contents.new.items ≡ map content_seen contents.old.items ++ flat_map (received_content side) (filter_map (item_at log.now) (flat_map taken_by ops.now))) }
{
    for op in ops {
        if let Some(content) = received_by(log, op, side) {
            contents.push(content)?;
        }
    }
    Ok(())
}

fn push_received_in<'a>(
    contents: &mut Vec<SeenContent<'a>>,
    log: &'a [Entry],
    entry: &Entry,
    side: SideId,
) -> Result<(), AllocError>
    ensures { OnOk result (map content_seen contents.new.items ≡ map content_seen contents.old.items ++ flat_map (received_content side) (filter_map (item_at log.now) (flat_map taken_by (ops_of_entry entry.now)))) }
{
    match entry {
        Entry::Txn { ops, .. } => push_received(contents, log, ops.as_slice(), side),
        _ => Ok(()),
    }
}

/// The application messages of the side that were received, in the order in which they
/// were taken.
pub fn receives(
    alloc: Global,
    log: &[Entry],
    side: SideId,
) -> Result<Vec<SeenContent<'_>>, AllocError>
    ensures { IfOk result (λ contents. map content_seen contents.items ≡ receives log.now side) }
{
    let mut contents = Vec::new(alloc);
    for entry in log {
        push_received_in(&mut contents, log, entry, side)?;
    }
    Ok(contents)
}
