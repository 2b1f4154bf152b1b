//! What an instance needs to know of a side for a RECEIVE, computed once a side.

ghost use Rattle.std.specs.Prelude.{◌≡◌, IfOk, IfSome, Some};
ghost use Rattle.std.specs.List.{All, Contains};
ghost use Rattle.std.specs.Option.{option_eq};
ghost use Rattle.sb_model.specs.Sides.{same_name};
ghost use Rattle.sb_model.specs.Items.{queue_of};
ghost use Rattle.sb_model.specs.Groups.{group_of};
ghost use Rattle.sb_instance.specs.Candidates.{facts_of, handle_of, named_side, passes_side};

use sb_log::{Entry, Filter, GroupId, Handle, Name, SideId};
use sb_scan::{group_of, is_cleaned, is_ended, level_of, made, queue_of, side_of};
use std::alloc::{AllocError, Global};

/// What a RECEIVE needs to know of a side.
#[derive(Clone, Copy, Drop)]
pub struct Facts {
    pub side: SideId,
    /// Whether the side's items that nobody took are candidates.
    pub is_admitted: bool,
    pub handle: Handle,
    pub group: Option<GroupId>,
    pub level: u64,
}

/// The side that a filter by a conversation names.
pub fn named_side(
    alloc: Global,
    log: &[Entry],
    filter: Filter,
) -> Result<Option<SideId>, AllocError>
    ensures { IfOk result (λ side. side ≡ named_side log.now filter) }
{
    match filter {
        Filter::Side(handle) => side_of(alloc, log, handle),
        _ => Ok(None),
    }
}

fn passes_side(
    log: &[Entry],
    filter: Filter,
    named: Option<SideId>,
    side: SideId,
    group: Option<GroupId>,
) -> bool
    requires named { named ≡ named_side log.now filter }
    requires grouped { group ≡ group_of log.now side }
    ensures { result ≡ passes_side log.now filter side }
{
    match filter {
        Filter::All => true,
        Filter::Side(_) => named == Some(side),
        Filter::Group(wanted) => group == Some(wanted),
    }
}

fn is_in_queue(log: &[Entry], queue: &Name, side: SideId) -> bool
    ensures { result ≡ option_eq same_name (queue_of log.now side) (Some queue.now) }
{
    match queue_of(log, side) {
        None => false,
        Some(own) => *own == *queue,
    }
}

fn handle_of(log: &[Entry], side: SideId) -> Handle
    ensures { result ≡ handle_of log.now side }
{
    match made(log, side) {
        None => side.conversation,
        Some(found) => found.handle,
    }
}

fn found_out(
    log: &[Entry],
    queue: &Name,
    filter: Filter,
    named: Option<SideId>,
    side: SideId,
) -> Facts
    requires named { named ≡ named_side log.now filter }
    ensures { result ≡ facts_of log.now queue.now filter side }
{
    let group = group_of(log, side);
    let is_admitted = is_in_queue(log, queue, side)
        && !is_ended(log, side)
        && !is_cleaned(log, side)
        && passes_side(log, filter, named, side, group)
        && group.is_some();
    Facts {
        side,
        is_admitted,
        handle: handle_of(log, side),
        group,
        level: level_of(log, side),
    }
}

fn recalled(known: &[Facts], side: SideId) -> Option<Facts>
    ensures known { IfSome result (Contains known.now) }
    ensures side { IfSome result (λ f. f.side ≡ side) }
{
    for facts in known {
        if facts.side == side {
            return Some(*facts);
        }
    }
    None
}

/// What is known of the side, or is found out now.
pub fn facts_for(
    log: &[Entry],
    queue: &Name,
    filter: Filter,
    named: Option<SideId>,
    known: &mut Vec<Facts>,
    side: SideId,
) -> Result<Facts, AllocError>
    requires named { named ≡ named_side log.now filter }
    requires known { All (λ f. f ≡ facts_of log.now queue.now filter f.side) known.old.items }
    ensures found { IfOk result (λ f. f ≡ facts_of log.now queue.now filter side) }
    ensures known { All (λ f. f ≡ facts_of log.now queue.now filter f.side) known.new.items }
{
    if let Some(found) = recalled(known.as_slice(), side) {
        return Ok(found);
    }
    let found = found_out(log, queue, filter, named, side);
    known.push(found)?;
    Ok(found)
}
