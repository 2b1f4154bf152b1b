//! The messages that a RECEIVE may take.

ghost use Rattle.std.specs.Prelude.{◌≡◌, None, IfOk, filter, filter_map, flat_map, map};
ghost use Rattle.std.specs.List.{last_or, list_any};
ghost use Rattle.sb_model.specs.Groups.{group_moved};
ghost use Rattle.sb_pick.specs.Inside.{ArePlaced, seen, seen_in};
ghost use Rattle.sb_pick.specs.Offered.{is_free, offered};
ghost use Rattle.sb_pick.specs.Picked.{admits, is_free_for, withdraws};

use crate::stored::Stored;
use sb_log::{Filter, GroupId, Handle, Held, Item, Name, Op, SideId};
use std::alloc::{AllocError, Global};

/// What a message's place in the order and its group depend on.
#[derive(Clone, Copy)]
pub(crate) struct Candidate {
    pub number: u64,
    pub group: GroupId,
    pub level: u8,
}

fn withdraws(op: &Op, item: &Item) -> bool
    ensures { result ≡ withdraws item.now op.now }
{
    match op {
        Op::Took { item: number, .. } => *number == item.number,
        Op::End { side, .. } => *side == item.side,
        Op::Cleanup { side } => *side == item.side,
        _ => false,
    }
}

fn is_withdrawn(taken: &[Op], item: &Item) -> bool
    ensures { result ≡ list_any (withdraws item.now) taken.now }
{
    taken.iter().any(|op| withdraws(op, item))
}

/// The group of the side's last move.
fn last_moved(taken: &[Op], side: SideId) -> Option<GroupId>
    ensures { result ≡ last_or None (flat_map (group_moved side) taken.now) }
{
    let mut last = None;
    for op in taken {
        if let Op::Move { side: own, group } = op {
            if *own == side {
                last = Some(*group);
            }
        }
    }
    last
}

fn admits(filter: &Filter, handle: Handle, group: GroupId) -> bool
    ensures { result ≡ admits filter.now handle group }
{
    match filter {
        Filter::All => true,
        Filter::Side(wanted) => handle == *wanted,
        Filter::Group(wanted) => group == *wanted,
    }
}

/// The message as the transaction sees it, where the filter admits it and the transaction
/// hasn't withdrawn it.
fn offered(
    stored: &Stored,
    own: &Name,
    queue: &Name,
    filter: &Filter,
    taken: &[Op],
) -> Option<Candidate>
    ensures { result ≡ offered queue.now filter.now taken.now (seen_in own.now stored.now) }
{
    if *own != *queue || is_withdrawn(taken, &stored.item) {
        return None;
    }
    let group = last_moved(taken, stored.item.side).unwrap_or(stored.group);
    if admits(filter, stored.handle, group) {
        Some(Candidate {
            number: stored.item.number,
            group,
            level: stored.level,
        })
    } else {
        None
    }
}

/// The messages of the queue that the filter admits and the transaction hasn't withdrawn.
pub(crate) fn candidates(
    alloc: Global,
    names: &[Name],
    waiting: &[Stored],
    queue: &Name,
    filter: &Filter,
    taken: &[Op],
) -> Result<Vec<Candidate>, AllocError>
    requires { ArePlaced names.now waiting.now }
    ensures { IfOk result (λ found. found.items ≡ filter_map (offered queue.now filter.now taken.now) (map (seen names.now) waiting.now)) }
{
    let mut found = Vec::new(alloc);
    for stored in waiting {
        let own = &names[stored.place];
        if let Some(candidate) = offered(stored, own, queue, filter, taken) {
            found.push(candidate)?;
        }
    }
    Ok(found)
}

fn is_free<H: Held>(locks: &H, group: GroupId, tx: u64) -> bool
    ensures { result ≡ is_free_for tx (H.held_by locks.now group) }
{
    match locks.holder(group) {
        None => true,
        Some(holder) => holder == tx,
    }
}

/// Keeps those whose group no other transaction holds.
pub(crate) fn keep_free<H: Held>(found: &mut Vec<Candidate>, locks: &H, tx: u64)
    ensures { found.new.items ≡ filter (is_free (H.held_by locks.now) tx) found.old.items }
{
    found.retain(|candidate| is_free(locks, candidate.group, tx));
}
