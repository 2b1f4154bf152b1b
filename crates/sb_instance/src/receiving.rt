//! The checks of a RECEIVE, and what it gives.

ghost use Rattle.std.specs.Prelude.{◌≡◌, ◌-◌, IfOk, filter, option_map, nat_abs, map, []};
ghost use Rattle.sb_model.specs.Pick.{pick};
ghost use Rattle.sb_model.specs.Replies.{Planned, receive, received, with_filter, with_open_queue, with_optional_number};
ghost use Rattle.sb_instance.specs.Asked.{ask_of, Passes};
ghost use Rattle.sb_instance.specs.Candidates.{given, given_by, placed_seen, takes};
ghost use Rattle.sb_instance.specs.Giving.{is_of_group, up_to};

use crate::candidates::{Candidate, candidates};
use crate::ordering::in_order;
use crate::sending::live;
use crate::stopped::Stopped;
use sb_log::{Entry, Filter, GroupId, Listed, Name, Op, ReceivedItem, ReceivedItems, Refusal};
use sb_scan::{find_queue, is_on};
use std::alloc::{AllocError, Global};

fn check_top(top: Option<i64>) -> Result<(), Stopped>
    ensures { (rest : Planned) → Passes (with_optional_number top rest) rest result }
{
    match top {
        None => Ok(()),
        Some(count) => {
            if 1 <= count && count <= 2147483647 {
                Ok(())
            } else {
                Err(Stopped::Refused(Refusal::BadNumber(count)))
            }
        }
    }
}

fn check_filter(alloc: Global, log: &[Entry], filter: Filter) -> Result<(), Stopped>
    ensures { (rest : Planned) → Passes (with_filter (ask_of log.now) filter rest) rest result }
{
    match filter {
        Filter::Side(handle) => match live(alloc, log, handle)? {
            None => Err(Stopped::Refused(Refusal::NoConversation(handle))),
            Some(_) => Ok(()),
        },
        _ => Ok(()),
    }
}

fn check_open(log: &[Entry], queue: &Name) -> Result<(), Stopped>
    ensures { (rest : Planned) → Passes (with_open_queue (ask_of log.now) queue.now rest) rest result }
{
    match find_queue(log, queue) {
        None => Ok(()),
        Some(def) => {
            if is_on(log, def) {
                Ok(())
            } else {
                Err(Stopped::Refused(Refusal::QueueOff(queue.clone()?)))
            }
        }
    }
}

fn check_rest(
    alloc: Global,
    log: &[Entry],
    queue: &Name,
    top: Option<i64>,
    filter: Filter,
) -> Result<(), Stopped>
    ensures { (rest : Planned) → Passes (with_optional_number top (with_filter (ask_of log.now) filter (with_open_queue (ask_of log.now) queue.now rest))) rest result }
{
    match check_top(top) {
        Err(stopped) => Err(stopped),
        Ok(()) => match check_filter(alloc, log, filter) {
            Err(stopped) => Err(stopped),
            Ok(()) => check_open(log, queue),
        },
    }
}

/// What refuses a RECEIVE, in order.
pub fn check_receive(
    alloc: Global,
    log: &[Entry],
    queue: &Name,
    top: Option<i64>,
    filter: Filter,
) -> Result<(), Stopped>
    ensures { Passes (receive (ask_of log.now) queue.now top filter) (received (ask_of log.now) queue.now (pick log.now [] 0 queue.now (option_map nat_abs top) filter)) result }
{
    match find_queue(log, queue) {
        None => Err(Stopped::Refused(Refusal::NoQueue(queue.clone()?))),
        Some(_) => check_rest(alloc, log, queue, top, filter),
    }
}

/// The item as RECEIVE gives it.
pub fn given(alloc: Global, candidate: &Candidate<'_>) -> Result<ReceivedItem, AllocError>
    ensures { IfOk result (λ item. item ≡ given (placed_seen candidate.now)) }
{
    let group = match candidate.group {
        None => candidate.item.side.conversation,
        Some(group) => group,
    };
    Ok(ReceivedItem {
        handle: candidate.handle,
        group,
        item: candidate.item.copied(alloc)?,
    })
}

fn less_one(left: Option<u64>) -> Option<u64>
    ensures { result ≡ option_map (λ count. count - 1) left }
{
    left.map(|count| count.saturating_sub(1))
}

/// What the candidates of the group give, up to the limit.
fn of_group(
    alloc: Global,
    sorted: &[Candidate<'_>],
    group: GroupId,
    limit: Option<u64>,
) -> Result<Vec<ReceivedItem>, AllocError>
    ensures { IfOk result (λ items. items.items ≡ map given (up_to limit (filter (is_of_group group) (map placed_seen sorted.now)))) }
{
    let mut items = Vec::new(alloc);
    let mut left = limit;
    for candidate in sorted {
        if left == Some(0) {
            return Ok(items);
        }
        if candidate.group == Some(group) {
            items.push(given(alloc, candidate)?)?;
            left = less_one(left);
        }
    }
    Ok(items)
}

fn limit_of(top: Option<i64>) -> Option<u64>
    ensures { result ≡ option_map nat_abs top }
{
    top.map(|count| count.unsigned_abs())
}

/// The items that a RECEIVE gives.
pub fn picked(
    alloc: Global,
    log: &[Entry],
    queue: &Name,
    top: Option<i64>,
    filter: Filter,
) -> Result<Vec<ReceivedItem>, AllocError>
    ensures { IfOk result (λ items. items.items ≡ given_by log.now (pick log.now [] 0 queue.now (option_map nat_abs top) filter)) }
{
    let found = candidates(alloc, log, queue, filter)?;
    let sorted = in_order(alloc, found)?;
    let Some(first) = sorted.first() else {
        return Ok(Vec::new(alloc));
    };
    let Some(group) = first.group else {
        return Ok(Vec::new(alloc));
    };
    of_group(alloc, sorted.as_slice(), group, limit_of(top))
}

/// The operations that take these items from the queue.
pub fn takings(alloc: Global, queue: &Name, items: &[ReceivedItem]) -> Result<Vec<Op>, AllocError>
    ensures { IfOk result (λ ops. ops.items ≡ map (takes queue.now) items.now) }
{
    let mut ops = Vec::with_capacity(alloc, items.len())?;
    for item in items {
        ops.push(Op::Took {
            queue: queue.clone()?,
            item: item.item.number,
        })?;
    }
    Ok(ops)
}
