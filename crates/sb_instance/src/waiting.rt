//! What waits in a queue, noted so that a RECEIVE of its first item doesn't go over the log.

ghost use Rattle.std.specs.Prelude.{◌≡◌, IfOk, IfSome, IsTrue, drop, map, take};
ghost use Rattle.sb_instance.specs.Candidates.{given, placed_seen};
ghost use Rattle.sb_instance.specs.Waiting.{IsWaiting, line};

use crate::candidates::{Candidate, candidates};
use crate::ordering::in_order;
use crate::receiving::given;
use sb_log::{Entry, Filter, Name, ReceivedItem};
use sb_scan::queue_is_on;
use std::alloc::{AllocError, Global};
use std::collections::VecDeque;

/// A queue that is on, and all that waits in it.
#[derive(Drop)]
pub struct Waiting {
    pub queue: Name,
    /// The items, in the order in which they are taken.
    pub rest: VecDeque<ReceivedItem>,
}

impl Waiting {
    /// Whether this is what waits in the queue of that name.
    pub fn is_of(&self, queue: &Name) -> bool
        ensures { IsTrue result → self.now.queue ≡ queue.now }
    {
        self.queue == *queue
    }

    /// Takes the first item, if any waits.
    pub fn take_first(&mut self, alloc: Global) -> Result<Vec<ReceivedItem>, AllocError>
        ensures queue { self.new.queue ≡ self.old.queue }
        ensures first { IfOk result (λ items. items.items ≡ take 1 self.old.rest.items) }
        ensures rest { IfOk result (λ items. self.new.rest.items ≡ drop 1 self.old.rest.items) }
    {
        match self.rest.pop_front() {
            None => Ok(Vec::new(alloc)),
            Some(item) => {
                let mut items = Vec::with_capacity(alloc, 1)?;
                items.push(item)?;
                Ok(items)
            }
        }
    }
}

fn all_given(alloc: Global, sorted: &[Candidate<'_>]) -> Result<VecDeque<ReceivedItem>, AllocError>
    ensures { IfOk result (λ rest. rest.items ≡ map given (map placed_seen sorted.now)) }
{
    let mut rest = VecDeque::new(alloc);
    for candidate in sorted {
        rest.push_back(given(alloc, candidate)?)?;
    }
    Ok(rest)
}

fn all_waiting(alloc: Global, log: &[Entry], queue: &Name) -> Result<Waiting, AllocError>
    ensures queue { IfOk result (λ waiting. waiting.queue ≡ queue.now) }
    ensures rest { IfOk result (λ waiting. waiting.rest.items ≡ line log.now queue.now) }
{
    let found = candidates(alloc, log, queue, Filter::All)?;
    let sorted = in_order(alloc, found)?;
    let rest = all_given(alloc, sorted.as_slice())?;
    Ok(Waiting {
        queue: queue.clone()?,
        rest,
    })
}

/// What waits in the queue, if it is on. Where memory is wanting, nothing is noted.
pub fn waiting_in(alloc: Global, log: &[Entry], queue: &Name) -> Option<Waiting>
    ensures noted { IfSome result (IsWaiting log.now) }
    ensures queue { IfSome result (λ waiting. waiting.queue ≡ queue.now) }
{
    if !queue_is_on(log, queue) {
        return None;
    }
    match all_waiting(alloc, log, queue) {
        Err(_) => None,
        Ok(waiting) => Some(waiting),
    }
}
