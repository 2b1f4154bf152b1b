//! What waits in the queues of an instance.

ghost use Rattle.std.specs.Prelude.{◌≡◌, ◌+◌, ◌<◌, ◌≤◌, [], ◌∷◌, ◌++◌, IfOk, IsTrue, OnErr, OnOk};
ghost use Rattle.sb_pick.specs.Picked.{picked};
ghost use Rattle.sb_pick.specs.Waiting.{is_known, known_after, regrouped, waiting_of, without_item, without_side};

use crate::candidates::{candidates, keep_free};
use crate::choosing::choose;
use crate::names::{defined_queue, is_known, learn, place_of};
use crate::ordering::in_order;
use crate::stored::{Stored, keep_other_sides, keep_others, regroup};
use sb_log::{Entry, Filter, GroupId, Handle, Held, Item, Name, Op, Picked, SideId};
use std::alloc::{AllocError, Global};
use std::marker::Model;

/// The messages that wait in the queues of an instance, in the order in which they arrived,
/// and the names of the queues that are known.
#[derive(Drop)]
pub struct Queues {
    names: Vec<Name>,
    waiting: Vec<Stored>,
}

impl Model for Queues {
    ghost use Rattle.sb_pick.specs.Waiting.{Queued};

    ghost Value = { Queued };

    ghost use Rattle.sb_pick.specs.Inside.{queued, IsSound};

    ghost view = { queued };

    ghost invariant = { IsSound };
}

impl Queues {
    /// Nothing waits, and no queue is known.
    pub fn new(alloc: Global) -> Queues
        ensures waiting { result.waiting ≡ [] }
        ensures queues { result.queues ≡ [] }
        ensures spare { result.spare ≡ 0 }
    {
        Queues {
            names: Vec::new(alloc),
            waiting: Vec::new(alloc),
        }
    }

    /// Makes room for the message that the entry may bring, and gets to know the queue that
    /// it defines.
    pub fn reserve(&mut self, entry: &Entry) -> Result<(), AllocError>
        ensures room { OnOk result (0 < self.new.spare) }
        ensures known { OnOk result (self.new.queues ≡ known_after self.old.queues entry.now) }
        ensures unknown { OnErr result (self.new.queues ≡ self.old.queues) }
        ensures waiting { self.new.waiting ≡ self.old.waiting }
        ensures spare { self.old.spare ≤ self.new.spare }
    {
        self.waiting.reserve(1)?;
        match defined_queue(entry) {
            None => Ok(()),
            Some(name) => learn(&mut self.names, name),
        }
    }

    /// Whether a message may arrive in this queue.
    pub fn knows(&self, queue: &Name) -> bool
        ensures { result ≡ is_known self.now.queues queue.now }
    {
        is_known(self.names.as_slice(), queue)
    }

    /// A message arrives in a queue; `handle`, `group` and `level` are those of its side.
    pub fn arrive(&mut self, item: Item, handle: Handle, queue: &Name, group: GroupId, level: u8)
        requires room { 0 < self.old.spare }
        requires known { IsTrue (is_known self.old.queues queue.now) }
        requires lowest { 1 ≤ level }
        requires highest { level ≤ 10 }
        ensures waiting { self.new.waiting ≡ self.old.waiting ++ waiting_of item handle queue.now group level ∷ [] }
        ensures queues { self.new.queues ≡ self.old.queues }
        ensures spare { self.old.spare ≤ self.new.spare + 1 }
    {
        let place = place_of(self.names.as_slice(), queue);
        self.waiting.push_reserved(Stored {
            item,
            handle,
            place,
            group,
            level,
        });
    }

    /// The message with this number was taken.
    pub fn take(&mut self, item: u64)
        ensures waiting { self.new.waiting ≡ without_item item self.old.waiting }
        ensures queues { self.new.queues ≡ self.old.queues }
        ensures spare { self.old.spare ≤ self.new.spare }
    {
        keep_others(&mut self.waiting, item);
    }

    /// The side ended or was cleaned up, so none of its messages waits.
    pub fn drop_side(&mut self, side: SideId)
        ensures waiting { self.new.waiting ≡ without_side side self.old.waiting }
        ensures queues { self.new.queues ≡ self.old.queues }
        ensures spare { self.old.spare ≤ self.new.spare }
    {
        keep_other_sides(&mut self.waiting, side);
    }

    /// The side was moved into the group.
    pub fn regroup(&mut self, side: SideId, group: GroupId)
        ensures waiting { self.new.waiting ≡ regrouped side group self.old.waiting }
        ensures queues { self.new.queues ≡ self.old.queues }
        ensures spare { self.old.spare ≤ self.new.spare }
    {
        regroup(&mut self.waiting, side, group);
    }

    /// What a RECEIVE of this queue gives to the transaction `tx`, which has done `taken` so far.
    pub fn pick<H: Held>(
        &self,
        alloc: Global,
        queue: &Name,
        top: Option<u64>,
        filter: &Filter,
        taken: &[Op],
        locks: &H,
        tx: u64,
    ) -> Result<Picked, AllocError>
        ensures { IfOk result (λ it. it ≡ picked queue.now top filter.now taken.now (H.held_by locks.now) tx self.now.waiting) }
    {
        let names = self.names.as_slice();
        let waiting = self.waiting.as_slice();
        let mut found = candidates(alloc, names, waiting, queue, filter, taken)?;
        keep_free(&mut found, locks, tx);
        let sorted = in_order(alloc, found)?;
        choose(alloc, sorted.as_slice(), top)
    }
}
