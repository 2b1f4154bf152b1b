//! Which transaction holds which conversation group.

ghost use Rattle.std.specs.Prelude.{◌≡◌, ◌≢◌, ◌+◌, ◌<◌, ◌≤◌, None, Some, IfOk, IfErr, OnOk, OnErr};
ghost use Rattle.sb_groups.specs.Holds.{hold_of, holder_of, KeepsHolders, SetsHolder, HoldsNothing};

use indexmap::IndexMap;
use sb_log::{GroupId, Held};
use std::alloc::{AllocError, Global};
use std::marker::Model;

/// The groups that are held, each by one transaction.
#[derive(Drop)]
pub struct Locks {
    holders: IndexMap<GroupId, u64>,
}

impl Model for Locks {
    ghost use Rattle.indexmap.specs.IndexMap.{spare};
    ghost use Rattle.sb_groups.specs.Holds.{Held, holds_in};

    ghost Value = { Held };

    ghost view = { λ l. record { holds = holds_in l.holders.entries; spare = spare l.holders } };
}

/// What a transaction has for a group that it holds. It can't be dropped, only given back
/// by `Locks::release`.
pub struct GroupGuard {
    group: GroupId,
    tx: u64,
}

impl Model for GroupGuard {
    ghost use Rattle.sb_groups.specs.Holds.{Hold, hold_of};

    ghost Value = { Hold };

    ghost view = { λ g. hold_of g.group g.tx };
}

impl GroupGuard {
    pub fn group(&self) -> GroupId
        ensures { result ≡ self.now.group }
    {
        self.group
    }

    pub fn tx(&self) -> u64
        ensures { result ≡ self.now.tx }
    {
        self.tx
    }
}

/// The transaction that holds the group which another wanted.
#[derive(Clone, Copy, Debug, PartialEq, Eq)]
pub struct HeldBy {
    pub tx: u64,
}

impl Locks {
    /// Nothing is held.
    pub fn new(alloc: Global) -> Locks
        ensures { HoldsNothing result.holds }
    {
        Locks {
            holders: IndexMap::new(alloc),
        }
    }

    /// Makes room for as many more, so that taking them needs no memory.
    pub fn reserve(&mut self, more: usize) -> Result<(), AllocError>
        ensures room { OnOk result (more ≤ self.new.spare) }
        ensures spare { self.old.spare ≤ self.new.spare }
        ensures kept { KeepsHolders self.old.holds self.new.holds }
    {
        self.holders.reserve(more)
    }

    /// The transaction that holds the group.
    pub fn holder(&self, group: GroupId) -> Option<u64>
        ensures { result ≡ holder_of self.now.holds group }
    {
        self.holders.get(&group).copied()
    }

    /// Takes the group for a transaction that doesn't hold it, unless another does.
    pub fn try_take(&mut self, group: GroupId, tx: u64) -> Result<GroupGuard, HeldBy>
        requires room { 0 < self.old.spare }
        requires other { holder_of self.old.holds group ≢ Some tx }

        // Nobody held it, and the transaction does now.
        ensures free { OnOk result (holder_of self.old.holds group ≡ None) }
        ensures guard { IfOk result (λ guard. guard ≡ hold_of group tx) }
        ensures taken { OnOk result (SetsHolder self.old.holds self.new.holds group (Some tx)) }

        // Another holds it, and all is as before.
        ensures held { IfErr result (λ by. holder_of self.old.holds group ≡ Some by.tx) }
        ensures unchanged { OnErr result (self.new ≡ self.old) }

        ensures spare { self.old.spare ≤ self.new.spare + 1 }
    {
        if let Some(holder) = self.holder(group) {
            return Err(HeldBy { tx: holder });
        }
        match self.holders.insert(group, tx) {
            Ok(_) => Ok(GroupGuard { group, tx }),
            Err(_) => unreachable!(),
        }
    }

    /// Gives a group back.
    pub fn release(&mut self, guard: GroupGuard)
        requires { holder_of self.old.holds guard.group ≡ Some guard.tx }
        ensures free { SetsHolder self.old.holds self.new.holds guard.group None }
        ensures spare { self.old.spare ≤ self.new.spare }
    {
        let GroupGuard { group, tx: _ } = guard;
        self.holders.swap_remove(&group);
    }
}

impl Held for Locks {
    ghost use Rattle.sb_groups.specs.Holds.{holder_of};

    ghost held_by = { λ locks group. holder_of locks.holds group };

    fn holder(&self, group: GroupId) -> Option<u64> {
        Locks::holder(self, group)
    }
}
