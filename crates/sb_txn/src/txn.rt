//! An open transaction.

ghost use Rattle.std.specs.Prelude.{◌≡◌, ◌+◌, ◌<◌, ◌≤◌, [], ◌∷◌, ◌++◌, OnOk};
ghost use Rattle.sb_txn.specs.Guards.{names, AreHeld, FreesGroups, NameApart};
ghost use Rattle.sb_txn.specs.Open.{IsSameButRoom};

use crate::giving::give_back;
use indexmap::IndexSet;
use sb_groups::{GroupGuard, Locks};
use sb_log::{GroupId, Op};
use std::alloc::{AllocError, Global};
use std::marker::Model;

/// A transaction that has begun and not ended: its number, its operations in order, and a
/// guard for each group that it holds.
///
/// It can't be dropped, since it has guards: `spend` ends it.
pub struct Txn {
    number: u64,
    ops: Vec<Op>,
    guards: Vec<GroupGuard>,
    // The groups of the guards, to find them by.
    groups: IndexSet<GroupId>,
}

impl Model for Txn {
    ghost use Rattle.sb_txn.specs.Open.{Open};

    ghost Value = { Open };

    ghost use Rattle.sb_txn.specs.Inside.{opened, IsSound};

    ghost view = { opened };

    ghost invariant = { IsSound };
}

impl Txn {
    /// A transaction that has done nothing.
    pub fn new(alloc: Global, number: u64) -> Txn
        ensures number { result.number ≡ number }
        ensures ops { result.ops ≡ [] }
        ensures guards { result.guards ≡ [] }
    {
        Txn {
            number,
            ops: Vec::new(alloc),
            guards: Vec::new(alloc),
            groups: IndexSet::new(alloc),
        }
    }

    pub fn number(&self) -> u64
        ensures { result ≡ self.now.number }
    {
        self.number
    }

    /// What it has done, in order.
    pub fn ops(&self) -> &[Op]
        ensures { result.now ≡ self.now.ops }
    {
        self.ops.as_slice()
    }

    /// Whether it keeps a guard of this group.
    pub fn holds(&self, group: GroupId) -> bool
        ensures { result ≡ names self.now.guards group }
    {
        self.groups.contains(&group)
    }

    /// Makes room for as many more operations, and for as many more guards.
    pub fn reserve(&mut self, more: usize) -> Result<(), AllocError>
        ensures room { OnOk result (more ≤ self.new.spare) }
        ensures spare { self.old.spare ≤ self.new.spare }
        ensures kept { IsSameButRoom self.old self.new }
    {
        self.ops.reserve(more)?;
        self.guards.reserve(more)?;
        self.groups.reserve(more)
    }

    /// Adds what it did last.
    pub fn push(&mut self, op: Op)
        requires { 0 < self.old.spare }
        ensures number { self.new.number ≡ self.old.number }
        ensures ops { self.new.ops ≡ self.old.ops ++ op ∷ [] }
        ensures guards { self.new.guards ≡ self.old.guards }
        ensures spare { self.old.spare ≤ self.new.spare + 1 }
    {
        match self.ops.push(op) {
            Ok(()) => {}
            Err(_) => unreachable!(),
        }
    }

    /// Keeps the guard of a group that it has taken.
    pub fn keep(&mut self, guard: GroupGuard)
        requires { 0 < self.old.spare }
        ensures number { self.new.number ≡ self.old.number }
        ensures ops { self.new.ops ≡ self.old.ops }
        ensures guards { self.new.guards ≡ self.old.guards ++ guard ∷ [] }
        ensures spare { self.old.spare ≤ self.new.spare + 1 }
    {
        if self.groups.insert(guard.group()).is_err() {
            unreachable!();
        }
        match self.guards.push(guard) {
            Ok(()) => {}
            Err(_refused) => unreachable!(),
        }
    }

    /// Ends it: gives back each guard, and gives what it did, in order.
    pub fn spend(self, locks: &mut Locks) -> Vec<Op>
        requires held { AreHeld self.guards locks.old.holds }
        requires apart { NameApart self.guards }
        ensures ops { result.items ≡ self.ops }
        ensures free { FreesGroups self.guards locks.old.holds locks.new.holds }
        ensures spare { locks.old.spare ≤ locks.new.spare }
    {
        let Txn {
            number: _,
            ops,
            guards,
            groups: _,
        } = self;
        give_back(guards, locks);
        ops
    }
}
