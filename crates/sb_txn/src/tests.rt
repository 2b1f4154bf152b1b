//! Operations in order, and groups that are kept and given back.

ghost use Rattle.std.specs.Prelude.{◌≡◌, ◌≢◌, ◌+◌, ◌<◌, ◌≤◌, [], Some};
ghost use Rattle.std.specs.Bool.{OnTrue};
ghost use Rattle.sb_groups.specs.Holds.{holder_of};
ghost use Rattle.sb_txn.specs.Guards.{AreHeld, NameApart};

use crate::Txn;
use sb_groups::{GroupGuard, Locks};
use sb_log::{GroupId, Handle, Op, SideId};
use std::alloc::Global;
use std::process::Abort;
use std::test::Fail;

const SIDE: SideId = SideId {
    conversation: Handle(5),
    initiator: true,
};

const fn group(low: u128) -> GroupId {
    Handle(low)
}

fn begin(rt: &impl Abort, alloc: Global, number: u64, room: usize) -> Txn
    ensures room { room ≤ result.spare }
    ensures guards { result.guards ≡ [] }
{
    let mut txn = Txn::new(alloc, number);
    match txn.reserve(room) {
        Ok(()) => txn,
        Err(_) => panic!(rt; "out of memory"),
    }
}

fn may_take(locks: &Locks, group: GroupId, tx: u64) -> bool
    ensures { OnTrue result (holder_of locks.now.holds group ≢ Some tx) }
{
    match locks.holder(group) {
        Some(holder) => holder != tx,
        None => true,
    }
}

fn take_guard(rt: &impl Abort, locks: &mut Locks, group: GroupId, tx: u64) -> GroupGuard
    requires { 0 < locks.old.spare }
    ensures { locks.old.spare ≤ locks.new.spare + 1 }
{
    assert!(rt; may_take(locks, group, tx));
    match locks.try_take(group, tx) {
        Ok(guard) => guard,
        Err(by) => panic!(rt; "held by {}", by.tx),
    }
}

/// Takes a group that nobody holds, for a transaction that keeps it.
fn take(rt: &impl Abort, locks: &mut Locks, txn: &mut Txn, group: GroupId)
    requires room { 0 < locks.old.spare }
    requires place { 0 < txn.old.spare }
    requires held { AreHeld txn.old.guards locks.old.holds }
    requires apart { NameApart txn.old.guards }
    ensures room { locks.old.spare ≤ locks.new.spare + 1 }
    ensures place { txn.old.spare ≤ txn.new.spare + 1 }
    ensures held { AreHeld txn.new.guards locks.new.holds }
    ensures apart { NameApart txn.new.guards }
{
    let tx = txn.number();
    assert!(rt; may_take(locks, group, tx));
    match locks.try_take(group, tx) {
        Ok(guard) => txn.keep(guard),
        Err(by) => panic!(rt; "held by {}", by.tx),
    }
}

fn is_held(locks: &Locks, guard: &GroupGuard) -> bool
    ensures { OnTrue result (holder_of locks.now.holds guard.now.group ≡ Some guard.now.tx) }
{
    match locks.holder(guard.group()) {
        Some(holder) => holder == guard.tx(),
        None => false,
    }
}

fn give_back(rt: &impl Abort, locks: &mut Locks, guard: GroupGuard) {
    assert!(rt; is_held(locks, &guard));
    locks.release(guard);
}

/// A transaction holds two of three groups, and ends.
fn hold_and_end(rt: &impl Abort, alloc: Global, locks: &mut Locks)
    requires { 3 ≤ locks.old.spare }
{
    let other = take_guard(rt, locks, group(3), 8);
    let mut txn = begin(rt, alloc, 7, 2);
    take(rt, locks, &mut txn, group(1));
    take(rt, locks, &mut txn, group(2));
    assert_eq!(rt; txn.number(), 7);
    assert_eq!(rt; (txn.holds(group(1)), txn.holds(group(2))), (true, true));
    assert_eq!(rt;
        (txn.holds(group(3)), locks.holder(group(2))),
        (false, Some(7))
    );
    let ops = txn.spend(locks);
    assert_eq!(rt; ops.len(), 0);
    assert_eq!(rt;
        (locks.holder(group(1)), locks.holder(group(2))),
        (None, None)
    );
    assert_eq!(rt; locks.holder(group(3)), Some(8));
    give_back(rt, locks, other);
}

#[test]
fn groups_are_given_back_at_the_end(rt: HostRuntime) -> Result<(), Fail> {
    let mut locks = Locks::new(rt.alloc());
    locks.reserve(3)?;
    hold_and_end(&rt, rt.alloc(), &mut locks);
    Ok(())
}

fn timer(at: u64) -> Op {
    Op::Timer { side: SIDE, at }
}

fn moment(op: &Op) -> u64 {
    match op {
        Op::Timer { at, .. } => *at,
        _ => 0,
    }
}

fn follow(rt: &impl Abort, ops: &[Op], moments: &[u64]) {
    assert_eq!(rt; ops.len(), moments.len());
    for (op, wanted) in ops.iter().zip(moments) {
        assert_eq!(rt; moment(op), *wanted);
    }
}

fn work(rt: &impl Abort, alloc: Global, locks: &mut Locks) -> Vec<Op> {
    let mut txn = begin(rt, alloc, 7, 3);
    follow(rt, txn.ops(), &[]);
    txn.push(timer(30));
    txn.push(timer(10));
    follow(rt, txn.ops(), &[30, 10]);
    txn.push(timer(20));
    txn.spend(locks)
}

#[test]
fn operations_come_in_order(rt: HostRuntime) -> Result<(), Fail> {
    let mut locks = Locks::new(rt.alloc());
    let ops = work(&rt, rt.alloc(), &mut locks);
    follow(&rt, ops.as_slice(), &[30, 10, 20]);
    Ok(())
}
