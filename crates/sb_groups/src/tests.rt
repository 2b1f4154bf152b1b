//! Two transactions and two groups in each order, and many groups at once.

ghost use Rattle.std.specs.Prelude.{◌≡◌, ◌≢◌, ◌+◌, ◌<◌, ◌≤◌, Some};
ghost use Rattle.std.specs.Bool.{OnTrue};
ghost use Rattle.sb_groups.specs.Holds.{holder_of};

use crate::{GroupGuard, HeldBy, Locks};
use sb_log::{GroupId, Handle, Held};
use std::process::Abort;
use std::test::Fail;

fn may_ask(locks: &Locks, group: GroupId, tx: u64) -> bool
    ensures { OnTrue result (holder_of locks.now.holds group ≢ Some tx) }
{
    match locks.holder(group) {
        Some(holder) => holder != tx,
        None => true,
    }
}

fn is_held(locks: &Locks, guard: &GroupGuard) -> bool
    ensures { OnTrue result (holder_of locks.now.holds guard.now.group ≡ Some guard.now.tx) }
{
    match locks.holder(guard.group()) {
        Some(holder) => holder == guard.tx(),
        None => false,
    }
}

/// Takes a group that nobody holds.
fn take(rt: &impl Abort, locks: &mut Locks, group: GroupId, tx: u64) -> GroupGuard
    requires { 0 < locks.old.spare }
    ensures { locks.old.spare ≤ locks.new.spare + 1 }
{
    assert!(rt; may_ask(locks, group, tx));
    match locks.try_take(group, tx) {
        Ok(guard) => guard,
        Err(HeldBy { tx }) => panic!(rt; "held by {tx}"),
    }
}

/// Asks for a group that this other transaction holds.
fn ask_held(rt: &impl Abort, locks: &mut Locks, group: GroupId, tx: u64, other: u64)
    requires { 0 < locks.old.spare }
    ensures { locks.new.spare ≡ locks.old.spare }
{
    assert!(rt; may_ask(locks, group, tx));
    match locks.try_take(group, tx) {
        Ok(_guard) => panic!(rt; "{tx} holds it too"),
        Err(by) => assert_eq!(rt; by, HeldBy { tx: other }),
    }
}

fn give_back(rt: &impl Abort, locks: &mut Locks, guard: GroupGuard)
    ensures { locks.old.spare ≤ locks.new.spare }
{
    assert!(rt; is_held(locks, &guard));
    let group = guard.group();
    locks.release(guard);
    assert_eq!(rt; locks.holder(group), None);
}

/// Who wants which group.
#[derive(Clone, Copy)]
struct Wish {
    group: GroupId,
    tx: u64,
}

impl Wish {
    const fn new(group: u128, tx: u64) -> Wish {
        Wish {
            group: Handle(group),
            tx,
        }
    }
}

/// Each takes a group and is refused the other's; then they give theirs back.
fn cross(rt: &impl Abort, locks: &mut Locks, first: Wish, second: Wish, in_turn: bool)
    requires { 3 ≤ locks.old.spare }
{
    let own = take(rt, locks, first.group, first.tx);
    let other = take(rt, locks, second.group, second.tx);
    ask_held(rt, locks, second.group, first.tx, second.tx);
    ask_held(rt, locks, first.group, second.tx, first.tx);
    if in_turn {
        give_back(rt, locks, own);
        assert_eq!(rt; locks.holder(second.group), Some(second.tx));
        give_back(rt, locks, other);
    } else {
        give_back(rt, locks, other);
        assert_eq!(rt; locks.holder(first.group), Some(first.tx));
        give_back(rt, locks, own);
    }
}

#[test]
fn two_groups_are_taken_and_given_back_in_each_order(rt: HostRuntime) -> Result<(), Fail> {
    let mut locks = Locks::new(rt.alloc());
    for order in 0..8u8 {
        let (near, far) = if order & 1 == 0 { (1, 2) } else { (2, 1) };
        let (tx, rival) = if order & 2 == 0 { (7, 8) } else { (8, 7) };
        locks.reserve(3)?;
        let first = Wish::new(near, tx);
        let second = Wish::new(far, rival);
        cross(&rt, &mut locks, first, second, order & 4 == 0);
    }
    Ok(())
}

/// Who holds the group, as one who picks messages sees it.
fn seen<H: Held>(locks: &H, group: GroupId) -> Option<u64> {
    locks.holder(group)
}

/// One transaction's group goes to the other, which holds both then.
fn hand_over(rt: &impl Abort, locks: &mut Locks, first: Wish, second: Wish)
    requires { 4 ≤ locks.old.spare }
{
    let own = take(rt, locks, first.group, first.tx);
    let other = take(rt, locks, second.group, second.tx);
    give_back(rt, locks, own);
    assert_eq!(rt; seen(locks, first.group), None);
    let gained = take(rt, locks, first.group, second.tx);
    assert_eq!(rt; seen(locks, first.group), Some(second.tx));
    ask_held(rt, locks, first.group, first.tx, second.tx);
    ask_held(rt, locks, second.group, first.tx, second.tx);
    give_back(rt, locks, other);
    give_back(rt, locks, gained);
}

#[test]
fn a_group_that_is_given_back_goes_to_the_next(rt: HostRuntime) -> Result<(), Fail> {
    let mut locks = Locks::new(rt.alloc());
    locks.reserve(4)?;
    hand_over(&rt, &mut locks, Wish::new(1, 7), Wish::new(2, 8));
    Ok(())
}

/// Takes as many groups, each for a transaction of its own, and gives them back.
fn hold_many(rt: &impl Abort, locks: &mut Locks, left: u64)
    requires { left ≤ locks.old.spare }
{
    if left == 0 {
        return;
    }
    let group = Handle(u128::from(left));
    let guard = take(rt, locks, group, left);
    assert_eq!(rt; (guard.group(), guard.tx()), (group, left));
    hold_many(rt, locks, left - 1);
    assert_eq!(rt; locks.holder(group), Some(left));
    give_back(rt, locks, guard);
}

#[test]
fn a_thousand_groups_are_held_at_once(rt: HostRuntime) -> Result<(), Fail> {
    let mut locks = Locks::new(rt.alloc());
    locks.reserve(1000)?;
    hold_many(&rt, &mut locks, 1000);
    Ok(())
}
