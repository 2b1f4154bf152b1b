//! The next handle and the next transaction of an instance that opens a log.

ghost use Rattle.std.specs.Prelude.{◌≡◌, ◌∷◌, [], flat_map, fold, map, max};
ghost use Rattle.sb_model.specs.Sides.{made_by, made_by_op, makings, ops_of, ops_of_entry};
ghost use Rattle.sb_model.specs.Instance.{groups_moved, next_handle_of, next_tx_of, own_low, tx_of};
ghost use Rattle.sb_instance.specs.Counters.{ids_made};
ghost use Rattle.sb_scan.specs.Seen.{making_of};

use sb_log::{Entry, Handle, Op, Who};
use sb_scan::{MadeSide, begun, instance_id};

const HIGH: u128 = 1 << 64;

fn own_low(who: Who, id: Handle) -> u64
    ensures { result ≡ own_low who id }
{
    let tag = instance_id(who).0 / HIGH;
    if id.0 / HIGH == tag {
        (id.0 % HIGH) as u64
    } else {
        0
    }
}

fn of_making(who: Who, made: MadeSide<'_>, most: u64) -> u64
    ensures { result ≡ fold max most (map (own_low who) (ids_made (making_of made.entry))) }
{
    most.max(own_low(who, made.side.conversation))
        .max(own_low(who, made.handle))
        .max(own_low(who, made.group))
}

fn of_begun(who: Who, ops: &[Op], most: u64) -> u64
    ensures { result ≡ fold max most (map (own_low who) (flat_map ids_made (flat_map made_by_op ops.now))) }
{
    let mut greatest = most;
    for op in ops {
        if let Some(made) = begun(op) {
            greatest = of_making(who, made, greatest);
        }
    }
    greatest
}

fn of_made(who: Who, entry: &Entry, most: u64) -> u64
    ensures { result ≡ fold max most (map (own_low who) (flat_map ids_made (made_by entry.now))) }
{
    match entry {
        Entry::Txn { ops, .. } => of_begun(who, ops.as_slice(), most),
        Entry::Accepted {
            side,
            made: Some(new),
            ..
        } => of_making(
            who,
            MadeSide {
                side: *side,
                handle: new.handle,
                group: new.group,
                header: &new.header,
            },
            most,
        ),
        _ => most,
    }
}

fn of_makings(who: Who, log: &[Entry]) -> u64
    ensures { result ≡ fold max 0 (map (own_low who) (flat_map ids_made (makings log.now))) }
{
    let mut greatest = 0;
    for entry in log {
        greatest = of_made(who, entry, greatest);
    }
    greatest
}

fn of_moved(who: Who, ops: &[Op], most: u64) -> u64
    ensures { result ≡ fold max most (map (own_low who) (flat_map groups_moved ops.now)) }
{
    let mut greatest = most;
    for op in ops {
        if let Op::Move { group, .. } = op {
            greatest = greatest.max(own_low(who, *group));
        }
    }
    greatest
}

fn of_moves(who: Who, entry: &Entry, most: u64) -> u64
    ensures { result ≡ fold max most (map (own_low who) (flat_map groups_moved (ops_of_entry entry.now))) }
{
    match entry {
        Entry::Txn { ops, .. } => of_moved(who, ops.as_slice(), most),
        _ => most,
    }
}

/// One more than the greatest number with the instance's tag.
pub fn next_handle(who: Who, log: &[Entry]) -> u64
    ensures { result ≡ next_handle_of who log.now }
{
    let mut greatest = of_makings(who, log);
    for entry in log {
        greatest = of_moves(who, entry, greatest);
    }
    greatest.wrapping_add(1)
}

/// One more than the greatest number of a transaction.
pub fn next_tx(log: &[Entry]) -> u64
    ensures { result ≡ next_tx_of log.now }
{
    let mut greatest = 0;
    for entry in log {
        if let Entry::Txn { tx, .. } = entry {
            greatest = greatest.max(*tx);
        }
    }
    greatest.wrapping_add(1)
}
