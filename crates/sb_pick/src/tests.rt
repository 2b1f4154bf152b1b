//! Picks over levels, groups, filters and limits, and after what a transaction did itself.

ghost use Rattle.std.specs.Prelude.{◌<◌, OnOk};

use crate::Queues;
use sb_log::{
    Ddl, Entry, Filter, Final, GroupId, Handle, Held, Item, Kind, Msg, Name, Op, Picked, QueueDef,
    SideId,
};
use std::alloc::{AllocError, Global};
use std::process::Abort;
use std::test::Fail;

/// One group that one transaction holds.
#[derive(Clone, Copy)]
struct Lock {
    group: GroupId,
    tx: u64,
}

impl Held for Lock {
    ghost use Rattle.std.specs.Prelude.{Some, None, if◌then◌else◌};
    ghost use Rattle.sb_model.specs.Sides.{same_id};

    ghost held_by = { λ lock group. if same_id lock.group group then Some lock.tx else None };

    fn holder(&self, group: GroupId) -> Option<u64> {
        if self.group == group {
            Some(self.tx)
        } else {
            None
        }
    }
}

fn group(low: u64) -> GroupId {
    Handle(u128::from(low))
}

fn side(low: u64) -> SideId {
    SideId {
        conversation: Handle(u128::from(low)),
        initiator: true,
    }
}

/// The handle of a side, which isn't that of its conversation.
fn handle(low: u64) -> Handle {
    Handle(u128::from(low) + 1000)
}

fn name(rt: &impl Abort, alloc: Global, text: &str) -> Name {
    match Name::new(alloc, text) {
        Ok(name) => name,
        Err(why) => panic!(rt; "{why}"),
    }
}

fn define(queues: &mut Queues, queue: &Name) -> Result<(), AllocError> {
    let entry = Entry::Defined(Ddl::Queue(QueueDef {
        name: queue.clone()?,
        on: true,
        poison: true,
        activation: None,
    }));
    queues.reserve(&entry)
}

/// Makes room for one message.
fn make_room(queues: &mut Queues) -> Result<(), AllocError>
    ensures { OnOk result (0 < queues.new.spare) }
{
    let entry = Entry::Fired { side: side(1) };
    queues.reserve(&entry)
}

fn timer(number: u64, side: SideId) -> Item {
    Item {
        number,
        side,
        sequence: 0,
        message: Msg {
            kind: Kind::DialogTimer,
            body: None,
        },
    }
}

/// A message with its number, and the numbers of its side and group, and its level.
type Row = (u64, u64, u64, u8);

fn put(rt: &impl Abort, queues: &mut Queues, queue: &Name, row: Row) -> Result<(), AllocError> {
    let (number, of, into, level) = row;
    make_room(queues)?;
    assert!(rt; queues.knows(queue));
    assert!(rt; 1 <= level && level <= 10);
    queues.arrive(
        timer(number, side(of)),
        handle(of),
        queue,
        group(into),
        level,
    );
    Ok(())
}

fn filled(
    rt: &impl Abort,
    alloc: Global,
    queue: &Name,
    rows: &[Row],
) -> Result<Queues, AllocError> {
    let mut queues = Queues::new(alloc);
    define(&mut queues, queue)?;
    for row in rows {
        put(rt, &mut queues, queue, *row)?;
    }
    Ok(queues)
}

/// Four messages: two of one side and group, and two sides of another group, one of them of
/// a higher level.
const ROWS: [Row; 4] = [(1, 1, 51, 5), (2, 2, 52, 5), (3, 1, 51, 5), (4, 3, 52, 7)];

/// A group in which no message is.
const ELSEWHERE: Lock = Lock {
    group: Handle(59),
    tx: 8,
};

fn holds(rt: &impl Abort, picked: &Picked, wanted: u64, numbers: &[u64]) {
    assert_eq!(rt; picked.group, Some(group(wanted)));
    assert_eq!(rt; picked.items.as_slice(), numbers);
}

fn is_nothing(rt: &impl Abort, picked: &Picked) {
    assert_eq!(rt; picked.group, None);
    assert_eq!(rt; picked.items.len(), 0);
}

/// What transaction 7 picks.
#[derive(Clone, Copy)]
struct Ask {
    top: Option<u64>,
    filter: Filter,
    lock: Lock,
}

const ANY: Ask = Ask {
    top: None,
    filter: Filter::All,
    lock: ELSEWHERE,
};

fn limited(top: u64) -> Ask {
    Ask {
        top: Some(top),
        ..ANY
    }
}

fn filtered(filter: Filter) -> Ask {
    Ask { filter, ..ANY }
}

fn locked(low: u64, tx: u64) -> Ask {
    let lock = Lock {
        group: group(low),
        tx,
    };
    Ask { lock, ..ANY }
}

/// Compares what is picked after these operations.
fn compare_after(
    rt: &impl Abort,
    alloc: Global,
    queues: &Queues,
    queue: &Name,
    ask: Ask,
    taken: &[Op],
    wanted: Option<(u64, &[u64])>,
) -> Result<(), AllocError> {
    let picked = queues.pick(alloc, queue, ask.top, &ask.filter, taken, &ask.lock, 7)?;
    match wanted {
        None => is_nothing(rt, &picked),
        Some((wanted, numbers)) => holds(rt, &picked, wanted, numbers),
    }
    Ok(())
}

fn compare(
    rt: &impl Abort,
    alloc: Global,
    queues: &Queues,
    queue: &Name,
    ask: Ask,
    wanted: Option<(u64, &[u64])>,
) -> Result<(), AllocError> {
    compare_after(rt, alloc, queues, queue, ask, &[], wanted)
}

#[test]
fn messages_come_by_level_and_then_by_number(rt: HostRuntime) -> Result<(), Fail> {
    let alloc = rt.alloc();
    let queue = name(&rt, alloc, "Q");
    let mut queues = filled(&rt, alloc, &queue, &[])?;
    for level in 1..11u8 {
        put(&rt, &mut queues, &queue, (u64::from(level), 1, 51, level))?;
    }
    put(&rt, &mut queues, &queue, (11, 1, 51, 10))?;
    put(&rt, &mut queues, &queue, (12, 2, 51, 1))?;
    let wanted = [10, 11, 9, 8, 7, 6, 5, 4, 3, 2, 1, 12];
    compare(&rt, alloc, &queues, &queue, ANY, Some((51, &wanted)))?;
    Ok(())
}

#[test]
fn a_pick_is_of_one_group_up_to_the_limit(rt: HostRuntime) -> Result<(), Fail> {
    let alloc = rt.alloc();
    let queue = name(&rt, alloc, "Q");
    let queues = filled(&rt, alloc, &queue, &ROWS)?;
    compare(&rt, alloc, &queues, &queue, ANY, Some((52, &[4, 2])))?;
    compare(&rt, alloc, &queues, &queue, limited(1), Some((52, &[4])))?;
    compare(&rt, alloc, &queues, &queue, limited(9), Some((52, &[4, 2])))?;
    compare(&rt, alloc, &queues, &queue, limited(0), Some((52, &[])))?;
    Ok(())
}

#[test]
fn a_filter_admits_a_side_or_a_group(rt: HostRuntime) -> Result<(), Fail> {
    let alloc = rt.alloc();
    let queue = name(&rt, alloc, "Q");
    let queues = filled(&rt, alloc, &queue, &ROWS)?;
    let by_side = filtered(Filter::Side(handle(1)));
    compare(&rt, alloc, &queues, &queue, by_side, Some((51, &[1, 3])))?;
    let by_group = filtered(Filter::Group(group(51)));
    compare(&rt, alloc, &queues, &queue, by_group, Some((51, &[1, 3])))?;
    let by_other = filtered(Filter::Side(handle(9)));
    compare(&rt, alloc, &queues, &queue, by_other, None)?;
    Ok(())
}

#[test]
fn a_group_that_another_holds_is_passed_by(rt: HostRuntime) -> Result<(), Fail> {
    let alloc = rt.alloc();
    let queue = name(&rt, alloc, "Q");
    let queues = filled(&rt, alloc, &queue, &ROWS)?;
    compare(
        &rt,
        alloc,
        &queues,
        &queue,
        locked(52, 8),
        Some((51, &[1, 3])),
    )?;
    compare(
        &rt,
        alloc,
        &queues,
        &queue,
        locked(52, 7),
        Some((52, &[4, 2])),
    )?;
    let both = Ask {
        filter: Filter::Group(group(52)),
        ..locked(52, 8)
    };
    compare(&rt, alloc, &queues, &queue, both, None)?;
    Ok(())
}

#[test]
fn what_was_taken_dropped_or_moved_is_seen(rt: HostRuntime) -> Result<(), Fail> {
    let alloc = rt.alloc();
    let queue = name(&rt, alloc, "Q");
    let mut queues = filled(&rt, alloc, &queue, &ROWS)?;
    queues.regroup(side(2), group(51));
    compare(&rt, alloc, &queues, &queue, ANY, Some((52, &[4])))?;
    queues.take(4);
    compare(&rt, alloc, &queues, &queue, ANY, Some((51, &[1, 2, 3])))?;
    queues.drop_side(side(1));
    compare(&rt, alloc, &queues, &queue, ANY, Some((51, &[2])))?;
    queues.drop_side(side(2));
    compare(&rt, alloc, &queues, &queue, ANY, None)?;
    Ok(())
}

/// Compares what is picked after one operation of the own transaction.
fn compare_own(
    rt: &impl Abort,
    alloc: Global,
    op: Op,
    wanted: Option<(u64, &[u64])>,
) -> Result<(), AllocError> {
    let queue = name(rt, alloc, "Q");
    let queues = filled(rt, alloc, &queue, &ROWS)?;
    let mut ops = Vec::new(alloc);
    ops.push(op)?;
    compare_after(rt, alloc, &queues, &queue, ANY, ops.as_slice(), wanted)
}

#[test]
fn what_the_own_transaction_did_is_seen(rt: HostRuntime) -> Result<(), Fail> {
    let alloc = rt.alloc();
    let queue = name(&rt, alloc, "Q");
    compare_own(&rt, alloc, Op::Took { queue, item: 4 }, Some((51, &[1, 3])))?;
    let side = side(3);
    let last = Final::Silent;
    compare_own(&rt, alloc, Op::End { side, last }, Some((51, &[1, 3])))?;
    compare_own(&rt, alloc, Op::Cleanup { side }, Some((51, &[1, 3])))?;
    let group = group(51);
    compare_own(&rt, alloc, Op::Move { side, group }, Some((51, &[4, 1, 3])))?;
    Ok(())
}

#[test]
fn queues_are_known_once_they_are_defined(rt: HostRuntime) -> Result<(), Fail> {
    let alloc = rt.alloc();
    let queue = name(&rt, alloc, "Q");
    let other = name(&rt, alloc, "R");
    let mut queues = filled(&rt, alloc, &queue, &ROWS)?;
    assert!(rt; queues.knows(&queue));
    assert!(rt; !queues.knows(&other));
    compare(&rt, alloc, &queues, &other, ANY, None)?;
    define(&mut queues, &other)?;
    put(&rt, &mut queues, &other, (5, 4, 53, 5))?;
    compare(&rt, alloc, &queues, &other, ANY, Some((53, &[5])))?;
    compare(&rt, alloc, &queues, &queue, ANY, Some((52, &[4, 2])))?;
    Ok(())
}
