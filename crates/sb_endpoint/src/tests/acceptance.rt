//! The tables of acceptance, row by row.

use crate::Endpoints;
use crate::tests::made::{Deed, FAR, NEAR, Saying, data, tell};
use sb_log::{Ack, Handle, SideId, Verdict, Who};
use std::alloc::Global;
use std::mem::drop;
use std::process::Abort;
use std::test::Fail;

const HOME: Handle = Handle(0xb000_0000_0000_0000_0000_0000_0000_0000);

/// What an instance has for a message: the number of what is missing, and whether the queue
/// is on.
#[derive(Clone, Copy)]
struct Has {
    missing: u8,
    queue_on: bool,
}

const ALL: Has = Has {
    missing: 0,
    queue_on: true,
};

const OFF: Has = Has {
    missing: 5,
    queue_on: false,
};

fn missing(missing: u8) -> Has {
    Has {
        missing,
        queue_on: true,
    }
}

/// How B answers a message from this side.
fn answer(
    alloc: Global,
    endpoints: &Endpoints,
    from: SideId,
    number: u64,
    has: Has,
) -> Result<Verdict, Fail> {
    let sent = data(alloc, from, number, Some(HOME))?;
    let verdict = endpoints.accept(Who::B, &sent, has.missing, has.queue_on);
    drop(sent);
    Ok(verdict)
}

fn check(
    rt: &impl Abort,
    alloc: Global,
    endpoints: &Endpoints,
    rows: &[(SideId, u64, Has, Verdict)],
) -> Result<(), Fail> {
    for (from, number, has, wanted) in rows {
        let verdict = answer(alloc, endpoints, *from, *number, *has)?;
        assert_eq!(rt; verdict, *wanted);
    }
    Ok(())
}

#[test]
fn messages_are_answered(rt: HostRuntime) -> Result<(), Fail> {
    let mut endpoints = Endpoints::new(rt.alloc());
    let rows = [
        (FAR, 1, ALL, Verdict::NotHere(2)),
        (NEAR, 2, missing(3), Verdict::Early),
        (NEAR, 1, missing(3), Verdict::NotHere(3)),
        (NEAR, 1, OFF, Verdict::NotHere(4)),
        (NEAR, 1, missing(5), Verdict::NotHere(5)),
        (NEAR, 1, missing(6), Verdict::NotHere(6)),
        (NEAR, 1, ALL, Verdict::New),
    ];
    check(&rt, rt.alloc(), &endpoints, &rows)?;
    tell(rt.alloc(), &mut endpoints, Saying::Made(FAR, 7, 8))?;
    let rows = [
        (NEAR, 1, missing(6), Verdict::Repeat),
        (NEAR, 3, ALL, Verdict::Early),
        (NEAR, 2, ALL, Verdict::Next),
    ];
    check(&rt, rt.alloc(), &endpoints, &rows)?;
    tell(rt.alloc(), &mut endpoints, Saying::Did(Deed::Cleanup(FAR)))?;
    let rows = [(NEAR, 3, ALL, Verdict::Gone), (NEAR, 1, ALL, Verdict::Gone)];
    check(&rt, rt.alloc(), &endpoints, &rows)
}

#[test]
fn a_message_for_another_instance_is_not_here(rt: HostRuntime) -> Result<(), Fail> {
    let endpoints = Endpoints::new(rt.alloc());
    let sent = data(rt.alloc(), NEAR, 1, Some(HOME))?;
    let verdict = endpoints.accept(Who::A, &sent, 0, true);
    drop(sent);
    assert_eq!(rt; verdict, Verdict::NotHere(1));
    Ok(())
}

fn acknowledge(endpoints: &Endpoints, upto: u64, closed: bool) -> Verdict {
    let ack = Ack {
        side: NEAR,
        upto,
        closed,
        to: HOME,
    };
    endpoints.acknowledge(Who::B, &ack)
}

#[test]
fn acknowledgements_are_answered(rt: HostRuntime) -> Result<(), Fail> {
    let mut endpoints = Endpoints::new(rt.alloc());
    assert_eq!(rt; acknowledge(&endpoints, 0, false), Verdict::NotHere(2));
    let begin = Deed::Begin {
        handle: 1,
        group: 2,
    };
    let begun = Saying::Both(begin, Deed::Send(NEAR));
    tell(rt.alloc(), &mut endpoints, begun)?;
    assert_eq!(rt; acknowledge(&endpoints, 2, false), Verdict::NotHere(7));
    assert_eq!(rt; acknowledge(&endpoints, 2, true), Verdict::AckNew);
    assert_eq!(rt; acknowledge(&endpoints, 1, false), Verdict::AckNew);
    tell(rt.alloc(), &mut endpoints, Saying::Acked(NEAR, 1, false))?;
    assert_eq!(rt; acknowledge(&endpoints, 1, false), Verdict::AckOld);
    assert_eq!(rt; acknowledge(&endpoints, 1, true), Verdict::AckNew);
    tell(rt.alloc(), &mut endpoints, Saying::Acked(NEAR, 0, true))?;
    assert_eq!(rt; acknowledge(&endpoints, 1, true), Verdict::AckOld);
    Ok(())
}

#[test]
fn an_acknowledgement_for_another_instance_is_not_here(rt: HostRuntime) -> Result<(), Fail> {
    let endpoints = Endpoints::new(rt.alloc());
    let ack = Ack {
        side: NEAR,
        upto: 0,
        closed: true,
        to: HOME,
    };
    let verdict = endpoints.acknowledge(Who::A, &ack);
    assert_eq!(rt; verdict, Verdict::NotHere(1));
    Ok(())
}
