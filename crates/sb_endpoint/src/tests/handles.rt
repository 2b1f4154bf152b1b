//! First makings, the sides that handles name, groups and counts.

use crate::Endpoints;
use crate::tests::made::{Deed, FAR, NEAR, Saying, What, tell};
use sb_log::{Handle, SideId};
use std::alloc::Global;
use std::process::Abort;
use std::test::Fail;

const OTHER: SideId = SideId {
    conversation: Handle(2),
    initiator: false,
};

fn tell_all(alloc: Global, endpoints: &mut Endpoints, script: &[Saying]) -> Result<(), Fail> {
    for saying in script {
        tell(alloc, endpoints, *saying)?;
    }
    Ok(())
}

#[test]
fn the_first_making_counts(rt: HostRuntime) -> Result<(), Fail> {
    let mut endpoints = Endpoints::new(rt.alloc());
    let script = [
        Saying::Made(FAR, 7, 8),
        // The side was made before, so this handle names nothing.
        Saying::Made(FAR, 9, 10),
        // The handle names a side already.
        Saying::Made(OTHER, 7, 11),
        Saying::Did(Deed::Begin {
            handle: 1,
            group: 2,
        }),
    ];
    tell_all(rt.alloc(), &mut endpoints, &script)?;
    assert_eq!(rt; endpoints.side(Handle(7)), Some(FAR));
    assert_eq!(rt; endpoints.side(Handle(9)), None);
    assert_eq!(rt; endpoints.side(Handle(1)), Some(NEAR));
    assert_eq!(rt; endpoints.group(FAR), Some(Handle(8)));
    assert_eq!(rt; endpoints.group(OTHER), Some(Handle(11)));
    assert_eq!(rt; endpoints.group(NEAR), Some(Handle(2)));
    Ok(())
}

#[test]
fn the_last_move_counts(rt: HostRuntime) -> Result<(), Fail> {
    let mut endpoints = Endpoints::new(rt.alloc());
    tell(rt.alloc(), &mut endpoints, Saying::Did(Deed::Move(FAR, 5)))?;
    assert_eq!(rt; endpoints.group(FAR), None);
    tell(rt.alloc(), &mut endpoints, Saying::Made(FAR, 7, 8))?;
    assert_eq!(rt; endpoints.group(FAR), Some(Handle(5)));
    let twice = Saying::Both(Deed::Move(FAR, 6), Deed::Move(FAR, 4));
    tell(rt.alloc(), &mut endpoints, twice)?;
    assert_eq!(rt; endpoints.group(FAR), Some(Handle(4)));
    Ok(())
}

fn expires(endpoints: &Endpoints, side: SideId) -> Option<u64> {
    match endpoints.header(side) {
        Some(header) => Some(header.expires),
        None => None,
    }
}

#[test]
fn the_first_header_stays(rt: HostRuntime) -> Result<(), Fail> {
    let mut endpoints = Endpoints::new(rt.alloc());
    let first = Deed::Begin {
        handle: 1,
        group: 2,
    };
    let second = Deed::Begin {
        handle: 1,
        group: 3,
    };
    let script = [
        Saying::Made(FAR, 7, 8),
        Saying::Made(FAR, 9, 10),
        Saying::Both(first, second),
    ];
    tell_all(rt.alloc(), &mut endpoints, &script)?;
    assert_eq!(rt; expires(&endpoints, FAR), Some(8));
    assert_eq!(rt; expires(&endpoints, NEAR), Some(2));
    assert_eq!(rt; expires(&endpoints, OTHER), None);
    Ok(())
}

fn check_counts(
    rt: &impl Abort,
    endpoints: &Endpoints,
    accepted: u64,
    numbered: u64,
    acked: u64,
    closed: bool,
) {
    assert_eq!(rt; endpoints.accepted(NEAR), accepted);
    assert_eq!(rt; endpoints.numbered(NEAR), numbered);
    assert_eq!(rt; endpoints.acked(NEAR), acked);
    assert_eq!(rt; endpoints.is_closed(NEAR), closed);
}

#[test]
fn counts_rise(rt: HostRuntime) -> Result<(), Fail> {
    let mut endpoints = Endpoints::new(rt.alloc());
    check_counts(&rt, &endpoints, 0, 0, 0, false);
    let script = [
        Saying::Both(Deed::Send(NEAR), Deed::Send(NEAR)),
        Saying::Accepted(NEAR, What::App),
        Saying::Acked(NEAR, 2, false),
        Saying::Acked(NEAR, 1, false),
    ];
    tell_all(rt.alloc(), &mut endpoints, &script)?;
    check_counts(&rt, &endpoints, 1, 2, 2, false);
    tell(rt.alloc(), &mut endpoints, Saying::Did(Deed::End(NEAR)))?;
    check_counts(&rt, &endpoints, 1, 3, 2, true);
    Ok(())
}
