//! A thousand sides.

use crate::Endpoints;
use crate::tests::made::{Deed, Saying, tell};
use sb_log::{Handle, SideId, State};
use std::alloc::Global;
use std::process::Abort;
use std::test::Fail;

fn initiator(number: u64) -> SideId {
    SideId {
        conversation: Handle(u128::from(number)),
        initiator: true,
    }
}

fn begin_all(alloc: Global, endpoints: &mut Endpoints) -> Result<(), Fail> {
    for number in 0..1000u64 {
        let handle = u128::from(number);
        let begin = Deed::Begin { handle, group: 7 };
        tell(alloc, endpoints, Saying::Did(begin))?;
    }
    Ok(())
}

fn clean_thirds(alloc: Global, endpoints: &mut Endpoints) -> Result<(), Fail> {
    for number in 0..1000u64 {
        if number % 3 == 0 {
            let side = initiator(number);
            tell(alloc, endpoints, Saying::Did(Deed::Cleanup(side)))?;
        }
    }
    Ok(())
}

fn check_all(rt: &impl Abort, endpoints: &Endpoints) {
    for number in 0..1000u64 {
        let side = initiator(number);
        let wanted = if number % 3 == 0 {
            State::CD
        } else {
            State::SO
        };
        assert_eq!(rt; endpoints.state(side), Some(wanted));
        assert_eq!(rt; endpoints.side(Handle(u128::from(number))), Some(side));
    }
}

#[test]
fn a_thousand_sides_are_found(rt: HostRuntime) -> Result<(), Fail> {
    let mut endpoints = Endpoints::new(rt.alloc());
    begin_all(rt.alloc(), &mut endpoints)?;
    clean_thirds(rt.alloc(), &mut endpoints)?;
    check_all(&rt, &endpoints);
    assert_eq!(rt; endpoints.state(initiator(1000)), None);
    assert_eq!(rt; endpoints.side(Handle(1000)), None);
    Ok(())
}
