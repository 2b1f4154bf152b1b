//! Each row of the table of states, after each entry that leads to it.

use crate::Endpoints;
use crate::tests::made::{Deed, FAR, NEAR, Saying, What, tell};
use sb_log::{SideId, State};
use std::alloc::Global;
use std::process::Abort;
use std::test::Fail;

const BEGIN: Saying = Saying::Did(Deed::Begin {
    handle: 1,
    group: 2,
});

const SEND: Saying = Saying::Did(Deed::Send(NEAR));

const END: Saying = Saying::Did(Deed::End(NEAR));

const END_SILENTLY: Saying = Saying::Did(Deed::EndSilently(NEAR));

/// A side's state after each of these entries.
fn play(
    rt: &impl Abort,
    alloc: Global,
    side: SideId,
    script: &[(Saying, Option<State>)],
) -> Result<(), Fail> {
    let mut endpoints = Endpoints::new(alloc);
    for (saying, wanted) in script {
        tell(alloc, &mut endpoints, *saying)?;
        let state = endpoints.state(side);
        assert_eq!(rt; state, *wanted);
        let may_send = matches!(state, Some(State::SO | State::CO));
        assert_eq!(rt; endpoints.may_send(side), may_send);
    }
    Ok(())
}

#[test]
fn conversing_sides(rt: HostRuntime) -> Result<(), Fail> {
    let script = [
        (Saying::Fired(NEAR), None),
        (Saying::Accepted(NEAR, What::App), None),
        (BEGIN, Some(State::CO)),
    ];
    play(&rt, rt.alloc(), NEAR, &script)?;
    let script = [
        (BEGIN, Some(State::SO)),
        (Saying::Did(Deed::Timer(NEAR)), Some(State::SO)),
        (Saying::Did(Deed::Took), Some(State::SO)),
        (Saying::Did(Deed::Send(FAR)), Some(State::SO)),
        (SEND, Some(State::CO)),
        (Saying::Acked(NEAR, 1, false), Some(State::CO)),
    ];
    play(&rt, rt.alloc(), NEAR, &script)
}

#[test]
fn sides_whose_partner_is_through(rt: HostRuntime) -> Result<(), Fail> {
    let script = [
        (BEGIN, Some(State::SO)),
        (SEND, Some(State::CO)),
        (Saying::Accepted(NEAR, What::EndDialog), Some(State::DI)),
        (END_SILENTLY, Some(State::CD)),
    ];
    play(&rt, rt.alloc(), NEAR, &script)?;
    let script = [
        (BEGIN, Some(State::SO)),
        (Saying::Accepted(NEAR, What::Error), Some(State::ER)),
        (Saying::Accepted(NEAR, What::EndDialog), Some(State::ER)),
        (END_SILENTLY, Some(State::CD)),
    ];
    play(&rt, rt.alloc(), NEAR, &script)?;
    let script = [
        (BEGIN, Some(State::SO)),
        (Saying::Expired(NEAR), Some(State::ER)),
        (Saying::Did(Deed::Cleanup(NEAR)), Some(State::CD)),
    ];
    play(&rt, rt.alloc(), NEAR, &script)
}

#[test]
fn ended_sides(rt: HostRuntime) -> Result<(), Fail> {
    let script = [
        (BEGIN, Some(State::SO)),
        (SEND, Some(State::CO)),
        (END, Some(State::DO)),
        (Saying::Acked(NEAR, 1, false), Some(State::DO)),
        (Saying::Acked(NEAR, 0, false), Some(State::DO)),
        (Saying::Acked(NEAR, 2, false), Some(State::CD)),
    ];
    play(&rt, rt.alloc(), NEAR, &script)?;
    let script = [
        (BEGIN, Some(State::SO)),
        (
            Saying::Both(Deed::Send(NEAR), Deed::EndWithError(NEAR)),
            Some(State::DO),
        ),
        (Saying::Acked(NEAR, 0, true), Some(State::CD)),
    ];
    play(&rt, rt.alloc(), NEAR, &script)?;
    let script = [
        (BEGIN, Some(State::SO)),
        (END, Some(State::DO)),
        (Saying::Accepted(NEAR, What::EndDialog), Some(State::CD)),
    ];
    play(&rt, rt.alloc(), NEAR, &script)
}

#[test]
fn ended_and_expired_sides(rt: HostRuntime) -> Result<(), Fail> {
    let script = [
        (BEGIN, Some(State::SO)),
        (END, Some(State::DO)),
        (Saying::Expired(NEAR), Some(State::CD)),
    ];
    play(&rt, rt.alloc(), NEAR, &script)?;
    let script = [(BEGIN, Some(State::SO)), (END_SILENTLY, Some(State::CD))];
    play(&rt, rt.alloc(), NEAR, &script)
}

#[test]
fn partners_are_apart(rt: HostRuntime) -> Result<(), Fail> {
    let script = [
        (BEGIN, None),
        (Saying::Made(FAR, 7, 8), Some(State::DI)),
        (Saying::Did(Deed::Cleanup(NEAR)), Some(State::DI)),
        (Saying::Expired(NEAR), Some(State::DI)),
        (Saying::Did(Deed::EndSilently(FAR)), Some(State::CD)),
    ];
    play(&rt, rt.alloc(), FAR, &script)
}
