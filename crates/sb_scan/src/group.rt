//! Conversation groups.

ghost use Rattle.std.specs.Prelude.{◌≡◌, None, IfOk, flat_map};
ghost use Rattle.std.specs.List.{last_or};
ghost use Rattle.sb_model.specs.Sides.{ops_of, ops_of_entry};
ghost use Rattle.sb_model.specs.Groups.{group_exists, group_moved, group_of, keeps_group};
ghost use Rattle.sb_model.specs.States.{same_state};
ghost use Rattle.sb_log.specs.declared.identifiers.State.TheVariants.{CD};
ghost use Rattle.sb_scan.specs.Seen.{making_of};

use crate::making::{MadeSide, made, sides};
use crate::state::state_of;
use sb_log::{Entry, GroupId, Op, SideId, State};
use std::alloc::{AllocError, Global};

fn moved_among(ops: &[Op], side: SideId, before: Option<GroupId>) -> Option<GroupId>
    ensures { result ≡ last_or before (flat_map (group_moved side) ops.now) }
{
    let mut last = before;
    for op in ops {
        if let Op::Move { side: own, group } = op {
            if *own == side {
                last = Some(*group);
            }
        }
    }
    last
}

fn moved_in(entry: &Entry, side: SideId, before: Option<GroupId>) -> Option<GroupId>
    ensures { result ≡ last_or before (flat_map (group_moved side) (ops_of_entry entry.now)) }
{
    match entry {
        Entry::Txn { ops, .. } => moved_among(ops.as_slice(), side, before),
        _ => before,
    }
}

/// The group of the side's last move.
#[tactic(auto, using(crate::proofs::Looking::lasts))]
pub fn last_moved(log: &[Entry], side: SideId) -> Option<GroupId>
    ensures { result ≡ last_or None (flat_map (group_moved side) (ops_of log.now)) }
{
    let mut last = None;
    for entry in log {
        last = moved_in(entry, side, last);
    }
    last
}

/// The group of the side.
pub fn group_of(log: &[Entry], side: SideId) -> Option<GroupId>
    ensures { result ≡ group_of log.now side }
{
    match made(log, side) {
        None => None,
        Some(found) => match last_moved(log, side) {
            None => Some(found.group),
            Some(group) => Some(group),
        },
    }
}

fn is_closed(state: State) -> bool
    ensures { result ≡ same_state state CD }
{
    match state {
        State::CD => true,
        _ => false,
    }
}

fn keeps_group(log: &[Entry], group: GroupId, made: MadeSide<'_>) -> bool
    ensures { result ≡ keeps_group log.now group (making_of made.entry) }
{
    match group_of(log, made.side) {
        None => false,
        Some(own) => own == group && !is_closed(state_of(log, made.side)),
    }
}

/// Whether a side that isn't closed has the group.
pub fn group_exists(alloc: Global, log: &[Entry], group: GroupId) -> Result<bool, AllocError>
    ensures { IfOk result (λ exists. exists ≡ group_exists log.now group) }
{
    let sides = sides(alloc, log)?;
    let known = sides.as_slice();
    for made in known {
        if keeps_group(log, group, *made) {
            return Ok(true);
        }
    }
    Ok(false)
}
