//! The sides of conversations that a log makes.

ghost use Rattle.std.specs.Prelude.{◌≡◌, IfOk, OnOk, find, flat_map, fold, map, option_map, option_to_list, is_some};
ghost use Rattle.std.specs.List.{list_any};
ghost use Rattle.sb_model.specs.Sides.{has_side, is_of, made, made_by, made_by_op, partner, same_side, side_of, sides};
ghost use Rattle.sb_scan.specs.Seen.{making_of};
ghost use Rattle.sb_scan.specs.Firsts.{with_first};

use sb_log::{Entry, GroupId, Handle, Header, Op, SideId};
use std::alloc::{AllocError, Global};

/// A side as the log makes it.
#[derive(Clone, Copy)]
pub struct MadeSide<'a> {
    pub side: SideId,
    pub handle: Handle,
    pub group: GroupId,
    pub header: &'a Header,
}

/// The other end of the conversation.
pub fn partner(side: SideId) -> SideId
    ensures { result ≡ partner side }
{
    SideId {
        conversation: side.conversation,
        initiator: !side.initiator,
    }
}

/// The side that an operation begins.
pub fn begun(op: &Op) -> Option<MadeSide<'_>>
    ensures { option_to_list (option_map making_of result) ≡ made_by_op op.now }
{
    match op {
        Op::Begin {
            handle,
            group,
            header,
        } => Some(MadeSide {
            side: SideId {
                conversation: *handle,
                initiator: true,
            },
            handle: *handle,
            group: *group,
            header,
        }),
        _ => None,
    }
}

fn begun_as(op: &Op, side: SideId) -> Option<MadeSide<'_>>
    ensures { option_map making_of result ≡ find (is_of side) (made_by_op op.now) }
{
    let found = begun(op)?;
    if found.side == side {
        Some(found)
    } else {
        None
    }
}

/// The first making of the side among those of the operations.
pub fn begun_among(ops: &[Op], side: SideId) -> Option<MadeSide<'_>>
    ensures { option_map making_of result ≡ find (is_of side) (flat_map made_by_op ops.now) }
{
    for op in ops {
        if let Some(found) = begun_as(op, side) {
            return Some(found);
        }
    }
    None
}

/// The first making of the side by the entry.
pub fn made_in(entry: &Entry, side: SideId) -> Option<MadeSide<'_>>
    ensures { option_map making_of result ≡ find (is_of side) (made_by entry.now) }
{
    match entry {
        Entry::Txn { ops, .. } => begun_among(ops.as_slice(), side),
        Entry::Accepted {
            side: own,
            made: Some(new),
            ..
        } => {
            if *own == side {
                Some(MadeSide {
                    side,
                    handle: new.handle,
                    group: new.group,
                    header: &new.header,
                })
            } else {
                None
            }
        }
        _ => None,
    }
}

/// The making of the side that counts.
pub fn made(log: &[Entry], side: SideId) -> Option<MadeSide<'_>>
    ensures { option_map making_of result ≡ made log.now side }
{
    for entry in log {
        if let Some(found) = made_in(entry, side) {
            return Some(found);
        }
    }
    None
}

fn is_known(sides: &[MadeSide<'_>], side: SideId) -> bool
    ensures { result ≡ list_any (λ m. same_side side m.side) (map making_of sides.now) }
{
    for known in sides {
        if side == known.side {
            return true;
        }
    }
    false
}

fn push_first<'a>(sides: &mut Vec<MadeSide<'a>>, found: MadeSide<'a>) -> Result<(), AllocError>
    ensures { OnOk result (map making_of sides.new.items ≡ with_first (map making_of sides.old.items) (making_of found.entry)) }
{
    if !is_known(sides.as_slice(), found.side) {
        sides.push(found)?;
    }
    Ok(())
}

fn push_begun<'a>(sides: &mut Vec<MadeSide<'a>>, ops: &'a [Op]) -> Result<(), AllocError>
    ensures { OnOk result (map making_of sides.new.items ≡ fold with_first (map making_of sides.old.items) (flat_map made_by_op ops.now)) }
{
    for op in ops {
        if let Some(found) = begun(op) {
            push_first(sides, found)?;
        }
    }
    Ok(())
}

fn push_firsts<'a>(sides: &mut Vec<MadeSide<'a>>, entry: &'a Entry) -> Result<(), AllocError>
    ensures { OnOk result (map making_of sides.new.items ≡ fold with_first (map making_of sides.old.items) (made_by entry.now)) }
{
    match entry {
        Entry::Txn { ops, .. } => push_begun(sides, ops.as_slice()),
        Entry::Accepted {
            side,
            made: Some(new),
            ..
        } => push_first(
            sides,
            MadeSide {
                side: *side,
                handle: new.handle,
                group: new.group,
                header: &new.header,
            },
        ),
        _ => Ok(()),
    }
}

/// The sides in the order in which the log makes them.
pub fn sides(alloc: Global, log: &[Entry]) -> Result<Vec<MadeSide<'_>>, AllocError>
    ensures { IfOk result (λ found. map making_of found.items ≡ sides log.now) }
{
    let mut found = Vec::new(alloc);
    for entry in log {
        push_firsts(&mut found, entry)?;
    }
    Ok(found)
}

/// The first side with this handle.
pub fn side_of(alloc: Global, log: &[Entry], handle: Handle) -> Result<Option<SideId>, AllocError>
    ensures { IfOk result (λ side. side ≡ side_of log.now handle) }
{
    let sides = sides(alloc, log)?;
    let known = sides.as_slice();
    for found in known {
        if found.handle == handle {
            return Ok(Some(found.side));
        }
    }
    Ok(None)
}

/// Whether the log has the side.
pub fn has_side(log: &[Entry], side: SideId) -> bool
    ensures { result ≡ has_side log.now side }
{
    made(log, side).is_some()
}
