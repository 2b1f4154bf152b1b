//! A message as it is stored.

ghost use Rattle.std.specs.Prelude.{◌≡◌, ◌==◌, filter, map, not, vec_capacity, vec_len, ◌≤◌};
ghost use Rattle.sb_model.specs.Sides.{same_side};
ghost use Rattle.sb_pick.specs.Stored.{with_group_of};

use sb_log::{GroupId, Handle, Item, SideId};

/// A message that waits, with its side's handle, group and level.
#[derive(Drop)]
pub(crate) struct Stored {
    pub item: Item,
    pub handle: Handle,
    /// The place of its queue among those that are known.
    pub place: usize,
    pub group: GroupId,
    pub level: u8,
}

/// Keeps all but the message with this number.
pub(crate) fn keep_others(waiting: &mut Vec<Stored>, number: u64)
    ensures items { waiting.new.items ≡ filter (λ stored. not (stored.item.number == number)) waiting.old.items }
    ensures len { vec_len waiting.new ≤ vec_len waiting.old }
    ensures capacity { vec_capacity waiting.new ≡ vec_capacity waiting.old }
{
    waiting.retain(|stored| stored.item.number != number);
}

/// Keeps all but the messages of the side.
pub(crate) fn keep_other_sides(waiting: &mut Vec<Stored>, side: SideId)
    ensures items { waiting.new.items ≡ filter (λ stored. not (same_side stored.item.side side)) waiting.old.items }
    ensures len { vec_len waiting.new ≤ vec_len waiting.old }
    ensures capacity { vec_capacity waiting.new ≡ vec_capacity waiting.old }
{
    waiting.retain(|stored| stored.item.side != side);
}

/// Puts the messages of the side into the group.
pub(crate) fn regroup(waiting: &mut Vec<Stored>, side: SideId, group: GroupId)
    ensures items { waiting.new.items ≡ map (with_group_of side group) waiting.old.items }
    ensures len { vec_len waiting.new ≡ vec_len waiting.old }
    ensures capacity { vec_capacity waiting.new ≡ vec_capacity waiting.old }
{
    for i in 0..waiting.len() {
        let stored = &mut waiting[i];
        if stored.item.side == side {
            stored.group = group;
        }
    }
}
