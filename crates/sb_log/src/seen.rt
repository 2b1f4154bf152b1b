//! What one part of an instance sees of another.

ghost use Rattle.std.specs.Prelude.{◌≡◌, Bool, Option, ℕ};
ghost use Rattle.sb_log.specs.declared.identifiers.Handle.{Handle};
ghost use Rattle.sb_log.specs.declared.identifiers.SideId.{SideId};

use crate::identifiers::{GroupId, SideId};
use crate::requests::Numbers;

/// The locks of conversation groups, as RECEIVE sees them.
pub trait Held {
    /// The transaction that holds a group.
    ghost held_by: { Self → Handle → Option ℕ };

    fn holder(&self, group: GroupId) -> Option<u64>
        ensures { result ≡ held_by self.now group };
}

/// The queues of sides, as deadlines see them.
pub trait On {
    /// Whether a side's queue is on.
    ghost is_on: { Self → SideId → Bool };

    fn on(&self, side: SideId) -> bool
        ensures { result ≡ is_on self.now side };
}

/// What RECEIVE takes: a group and the numbers of its items, in the order in
/// which they are given; no group where it finds nothing.
#[derive(Debug, Drop)]
pub struct Picked {
    pub group: Option<GroupId>,
    pub items: Numbers,
}
