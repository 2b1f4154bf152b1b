//! Guards given back, when a transaction ends.

ghost use Rattle.std.specs.Prelude.{◌≤◌};
ghost use Rattle.sb_txn.specs.Guards.{AreHeld, FreesGroups, NameApart};

use sb_groups::{GroupGuard, Locks};

/// Gives each guard back.
pub(crate) fn give_back(mut guards: Vec<GroupGuard>, locks: &mut Locks)
    requires held { AreHeld guards.items locks.old.holds }
    requires apart { NameApart guards.items }
    ensures free { FreesGroups guards.items locks.old.holds locks.new.holds }
    ensures spare { locks.old.spare ≤ locks.new.spare }
{
    while let Some(guard) = guards.pop() {
        locks.release(guard);
    }
    guards.destroy_empty();
}
