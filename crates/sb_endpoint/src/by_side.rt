//! The facts of each side.

ghost use Rattle.std.specs.Prelude.{◌≡◌, ◌+◌, ◌<◌, ◌≤◌, ◌^◌, [], OnOk};
ghost use Rattle.sb_log.specs.declared.identifiers.SideId.{SideId};
ghost use Rattle.sb_endpoint.specs.Changes.{endpoint_told, told};
ghost use Rattle.sb_endpoint.specs.Seen.{endpoint_in};

use crate::change::Change;
use crate::endpoint::Endpoint;
use indexmap::IndexMap;
use sb_log::SideId;
use std::alloc::{AllocError, Global};
use std::marker::Model;

/// The facts of each side of which something was said.
#[derive(Drop)]
pub(crate) struct BySide {
    endpoints: IndexMap<SideId, Endpoint>,
    // How many changes there were. No count of a side is more, so that none passes its
    // type's end as long as this one doesn't.
    changes: u64,
}

impl Model for BySide {
    ghost use Rattle.sb_endpoint.specs.Seen.{KnownSides};

    ghost Value = { KnownSides };

    ghost use Rattle.sb_endpoint.specs.Inside.{known_sides, AreCounted};

    ghost view = { known_sides };

    ghost invariant = { AreCounted };
}

impl BySide {
    pub(crate) fn new(alloc: Global) -> BySide
        ensures { result.endpoints ≡ [] }
    {
        BySide {
            endpoints: IndexMap::new(alloc),
            changes: 0,
        }
    }

    pub(crate) fn get(&self, side: SideId) -> Endpoint
        ensures facts { result ≡ endpoint_in self.now.endpoints side }
        ensures sends { result.sends + 1 < 2 ^ 64 }
        ensures accepted { result.accepted + 1 < 2 ^ 64 }
    {
        match self.endpoints.get(&side) {
            Some(endpoint) => *endpoint,
            None => Endpoint::unknown(),
        }
    }

    /// Makes room for so many more changes. That a count can't take them is want of memory.
    pub(crate) fn reserve(&mut self, more: usize) -> Result<(), AllocError>
        ensures room { OnOk result (more ≤ self.new.room) }
        ensures kept { self.old.room ≤ self.new.room }
        ensures endpoints { self.new.endpoints ≡ self.old.endpoints }
    {
        if more as u64 > u64::MAX - 1 - self.changes {
            return Err(AllocError);
        }
        self.endpoints.reserve(more)
    }

    /// Changes what is known of a side.
    pub(crate) fn change(&mut self, side: SideId, change: Change)
        requires { 0 < self.old.room }
        ensures endpoints { (s : SideId) → endpoint_in self.new.endpoints s ≡ endpoint_told s (endpoint_in self.old.endpoints s) (told side change) }
        ensures room { self.old.room ≤ self.new.room + 1 }
    {
        let endpoint = self.get(side).changed(change);
        match self.endpoints.insert(side, endpoint) {
            Ok(_) => {}
            Err(_) => unreachable!(),
        }
        self.changes += 1;
    }
}
