//! The sides that handles name.

ghost use Rattle.std.specs.Prelude.{◌≡◌, ◌+◌, ◌<◌, ◌≤◌, [], Some, if◌then◌else◌, OnOk};
ghost use Rattle.sb_log.specs.declared.identifiers.Handle.{Handle};
ghost use Rattle.sb_model.specs.Sides.{same_id};
ghost use Rattle.sb_endpoint.specs.Handles.{side_with};
ghost use Rattle.sb_endpoint.specs.Seen.{side_in};

use indexmap::IndexMap;
use sb_log::{Handle, SideId};
use std::alloc::{AllocError, Global};
use std::marker::Model;

/// The side of each handle that one was made with.
#[derive(Drop)]
pub(crate) struct ByHandle {
    sides: IndexMap<Handle, SideId>,
}

impl Model for ByHandle {
    ghost use Rattle.std.specs.Prelude.{map};
    ghost use Rattle.indexmap.specs.IndexMap.{spare};
    ghost use Rattle.sb_endpoint.specs.Seen.{NamedSides, named_of};

    ghost Value = { NamedSides };

    ghost view = { λ b. record { handles = map named_of b.sides.entries; room = spare b.sides } };
}

impl ByHandle {
    pub(crate) fn new(alloc: Global) -> ByHandle
        ensures { result.handles ≡ [] }
    {
        ByHandle {
            sides: IndexMap::new(alloc),
        }
    }

    pub(crate) fn get(&self, handle: Handle) -> Option<SideId>
        ensures { result ≡ side_in self.now.handles handle }
    {
        self.sides.get(&handle).copied()
    }

    /// Makes room for so many more handles.
    pub(crate) fn reserve(&mut self, more: usize) -> Result<(), AllocError>
        ensures room { OnOk result (more ≤ self.new.room) }
        ensures kept { self.old.room ≤ self.new.room }
        ensures handles { self.new.handles ≡ self.old.handles }
    {
        self.sides.reserve(more)
    }

    fn put(&mut self, handle: Handle, side: SideId)
        requires { 0 < self.old.room }
        ensures handles { (h : Handle) → side_in self.new.handles h ≡ (if same_id handle h then Some side else side_in self.old.handles h) }
        ensures room { self.old.room ≤ self.new.room + 1 }
    {
        match self.sides.insert(handle, side) {
            Ok(_) => {}
            Err(_) => unreachable!(),
        }
    }

    /// Lets the handle name the side, unless the side was made before or the handle names one.
    pub(crate) fn note(&mut self, was_made: bool, side: SideId, handle: Handle)
        requires { 0 < self.old.room }
        ensures handles { (h : Handle) → side_in self.new.handles h ≡ side_with was_made side handle h (side_in self.old.handles h) }
        ensures room { self.old.room ≤ self.new.room + 1 }
    {
        if was_made || self.get(handle).is_some() {
            return;
        }
        self.put(handle, side);
    }
}
