//! The headers that sides are made with.

ghost use Rattle.std.specs.Prelude.{◌≡◌, [], Some, if◌then◌else◌, IfOk, OnOk, OnErr, option_copied};
ghost use Rattle.sb_log.specs.declared.identifiers.SideId.{SideId};
ghost use Rattle.sb_model.specs.Sides.{same_side};
ghost use Rattle.sb_endpoint.specs.Headers.{header_at};

use indexmap::IndexMap;
use sb_log::{Header, SideId};
use std::alloc::{AllocError, Global};
use std::marker::Model;

/// A header for each side that was made or is to be made next.
#[derive(Drop)]
pub(crate) struct Headers {
    headers: IndexMap<SideId, Header>,
}

impl Model for Headers {
    ghost use Rattle.std.specs.Prelude.{List, map};
    ghost use Rattle.sb_endpoint.specs.Headers.{Headed, headed_of};

    ghost Value = { List Headed };

    ghost view = { λ h. map headed_of h.headers.entries };
}

fn copied(header: &Header) -> Result<Header, AllocError>
    ensures { IfOk result (λ copy. copy ≡ header.now) }
{
    header.clone()
}

impl Headers {
    pub(crate) fn new(alloc: Global) -> Headers
        ensures { result ≡ [] }
    {
        Headers {
            headers: IndexMap::new(alloc),
        }
    }

    pub(crate) fn get(&self, side: SideId) -> Option<&Header>
        ensures { option_copied result ≡ header_at self.now side }
    {
        self.headers.get(&side)
    }

    /// Keeps a copy of the header for the side, in the place of one that was kept for it.
    pub(crate) fn put(&mut self, side: SideId, header: &Header) -> Result<(), AllocError>
        ensures headers { OnOk result ((s : SideId) → header_at self.new s ≡ (if same_side side s then Some header.now else header_at self.old s)) }
        ensures err { OnErr result (self.new ≡ self.old) }
    {
        let header = copied(header)?;
        match self.headers.insert(side, header) {
            Ok(_) => Ok(()),
            Err(_) => Err(AllocError),
        }
    }
}
