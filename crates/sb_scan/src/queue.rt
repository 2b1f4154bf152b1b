//! The queue of a side.

ghost use Rattle.std.specs.Prelude.{◌≡◌, option_copied, option_map};
ghost use Rattle.sb_model.specs.Items.{header_of, own_end, queue_of};
ghost use Rattle.sb_model.specs.Sides.{made};

use crate::catalog::service_queue;
use crate::making::{MadeSide, made};
use sb_log::{Entry, Header, Name, SideId};

/// The header that the side was made with.
pub fn header_of(log: &[Entry], side: SideId) -> Option<&Header>
    ensures { option_copied result ≡ header_of log.now side }
{
    match made(log, side) {
        None => None,
        Some(found) => Some(found.header),
    }
}

/// The service on the side's own end of its header.
pub fn own_end(side: SideId, header: &Header) -> &Name
    ensures { result.now ≡ own_end side header.now }
{
    if side.initiator {
        &header.from_service
    } else {
        &header.to_service
    }
}

/// The queue of the side.
pub fn queue_of(log: &[Entry], side: SideId) -> Option<&Name>
    ensures { option_copied result ≡ queue_of log.now side }
{
    let header = header_of(log, side)?;
    service_queue(log, own_end(side, header))
}
