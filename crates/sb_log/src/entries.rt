//! Entries of the log.

ghost use Rattle.std.specs.Prelude.{◌≡◌, IfOk};

use crate::definitions::{Ddl, copied_definition};
use crate::identifiers::{GroupId, Handle, SideId};
use crate::lists::Listed;
use crate::messages::{Content, Header};
use crate::names::Name;
use crate::texts::{Body, Text};
use std::alloc::AllocError;

/// The final message of a side that ended.
#[derive(Clone, Debug, Drop, PartialEq, Eq)]
pub enum Final {
    Silent,
    EndDialog,
    Error { code: u32, text: Text },
}

/// One operation of a transaction.
#[derive(Clone, Debug, Drop, PartialEq, Eq)]
pub enum Op {
    Begin {
        handle: Handle,
        group: GroupId,
        header: Header,
    },
    Send {
        side: SideId,
        kind: Name,
        body: Option<Body>,
    },
    Took {
        queue: Name,
        item: u64,
    },
    End {
        side: SideId,
        last: Final,
    },
    Cleanup {
        side: SideId,
    },
    Move {
        side: SideId,
        group: GroupId,
    },
    Timer {
        side: SideId,
        at: u64,
    },
    Put {
        table: Name,
        key: i64,
        n: Option<i64>,
        body: Option<Text>,
    },
    Delete {
        table: Name,
        key: i64,
    },
}

pub type Ops = Listed<Op>;

/// What an accepted first frame makes.
#[derive(Clone, Debug, Drop, PartialEq, Eq)]
pub struct NewSide {
    pub handle: Handle,
    pub group: GroupId,
    pub header: Header,
}

/// An entry of an instance's log.
#[derive(Debug, Drop, PartialEq, Eq)]
pub enum Entry {
    Defined(Ddl),
    Txn {
        tx: u64,
        ops: Ops,
    },
    Accepted {
        side: SideId,
        number: u64,
        made: Option<NewSide>,
        content: Content,
    },
    Acked {
        side: SideId,
        upto: u64,
        closed: bool,
    },
    Fired {
        side: SideId,
    },
    Expired {
        side: SideId,
    },
    QueueSet {
        queue: Name,
        on: bool,
    },
}

fn copied_operations(ops: &Ops) -> Result<Ops, AllocError>
    ensures { IfOk result (λ copy. copy ≡ ops.now) }
{
    ops.clone()
}

impl Clone for Entry {
    ghost is_clone = { λ entry copy. copy ≡ entry };

    fn clone(&self) -> Result<Entry, AllocError> {
        match self {
            Entry::Defined(ddl) => Ok(Entry::Defined(copied_definition(ddl)?)),
            Entry::Txn { tx, ops } => Ok(Entry::Txn {
                tx: *tx,
                ops: copied_operations(ops)?,
            }),
            Entry::Accepted {
                side,
                number,
                made,
                content,
            } => Ok(Entry::Accepted {
                side: *side,
                number: *number,
                made: made.clone()?,
                content: content.clone()?,
            }),
            Entry::Acked { side, upto, closed } => Ok(Entry::Acked {
                side: *side,
                upto: *upto,
                closed: *closed,
            }),
            Entry::Fired { side } => Ok(Entry::Fired { side: *side }),
            Entry::Expired { side } => Ok(Entry::Expired { side: *side }),
            Entry::QueueSet { queue, on } => Ok(Entry::QueueSet {
                queue: queue.clone()?,
                on: *on,
            }),
        }
    }
}
