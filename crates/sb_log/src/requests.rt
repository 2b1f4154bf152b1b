//! Statements whose expressions have been computed, and their replies.

ghost use Rattle.std.specs.Prelude.{◌≡◌};

use crate::definitions::{Ddl, copied_definition};
use crate::identifiers::{GroupId, Handle};
use crate::lists::Listed;
use crate::messages::ReceivedItems;
use crate::names::Name;
use crate::texts::{Bytes, Text};
use std::alloc::AllocError;

pub type Names = Listed<Name>;

pub type Numbers = Listed<u64>;

pub type Groups = Listed<GroupId>;

/// What a new dialog's group is taken from.
#[derive(Clone, Copy, Debug, PartialEq, Eq)]
pub enum Relation {
    Alone,
    Conversation(Handle),
    Group(GroupId),
}

/// Which messages RECEIVE looks at.
#[derive(Clone, Copy, Debug, PartialEq, Eq)]
pub enum Filter {
    All,
    Side(Handle),
    Group(GroupId),
}

/// How a conversation is ended.
#[derive(Clone, Debug, Drop, PartialEq, Eq)]
pub enum How {
    Plain,
    Error { code: i64, text: Text },
    Cleanup,
}

/// The change of a row's number.
#[derive(Clone, Copy, Debug, PartialEq, Eq)]
pub enum NumberChange {
    To(Option<i64>),
    Add(i64),
    Subtract(i64),
}

/// A row of a table.
#[derive(Clone, Debug, Drop, PartialEq, Eq)]
pub struct Row {
    pub n: Option<i64>,
    pub body: Option<Text>,
}

/// A statement whose expressions have been computed.
#[derive(Debug, Drop, PartialEq, Eq)]
pub enum Request {
    Define(Ddl),
    AlterQueue {
        queue: Name,
        on: bool,
    },
    Begin,
    Commit,
    Rollback,
    BeginDialog {
        from: Name,
        to: Text,
        instance: Option<Handle>,
        contract: Option<Name>,
        relation: Relation,
        lifetime: Option<i64>,
    },
    Send {
        handle: Handle,
        kind: Option<Name>,
        body: Option<Bytes>,
    },
    Receive {
        queue: Name,
        top: Option<i64>,
        filter: Filter,
    },
    GetGroup {
        queue: Name,
    },
    Move {
        handle: Handle,
        group: GroupId,
    },
    End {
        handle: Handle,
        how: How,
    },
    Timer {
        handle: Handle,
        seconds: i64,
    },
    Insert {
        table: Name,
        key: i64,
        n: Option<i64>,
        body: Option<Text>,
    },
    Update {
        table: Name,
        key: i64,
        n: Option<NumberChange>,
        body: Option<Option<Text>>,
    },
    Delete {
        table: Name,
        key: i64,
    },
    Read {
        table: Name,
        key: i64,
    },
}

/// The reply to a statement that isn't refused.
#[derive(Debug, Drop, PartialEq, Eq)]
pub enum Reply {
    Done,
    Began { tx: u64 },
    Committed { tx: u64 },
    RolledBack { tx: u64, off: Names },
    Dialog { handle: Handle, group: GroupId },
    Rows { count: u64, row: Option<Row> },
    Received { items: ReceivedItems },
    Group { group: Option<GroupId> },
    Waiting { tx: u64 },
}

impl Clone for Request {
    ghost is_clone = { λ request copy. copy ≡ request };

    fn clone(&self) -> Result<Request, AllocError> {
        match self {
            Request::Define(ddl) => Ok(Request::Define(copied_definition(ddl)?)),
            Request::AlterQueue { queue, on } => Ok(Request::AlterQueue {
                queue: queue.clone()?,
                on: *on,
            }),
            Request::Begin => Ok(Request::Begin),
            Request::Commit => Ok(Request::Commit),
            Request::Rollback => Ok(Request::Rollback),
            Request::BeginDialog {
                from,
                to,
                instance,
                contract,
                relation,
                lifetime,
            } => Ok(Request::BeginDialog {
                from: from.clone()?,
                to: to.clone()?,
                instance: *instance,
                contract: contract.clone()?,
                relation: *relation,
                lifetime: *lifetime,
            }),
            Request::Send { handle, kind, body } => Ok(Request::Send {
                handle: *handle,
                kind: kind.clone()?,
                body: body.clone()?,
            }),
            Request::Receive { queue, top, filter } => Ok(Request::Receive {
                queue: queue.clone()?,
                top: *top,
                filter: *filter,
            }),
            Request::GetGroup { queue } => Ok(Request::GetGroup {
                queue: queue.clone()?,
            }),
            Request::Move { handle, group } => Ok(Request::Move {
                handle: *handle,
                group: *group,
            }),
            Request::End { handle, how } => Ok(Request::End {
                handle: *handle,
                how: how.clone()?,
            }),
            Request::Timer { handle, seconds } => Ok(Request::Timer {
                handle: *handle,
                seconds: *seconds,
            }),
            Request::Insert {
                table,
                key,
                n,
                body,
            } => Ok(Request::Insert {
                table: table.clone()?,
                key: *key,
                n: *n,
                body: body.clone()?,
            }),
            Request::Update {
                table,
                key,
                n,
                body,
            } => Ok(Request::Update {
                table: table.clone()?,
                key: *key,
                n: *n,
                body: body.clone()?,
            }),
            Request::Delete { table, key } => Ok(Request::Delete {
                table: table.clone()?,
                key: *key,
            }),
            Request::Read { table, key } => Ok(Request::Read {
                table: table.clone()?,
                key: *key,
            }),
        }
    }
}

impl Clone for Reply {
    ghost is_clone = { λ reply copy. copy ≡ reply };

    fn clone(&self) -> Result<Reply, AllocError> {
        match self {
            Reply::Done => Ok(Reply::Done),
            Reply::Began { tx } => Ok(Reply::Began { tx: *tx }),
            Reply::Committed { tx } => Ok(Reply::Committed { tx: *tx }),
            Reply::RolledBack { tx, off } => Ok(Reply::RolledBack {
                tx: *tx,
                off: off.clone()?,
            }),
            Reply::Dialog { handle, group } => Ok(Reply::Dialog {
                handle: *handle,
                group: *group,
            }),
            Reply::Rows { count, row } => Ok(Reply::Rows {
                count: *count,
                row: row.clone()?,
            }),
            Reply::Received { items } => Ok(Reply::Received {
                items: items.clone()?,
            }),
            Reply::Group { group } => Ok(Reply::Group { group: *group }),
            Reply::Waiting { tx } => Ok(Reply::Waiting { tx: *tx }),
        }
    }
}
