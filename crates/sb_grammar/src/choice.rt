//! Which way reading goes on at a token.

use crate::tree::{Change, DialogOption, Statement};
use sb_log::{Activation, Handle, Name, Text, ValueKind, Who};
use sqlite_items::Items;

/// Where statements are read: a procedure has no definition, ALTER QUEUE or transaction statement
/// within, but ROLLBACK.
#[derive(Clone, Copy, Debug, PartialEq, Eq)]
pub enum Context {
    Batch,
    Procedure,
}

/// The first word of a statement.
#[derive(Clone, Copy, Debug, PartialEq, Eq)]
pub enum First {
    Create,
    Alter,
    Begin,
    Commit,
    Rollback,
    Send,
    Waitfor,
    Receive,
    Get,
    Move,
    End,
    Insert,
    Update,
    Delete,
    Select,
    Declare,
    Set,
    If,
    Return,
}

/// A word that isn't supported where it stands.
#[derive(Clone, Copy, Debug, PartialEq, Eq)]
pub enum Barred {
    WellFormedXml,
    ValidXml,
    On,
    Transport,
    Lifetime,
    MirrorAddress,
    Into,
    Drop,
    While,
    Print,
    Exec,
    Execute,
    Use,
    Save,
    Try,
}

/// What CREATE makes, by its first word.
#[derive(Clone, Copy, Debug, PartialEq, Eq)]
pub enum Made {
    Message,
    Contract,
    Queue,
    Service,
    Route,
    Broker,
    Table,
}

/// What BEGIN begins, if not a block.
#[derive(Clone, Copy, Debug, PartialEq, Eq)]
pub enum Begun {
    Transaction,
    Dialog,
    Conversation,
}

/// A kind's first word, and whether a length follows.
#[derive(Clone, Copy, Debug, PartialEq, Eq)]
pub struct KindWord {
    pub kind: ValueKind,
    pub is_sized: bool,
}

#[derive(Clone, Copy, Debug, PartialEq, Eq)]
pub enum QueueOption {
    Status,
    Retention,
    Activation,
    Poison,
}

/// The options of CREATE QUEUE that are written.
#[derive(Debug, Drop)]
pub struct QueueOptions {
    pub status: Option<bool>,
    pub retention: bool,
    pub activation: Option<Option<Activation>>,
    pub poison: Option<bool>,
}

#[derive(Clone, Copy, Debug, PartialEq, Eq)]
pub enum ActivationOption {
    Status,
    Procedure,
    Readers,
    Execute,
}

/// The options of an ACTIVATION that are written.
#[derive(Debug, Drop)]
pub struct ActivationOptions {
    pub status: Option<bool>,
    pub procedure: Option<Name>,
    pub readers: Option<i64>,
    pub execute: bool,
}

#[derive(Clone, Copy, Debug, PartialEq, Eq)]
pub enum RouteOption {
    Service,
    Instance,
    Address,
}

/// The options of CREATE ROUTE that are written.
#[derive(Debug, Drop)]
pub struct RouteOptions {
    pub service: Option<Text>,
    pub instance: Option<Handle>,
    pub address: Option<Option<Who>>,
}

#[derive(Clone, Copy, Debug, PartialEq, Eq)]
pub enum PriorityOption {
    Contract,
    Local,
    Remote,
    Level,
}

/// The options of CREATE BROKER PRIORITY that are written.
#[derive(Debug, Drop)]
pub struct PriorityOptions {
    pub contract: Option<Option<Name>>,
    pub local: Option<Option<Name>>,
    pub remote: Option<Option<Text>>,
    pub level: Option<i64>,
}

#[derive(Clone, Copy, Debug, PartialEq, Eq)]
pub enum DialogWord {
    RelatedConversation,
    RelatedGroup,
    Lifetime,
    Encryption,
}

/// The options of BEGIN DIALOG that are written, in their order.
#[derive(Debug, Drop)]
pub struct DialogOptions {
    pub options: Items<DialogOption>,
    pub is_related: bool,
    pub has_lifetime: bool,
    pub has_encryption: bool,
}

#[derive(Clone, Copy, Debug, PartialEq, Eq)]
pub enum ChangeWord {
    Number,
    Body,
}

/// The changes of UPDATE that are written, in their order.
#[derive(Debug, Drop)]
pub struct Changes {
    pub changes: Items<Change>,
    pub has_number: bool,
    pub has_body: bool,
}

/// How far a batch or a procedure is read: nothing yet, what may only stand at its beginning, more,
/// or its last statement.
#[derive(Clone, Copy, Debug, PartialEq, Eq)]
pub enum Place {
    Start,
    Inside,
    Closed,
}

/// The statements of a batch or a procedure so far.
#[derive(Debug, Drop)]
pub struct Progress {
    pub statements: Items<Statement>,
    pub place: Place,
}
