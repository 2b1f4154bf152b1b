//! The refusals of statements.

use crate::identifiers::{GroupId, Handle, Session, State, Who};
use crate::names::Name;
use crate::requests::Numbers;
use crate::texts::Text;
use std::alloc::AllocError;
use std::fmt;
use thiserror::Error;

/// The kind of a value of a batch.
#[derive(Clone, Copy, Debug, PartialEq, Eq)]
pub enum ValueKind {
    Bigint,
    Text,
    Bytes,
    Identifier,
}

/// The long keyword of the kind.
impl fmt::Display for ValueKind {
    fn fmt<W: fmt::Write>(&self, f: &mut fmt::Formatter<W>) -> fmt::Result {
        f.write_str(match self {
            ValueKind::Bigint => "BIGINT",
            ValueKind::Text => "NVARCHAR",
            ValueKind::Bytes => "VARBINARY",
            ValueKind::Identifier => "UNIQUEIDENTIFIER",
        })
    }
}

/// Why a statement is refused. The text is the one that a transcript shows
/// after `refused`: the number, the name and the shown value.
#[derive(Debug, Drop, PartialEq, Eq, Error)]
pub enum Refusal {
    /// The instance is down.
    #[error("1 Down {0}")]
    Down(Who),
    /// The variable isn't declared.
    #[error("2 NoVariable {0}")]
    NoVariable(Text),
    /// A value doesn't convert to this kind, or is NULL where it may not be.
    #[error("3 WrongKind {0}")]
    WrongKind(ValueKind),
    /// A sum or difference with this left operand leaves BIGINT.
    #[error("4 Overflow {0}")]
    Overflow(i64),
    /// COMMIT or ROLLBACK, and this session has no open transaction.
    #[error("5 NoTransaction {session}")]
    NoTransaction { session: Session },
    /// BEGIN TRANSACTION or a definition, and this transaction is open.
    #[error("6 InTransaction {0}")]
    InTransaction(u64),
    /// The name exists in its kind, or a list names it twice.
    #[error("7 NameTaken {0}")]
    NameTaken(Name),
    #[error("8 NoMessageType {0}")]
    NoMessageType(Name),
    #[error("9 NoContract {0}")]
    NoContract(Name),
    #[error("10 NoQueue {0}")]
    NoQueue(Name),
    #[error("11 NoProcedure {0}")]
    NoProcedure(Name),
    #[error("12 NoService {0}")]
    NoService(Name),
    #[error("13 NoTable {0}")]
    NoTable(Name),
    /// The contract lets its initiator send nothing.
    #[error("14 NothingFromInitiator {0}")]
    NothingFromInitiator(Name),
    /// There are 4,096 definitions beside the built-in ones.
    #[error("15 TooMany 4096")]
    TooMany,
    /// No side has this handle, or it was cleaned.
    #[error("16 NoConversation {0}")]
    NoConversation(Handle),
    #[error("17 NoGroup {0}")]
    NoGroup(GroupId),
    /// The side's state doesn't allow the statement.
    #[error("18 WrongState {0:?}")]
    WrongState(State),
    #[error("19 NotInContract {0}")]
    NotInContract(Name),
    /// The contract gives this type to the other side alone.
    #[error("20 NotYours {0}")]
    NotYours(Name),
    /// A type without a body was sent with one of so many bytes.
    #[error("21 BodyNotEmpty {0}")]
    BodyNotEmpty(u64),
    /// The bytes of a body or of a description that is too long.
    #[error("22 BodyTooLong {0}")]
    BodyTooLong(u64),
    /// A number outside its range, or the characters of a service's text that is no name.
    #[error("23 BadNumber {0}")]
    BadNumber(i64),
    #[error("24 QueueOff {0}")]
    QueueOff(Name),
    /// This transaction holds the group.
    #[error("25 GroupHeld {0}")]
    GroupHeld(u64),
    /// This transaction holds the row's key.
    #[error("26 RowHeld {0}")]
    RowHeld(u64),
    #[error("27 DuplicateKey {0}")]
    DuplicateKey(i64),
    /// The transactions that would wait in a circle, from the reader's own on.
    #[error("28 Deadlock {0}")]
    Deadlock(Numbers),
    /// The bytes of an entry that is longer than its limit.
    #[error("29 TooBig {0}")]
    TooBig(u64),
    /// The end that the journal would have had, which is past its limit.
    #[error("30 Full {0}")]
    Full(u64),
    /// A call of this instance's disk failed.
    #[error("31 DiskFailed {0}")]
    DiskFailed(Who),
    /// Memory is wanting. It may come at any time and is never recorded.
    #[error("32 OutOfMemory")]
    OutOfMemory,
    /// The statement or the command is read, and not built yet. It comes before all others.
    #[error("33 NotYet")]
    NotYet,
}

impl Clone for Refusal {
    ghost use Rattle.std.specs.Prelude.{◌≡◌};

    ghost is_clone = { λ refusal copy. copy ≡ refusal };

    fn clone(&self) -> Result<Refusal, AllocError> {
        match self {
            Refusal::Down(instance) => Ok(Refusal::Down(*instance)),
            Refusal::NoVariable(variable) => Ok(Refusal::NoVariable(variable.clone()?)),
            Refusal::WrongKind(kind) => Ok(Refusal::WrongKind(*kind)),
            Refusal::Overflow(left) => Ok(Refusal::Overflow(*left)),
            Refusal::NoTransaction { session } => Ok(Refusal::NoTransaction { session: *session }),
            Refusal::InTransaction(tx) => Ok(Refusal::InTransaction(*tx)),
            Refusal::NameTaken(name) => Ok(Refusal::NameTaken(name.clone()?)),
            Refusal::NoMessageType(name) => Ok(Refusal::NoMessageType(name.clone()?)),
            Refusal::NoContract(name) => Ok(Refusal::NoContract(name.clone()?)),
            Refusal::NoQueue(name) => Ok(Refusal::NoQueue(name.clone()?)),
            Refusal::NoProcedure(name) => Ok(Refusal::NoProcedure(name.clone()?)),
            Refusal::NoService(name) => Ok(Refusal::NoService(name.clone()?)),
            Refusal::NoTable(name) => Ok(Refusal::NoTable(name.clone()?)),
            Refusal::NothingFromInitiator(name) => Ok(Refusal::NothingFromInitiator(name.clone()?)),
            Refusal::TooMany => Ok(Refusal::TooMany),
            Refusal::NoConversation(handle) => Ok(Refusal::NoConversation(*handle)),
            Refusal::NoGroup(group) => Ok(Refusal::NoGroup(*group)),
            Refusal::WrongState(state) => Ok(Refusal::WrongState(*state)),
            Refusal::NotInContract(name) => Ok(Refusal::NotInContract(name.clone()?)),
            Refusal::NotYours(name) => Ok(Refusal::NotYours(name.clone()?)),
            Refusal::BodyNotEmpty(bytes) => Ok(Refusal::BodyNotEmpty(*bytes)),
            Refusal::BodyTooLong(bytes) => Ok(Refusal::BodyTooLong(*bytes)),
            Refusal::BadNumber(number) => Ok(Refusal::BadNumber(*number)),
            Refusal::QueueOff(name) => Ok(Refusal::QueueOff(name.clone()?)),
            Refusal::GroupHeld(tx) => Ok(Refusal::GroupHeld(*tx)),
            Refusal::RowHeld(tx) => Ok(Refusal::RowHeld(*tx)),
            Refusal::DuplicateKey(key) => Ok(Refusal::DuplicateKey(*key)),
            Refusal::Deadlock(txs) => Ok(Refusal::Deadlock(txs.clone()?)),
            Refusal::TooBig(bytes) => Ok(Refusal::TooBig(*bytes)),
            Refusal::Full(end) => Ok(Refusal::Full(*end)),
            Refusal::DiskFailed(instance) => Ok(Refusal::DiskFailed(*instance)),
            Refusal::OutOfMemory => Ok(Refusal::OutOfMemory),
            Refusal::NotYet => Ok(Refusal::NotYet),
        }
    }
}
