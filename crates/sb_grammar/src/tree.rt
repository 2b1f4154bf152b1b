//! Statements as they are written.

use sb_log::{Bytes, Ddl, Handle, Name, Text, ValueKind};
use sqlite_items::{Boxed, Items};

/// An expression. Its brackets are gone.
#[cycle(expr)]
#[derive(Debug, Drop)]
pub enum Expr {
    Null,
    Number(i64),
    Text(Text),
    Bytes(Bytes),
    Variable(Text),
    /// `@@ROWCOUNT`
    RowCount,
    /// Two operands or more. The first one is no sum, as the brackets around it say nothing.
    Sum(Boxed<Expr>, Items<Term>),
    Cast(Boxed<Expr>, ValueKind),
}

/// A sign, and the operand behind it.
#[cycle(expr)]
#[derive(Debug, Drop)]
pub struct Term {
    pub sign: Sign,
    pub operand: Expr,
}

#[derive(Clone, Copy, Debug, PartialEq, Eq)]
pub enum Sign {
    Plus,
    Minus,
}

#[derive(Clone, Copy, Debug, PartialEq, Eq)]
pub enum Comparison {
    Equal,
    NotEqual,
    Less,
    Greater,
}

/// What IF tests. Its brackets are gone.
#[cycle(condition)]
#[derive(Debug, Drop)]
pub enum Condition {
    Compare(Comparison, Expr, Expr),
    IsNull(Expr),
    IsNotNull(Expr),
    /// Conditions joined by AND, two or more.
    All(Items<Condition>),
    /// Conditions joined by OR, two or more.
    Any(Items<Condition>),
}

/// What stands in brackets where a condition is read.
#[derive(Debug, Drop)]
pub enum Bracketed {
    Value(Expr),
    Test(Condition),
}

/// The broker instance of BEGIN DIALOG: the own one, `CURRENT DATABASE`, or the one with this id.
#[derive(Clone, Copy, Debug, PartialEq, Eq)]
pub enum BrokerInstance {
    Current,
    Other(Handle),
}

/// An option of BEGIN DIALOG.
#[derive(Debug, Drop)]
pub enum DialogOption {
    RelatedConversation(Expr),
    RelatedGroup(Expr),
    Lifetime(Expr),
    EncryptionOff,
}

/// A column of a received message.
#[derive(Clone, Copy, Debug, PartialEq, Eq)]
pub enum Column {
    Handle,
    Group,
    TypeName,
    Sequence,
    Body,
    CastBody(ValueKind),
}

#[derive(Debug, Drop)]
pub struct Assignment {
    pub variable: Text,
    pub column: Column,
}

/// The columns of RECEIVE.
#[derive(Debug, Drop)]
pub enum Columns {
    All,
    Named(Items<Column>),
    Assigned(Items<Assignment>),
}

/// The WHERE of RECEIVE.
#[derive(Debug, Drop)]
pub enum Filter {
    All,
    Conversation(Expr),
    Group(Expr),
}

#[derive(Debug, Drop)]
pub struct Receive {
    pub top: Option<Expr>,
    pub columns: Columns,
    pub queue: Name,
    pub filter: Filter,
}

#[derive(Debug, Drop)]
pub struct GetGroup {
    pub variable: Text,
    pub queue: Name,
}

/// What WAITFOR waits for.
#[derive(Debug, Drop)]
pub enum Waited {
    Receive(Receive),
    GetGroup(GetGroup),
}

/// How END CONVERSATION ends.
#[derive(Debug, Drop)]
pub enum Ending {
    Plain,
    Error { code: Expr, description: Expr },
    Cleanup,
}

/// A change of UPDATE: `n = e`, `n = n + e`, `n = n - e` or `body = e`.
#[derive(Debug, Drop)]
pub enum Change {
    Number(Expr),
    Add(Expr),
    Subtract(Expr),
    Body(Expr),
}

#[derive(Clone, Copy, Debug, PartialEq, Eq)]
pub enum RowColumn {
    Number,
    Body,
}

/// `variable = column` of SELECT.
#[derive(Debug, Drop)]
pub struct Selected {
    pub variable: Text,
    pub column: RowColumn,
}

#[derive(Debug, Drop)]
pub struct Declaration {
    pub variable: Text,
    pub kind: ValueKind,
    pub value: Option<Expr>,
}

/// A statement.
#[cycle(statement)]
#[derive(Debug, Drop)]
pub enum Statement {
    /// A definition other than of a procedure.
    Define(Ddl),
    CreateProcedure {
        name: Name,
        /// Where its AS begins in the batch.
        at: usize,
        body: Items<Statement>,
    },
    AlterQueue {
        queue: Name,
        on: bool,
    },
    BeginTransaction,
    Commit,
    Rollback,
    BeginDialog {
        variable: Text,
        from: Name,
        to: Expr,
        instance: Option<BrokerInstance>,
        contract: Option<Name>,
        options: Items<DialogOption>,
    },
    Send {
        conversation: Expr,
        kind: Option<Name>,
        body: Option<Expr>,
    },
    Receive(Receive),
    GetGroup(GetGroup),
    Waitfor {
        waited: Waited,
        timeout: Option<Expr>,
    },
    Move {
        conversation: Expr,
        group: Expr,
    },
    EndConversation {
        conversation: Expr,
        ending: Ending,
    },
    Timer {
        conversation: Expr,
        timeout: Expr,
    },
    Insert {
        table: Name,
        id: Expr,
        n: Expr,
        body: Expr,
    },
    Update {
        table: Name,
        changes: Items<Change>,
        id: Expr,
    },
    Delete {
        table: Name,
        id: Expr,
    },
    Select {
        selected: Items<Selected>,
        table: Name,
        id: Expr,
    },
    Declare(Items<Declaration>),
    Set {
        variable: Text,
        value: Expr,
    },
    SetNoCount(bool),
    If {
        condition: Condition,
        then: Boxed<Statement>,
        otherwise: Option<Boxed<Statement>>,
    },
    Block(Items<Statement>),
    Return,
}
