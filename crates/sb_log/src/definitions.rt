//! Definitions of the catalog.

ghost use Rattle.std.specs.Prelude.{◌≡◌, IfOk};

use crate::identifiers::{Handle, Who};
use crate::lists::Listed;
use crate::names::Name;
use crate::requests::Names;
use crate::texts::Text;
use std::alloc::AllocError;

/// A message type.
#[derive(Clone, Debug, Drop, PartialEq, Eq)]
pub struct MessageDef {
    pub name: Name,
    pub empty: bool,
}

/// Who may send a type.
#[derive(Clone, Copy, Debug, PartialEq, Eq)]
pub enum Sender {
    Initiator,
    Target,
    Any,
}

/// A type of a contract.
#[derive(Clone, Debug, Drop, PartialEq, Eq)]
pub struct SentBy {
    pub kind: Name,
    pub by: Sender,
}

pub type SentBys = Listed<SentBy>;

/// A contract.
#[derive(Clone, Debug, Drop, PartialEq, Eq)]
pub struct ContractDef {
    pub name: Name,
    pub types: SentBys,
}

/// The activation of a queue.
#[derive(Clone, Debug, Drop, PartialEq, Eq)]
pub struct Activation {
    pub on: bool,
    pub procedure: Name,
    pub readers: i64,
}

/// A queue.
#[derive(Clone, Debug, Drop, PartialEq, Eq)]
pub struct QueueDef {
    pub name: Name,
    pub on: bool,
    pub poison: bool,
    pub activation: Option<Activation>,
}

/// A service.
#[derive(Clone, Debug, Drop, PartialEq, Eq)]
pub struct ServiceDef {
    pub name: Name,
    pub queue: Name,
    pub contracts: Names,
}

/// A route; no instance in `to` means the own one.
#[derive(Clone, Debug, Drop, PartialEq, Eq)]
pub struct RouteDef {
    pub name: Name,
    pub service: Option<Text>,
    pub instance: Option<Handle>,
    pub to: Option<Who>,
}

/// A broker priority.
#[derive(Clone, Debug, Drop, PartialEq, Eq)]
pub struct PriorityDef {
    pub name: Name,
    pub contract: Option<Name>,
    pub local: Option<Name>,
    pub remote: Option<Text>,
    pub level: i64,
}

/// A table.
#[derive(Clone, Debug, Drop, PartialEq, Eq)]
pub struct TableDef {
    pub name: Name,
}

/// A procedure, by its text.
#[derive(Clone, Debug, Drop, PartialEq, Eq)]
pub struct ProcedureDef {
    pub name: Name,
    pub text: Text,
}

/// A definition.
#[derive(Clone, Debug, Drop, PartialEq, Eq)]
pub enum Ddl {
    MessageType(MessageDef),
    Contract(ContractDef),
    Queue(QueueDef),
    Service(ServiceDef),
    Route(RouteDef),
    Priority(PriorityDef),
    Table(TableDef),
    Procedure(ProcedureDef),
}

/// A copy, for the types that hold a definition.
pub fn copied_definition(ddl: &Ddl) -> Result<Ddl, AllocError>
    ensures { IfOk result (λ copy. copy ≡ ddl.now) }
{
    ddl.clone()
}
