//! The types that all crates of the broker share: identifiers, names and texts,
//! messages, definitions, entries of a log, statements and their replies, and
//! the steps of a history.
#![tactic(auto)]

mod definitions;
mod entries;
mod identifiers;
mod lists;
mod messages;
mod names;
mod refusals;
mod requests;
mod seen;
mod steps;
#[cfg(test)]
mod tests;
mod texts;

pub use definitions::{
    Activation, ContractDef, Ddl, MessageDef, PriorityDef, ProcedureDef, QueueDef, RouteDef,
    Sender, SentBy, SentBys, ServiceDef, TableDef,
};
pub use entries::{Entry, Final, NewSide, Op, Ops};
pub use identifiers::{Actor, GroupId, Handle, Session, SideId, State, Who};
pub use lists::Listed;
pub use messages::{
    Ack, Content, Data, Frame, Header, Item, Items, Kind, Msg, ReceivedItem, ReceivedItems,
};
pub use names::{Name, NameRefused};
pub use refusals::{Refusal, ValueKind};
pub use requests::{
    Filter, Groups, How, Names, NumberChange, Numbers, Relation, Reply, Request, Row,
};
pub use seen::{Held, On, Picked};
pub use steps::{
    Answer, Arrived, Barred, DueKind, DumpLine, DumpLines, Event, FrameLine, FrameLines, Step,
    Verdict,
};
pub use texts::{Body, Bytes, Text};
