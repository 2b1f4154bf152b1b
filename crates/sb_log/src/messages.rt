//! Messages, items and frames.

use crate::identifiers::{GroupId, Handle, SideId};
use crate::lists::Listed;
use crate::names::Name;
use crate::texts::{Body, Text};

/// The kind of a message.
#[derive(Clone, Debug, Drop, PartialEq, Eq)]
pub enum Kind {
    App(Name),
    EndDialog,
    Error,
    DialogTimer,
}

/// A message as RECEIVE gives it.
#[derive(Clone, Debug, Drop, PartialEq, Eq)]
pub struct Msg {
    pub kind: Kind,
    pub body: Option<Body>,
}

/// A message in a queue.
#[derive(Clone, Debug, Drop, PartialEq, Eq)]
pub struct Item {
    pub number: u64,
    pub side: SideId,
    pub sequence: u64,
    pub message: Msg,
}

pub type Items = Listed<Item>;

/// A message that RECEIVE gives, with the handle and the group of its side.
#[derive(Clone, Debug, Drop, PartialEq, Eq)]
pub struct ReceivedItem {
    pub handle: Handle,
    pub group: GroupId,
    pub item: Item,
}

pub type ReceivedItems = Listed<ReceivedItem>;

/// The two services, the contract and the instances of a conversation.
#[derive(Clone, Debug, Drop, PartialEq, Eq)]
pub struct Header {
    pub from_service: Name,
    pub to_service: Name,
    pub contract: Name,
    pub from: Handle,
    pub to: Option<Handle>,
    pub expires: u64,
}

/// What a side sends.
#[derive(Clone, Debug, Drop, PartialEq, Eq)]
pub enum Content {
    App { kind: Name, body: Option<Body> },
    EndDialog,
    Error { code: u32, text: Text },
}

/// A message on its way.
#[derive(Clone, Debug, Drop, PartialEq, Eq)]
pub struct Data {
    pub side: SideId,
    pub number: u64,
    pub header: Header,
    pub content: Content,
}

/// An acknowledgement on its way.
#[derive(Clone, Copy, Debug, PartialEq, Eq)]
pub struct Ack {
    pub side: SideId,
    pub upto: u64,
    pub closed: bool,
    pub to: Handle,
}

/// What the link carries.
#[derive(Clone, Debug, Drop, PartialEq, Eq)]
pub enum Frame {
    Data(Data),
    Ack(Ack),
}
