//! Instances, handles, sides and sessions.

ghost use Rattle.std.specs.Prelude.{◌≡◌, IfOk, string_bytes};
ghost use Rattle.sb_log.specs.Handles.{handle_of_text, text_of_handle};

use std::alloc::{AllocError, Global};
use std::fmt;
use uuid::Uuid;

/// One of the two instances.
#[derive(Clone, Copy, Debug, PartialEq, Eq, PartialOrd, Ord, Hash)]
pub enum Who {
    A,
    B,
}

impl fmt::Display for Who {
    fn fmt<W: fmt::Write>(&self, f: &mut fmt::Formatter<W>) -> fmt::Result {
        match self {
            Who::A => f.write_str("A"),
            Who::B => f.write_str("B"),
        }
    }
}

/// A conversation handle, a conversation group's id or a broker instance's id.
///
/// The high 64 bits are the tag of the instance that drew it, the low 64 bits
/// come from that instance's counter.
#[derive(Clone, Copy, Debug, PartialEq, Eq, PartialOrd, Ord, Hash)]
pub struct Handle(pub u128);

/// The id of a conversation group is spelled and drawn as a handle is.
pub type GroupId = Handle;

impl Handle {
    /// The hyphenated spelling, in lower case.
    pub fn text(self, alloc: Global) -> Result<String, AllocError>
        ensures { IfOk result (λ text. string_bytes text ≡ text_of_handle self) }
    {
        let mut buffer = Uuid::encode_buffer();
        let text = Uuid::from_u128(self.0)
            .hyphenated()
            .encode_lower(&mut buffer);
        String::from_str(alloc, text)
    }

    /// The handle with this hyphenated spelling, its letters in either case.
    pub fn read(text: &str) -> Option<Handle>
        ensures { result ≡ handle_of_text text.now }
    {
        if text.len() != 36 {
            return None;
        }
        match Uuid::parse_str(text) {
            Ok(id) => Some(Handle(id.as_u128())),
            Err(_) => None,
        }
    }
}

impl fmt::Display for Handle {
    fn fmt<W: fmt::Write>(&self, f: &mut fmt::Formatter<W>) -> fmt::Result {
        let id = Uuid::from_u128(self.0).hyphenated();
        write!(f, "{id}")
    }
}

/// One end of a conversation, which bears the handle of its initiator.
#[derive(Clone, Copy, Debug, PartialEq, Eq, PartialOrd, Ord, Hash)]
pub struct SideId {
    pub conversation: Handle,
    pub initiator: bool,
}

/// A session of an instance; sessions are numbered from 1 to 9.
#[derive(Clone, Copy, Debug, PartialEq, Eq)]
pub struct Session {
    pub instance: Who,
    pub number: u8,
}

impl fmt::Display for Session {
    fn fmt<W: fmt::Write>(&self, f: &mut fmt::Formatter<W>) -> fmt::Result {
        let instance = self.instance;
        let number = self.number;
        write!(f, "{instance}{number}")
    }
}

/// Who makes a step.
#[derive(Clone, Copy, Debug, PartialEq, Eq)]
pub enum Actor {
    Session(Session),
    /// An activated procedure; readers are numbered from 1 since the instance's last opening.
    Reader { instance: Who, reader: u64 },
    World,
}

/// The state of a conversation endpoint, by the names of `sys.conversation_endpoints`:
/// started outbound, started inbound, conversing, disconnected inbound, disconnected
/// outbound, error, closed.
#[derive(Clone, Copy, Debug, PartialEq, Eq)]
pub enum State {
    SO,
    SI,
    CO,
    DI,
    DO,
    ER,
    CD,
}
