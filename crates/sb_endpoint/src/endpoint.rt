//! What is known of one side.

ghost use Rattle.std.specs.Prelude.{◌≡◌, ◌+◌, ◌<◌, ◌^◌};
ghost use Rattle.sb_endpoint.specs.Changes.{changed};
ghost use Rattle.sb_endpoint.specs.Endpoints.{unknown};
ghost use Rattle.sb_endpoint.specs.States.{group_by, is_closed_by, is_done_by, is_made, numbered_by, state_by};

use crate::change::Change;
use sb_log::{GroupId, Handle, SideId, State};

/// The first making of a side.
#[derive(Clone, Copy, Debug, PartialEq, Eq)]
pub struct Made {
    pub handle: Handle,
    pub group: GroupId,
}

/// What a log says of one side.
#[derive(Clone, Copy, Debug, PartialEq, Eq)]
pub struct Endpoint {
    /// None while no entry makes the side.
    pub made: Option<Made>,
    /// The group of its last move.
    pub moved: Option<GroupId>,
    /// How many messages it sent, the final one not counted.
    pub sends: u64,
    pub ended: bool,
    pub cleaned: bool,
    pub expired: bool,
    /// An end of it sent a final message.
    pub has_final: bool,
    /// How many messages it accepted.
    pub accepted: u64,
    /// It accepted the partner's EndDialog.
    pub got_end: bool,
    /// It accepted the partner's Error.
    pub got_error: bool,
    /// The greatest number that the partner acknowledged.
    pub acked: u64,
    /// The partner acknowledged that it is closed.
    pub closed: bool,
}

impl Endpoint {
    /// The facts of a side of which nothing was said.
    pub fn unknown() -> Endpoint
        ensures { result ≡ unknown }
    {
        Endpoint {
            made: None,
            moved: None,
            sends: 0,
            ended: false,
            cleaned: false,
            expired: false,
            has_final: false,
            accepted: 0,
            got_end: false,
            got_error: false,
            acked: 0,
            closed: false,
        }
    }

    pub fn is_made(&self) -> bool
        ensures { result ≡ is_made self.now }
    {
        self.made.is_some()
    }

    /// The state, as `sys.conversation_endpoints` has it.
    pub fn state(&self, side: SideId) -> State
        ensures { result ≡ state_by side self.now }
    {
        if self.cleaned || (self.ended && self.is_done()) {
            State::CD
        } else if self.ended {
            State::DO
        } else if self.got_error || self.expired {
            State::ER
        } else if self.got_end {
            State::DI
        } else if side.initiator && self.sends == 0 && self.accepted == 0 {
            State::SO
        } else {
            State::CO
        }
    }

    /// Whether nothing of an ended side is left to be sent or heard.
    fn is_done(&self) -> bool
        ensures { result ≡ is_done_by self.now }
    {
        // The final message has the number behind the sends.
        !self.has_final
            || self.sends < self.acked
            || self.closed
            || self.got_end
            || self.got_error
            || self.expired
    }

    pub fn group(&self) -> Option<GroupId>
        ensures { result ≡ group_by self.now }
    {
        let made = self.made?;
        Some(self.moved.unwrap_or(made.group))
    }

    /// Whether it was ended or cleaned, or expired.
    pub fn is_closed(&self) -> bool
        ensures { result ≡ is_closed_by self.now }
    {
        self.ended || self.cleaned || self.expired
    }

    /// How many messages it numbered: its sends, and then its final message.
    pub fn numbered(&self) -> u64
        requires { self.now.sends + 1 < 2 ^ 64 }
        ensures { result ≡ numbered_by self.now }
    {
        if self.has_final {
            self.sends + 1
        } else {
            self.sends
        }
    }

    /// The facts after a change.
    pub(crate) fn changed(self, change: Change) -> Endpoint
        requires sends { self.sends + 1 < 2 ^ 64 }
        requires accepted { self.accepted + 1 < 2 ^ 64 }
        ensures { result ≡ changed change self }
    {
        match change {
            Change::Made(made) => Endpoint {
                made: self.made.or(Some(made)),
                ..self
            },
            Change::Moved(group) => Endpoint {
                moved: Some(group),
                ..self
            },
            Change::Sent => Endpoint {
                sends: self.sends + 1,
                ..self
            },
            Change::Ended { has_final } => Endpoint {
                ended: true,
                has_final: self.has_final || has_final,
                ..self
            },
            Change::Cleaned => Endpoint {
                cleaned: true,
                ..self
            },
            Change::Expired => Endpoint {
                expired: true,
                ..self
            },
            Change::Accepted { is_end, is_error } => Endpoint {
                accepted: self.accepted + 1,
                got_end: self.got_end || is_end,
                got_error: self.got_error || is_error,
                ..self
            },
            Change::Acked { upto, closed } => Endpoint {
                acked: self.acked.max(upto),
                closed: self.closed || closed,
                ..self
            },
        }
    }
}
