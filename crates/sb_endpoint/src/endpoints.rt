//! The sides of an instance's conversations.

ghost use Rattle.std.specs.Prelude.{◌≡◌, ◌+◌, ◌++◌, ◌<◌, ◌≤◌, ◌∷◌, [], false, if◌then◌else◌, Some, OnOk, flat_map, length, option_copied};
ghost use Rattle.std.specs.Option.{option_map_or};
ghost use Rattle.sb_log.specs.declared.identifiers.Handle.{Handle};
ghost use Rattle.sb_log.specs.declared.identifiers.SideId.{SideId};
ghost use Rattle.sb_model.specs.Acceptance.{receiver};
ghost use Rattle.sb_model.specs.Sides.{made_by, made_by_op, same_side};
ghost use Rattle.sb_model.specs.States.{may_send};
ghost use Rattle.sb_endpoint.specs.declared.change.Change.TheVariants as change;
ghost use Rattle.sb_endpoint.specs.Acceptance.{ack_verdict_on, verdict_on};
ghost use Rattle.sb_endpoint.specs.Changes.{changes_of, changes_of_new, changes_of_op, endpoint_after, endpoint_told, told, told_of_content};
ghost use Rattle.sb_endpoint.specs.Headers.{header_after, header_at};
ghost use Rattle.sb_endpoint.specs.Handles.{made_new, side_after, side_with};
ghost use Rattle.sb_endpoint.specs.Seen.{Applies, IsReady, Keeps, Readies, endpoint_in, header_in, is_made_in, nothing, side_in, state_in};
ghost use Rattle.sb_endpoint.specs.States.{group_by, is_closed_by, numbered_by};

use crate::answer::{ack_verdict, message_verdict, receiver};
use crate::by_handle::ByHandle;
use crate::by_side::BySide;
use crate::change::{Change, begun, has_final, is_end_dialog, is_error, most_changes};
use crate::endpoint::{Endpoint, Made};
use crate::headers::Headers;
use sb_log::{
    Ack, Content, Data, Entry, GroupId, Handle, Header, NewSide, Op, SideId, State, Verdict, Who,
};
use std::alloc::{AllocError, Global};
use std::marker::Model;

/// What the entries of an instance's log say of each side, and which side a handle names.
///
/// Nothing is ever taken out, since ended and cleaned sides are remembered.
#[derive(Drop)]
pub struct Endpoints {
    sides: BySide,
    handles: ByHandle,
    // Of sides that aren't made yet too: those that `reserve` kept for its entry.
    headers: Headers,
    // There is room for so many more changes of each.
    spare: usize,
}

impl Model for Endpoints {
    ghost use Rattle.sb_endpoint.specs.Seen.{SidesAndHandles};

    ghost Value = { SidesAndHandles };

    ghost use Rattle.sb_endpoint.specs.Room.{sides_and_handles, HasRoom};

    ghost view = { sides_and_handles };

    ghost invariant = { HasRoom };
}

impl Endpoints {
    /// No side was made, and nothing was said of any.
    pub fn new(alloc: Global) -> Endpoints
        ensures { result ≡ nothing }
    {
        Endpoints {
            sides: BySide::new(alloc),
            handles: ByHandle::new(alloc),
            headers: Headers::new(alloc),
            spare: 0,
        }
    }

    /// Makes room for all that the entry may bring, and copies its headers, so that `apply`
    /// takes no memory.
    pub fn reserve(&mut self, entry: &Entry) -> Result<(), AllocError>
        ensures ready { OnOk result (IsReady self.new entry.now) }
        ensures spare { self.old.spare ≤ self.new.spare }
        ensures endpoints { self.new.endpoints ≡ self.old.endpoints }
        ensures handles { self.new.handles ≡ self.old.handles }
        ensures headers { (s : SideId) → header_in self.new s ≡ header_in self.old s }
    {
        let more = most_changes(entry);
        self.prepare_entry(entry)?;
        self.sides.reserve(more)?;
        self.handles.reserve(more)?;
        self.spare = self.spare.max(more);
        Ok(())
    }

    fn prepare_entry(&mut self, entry: &Entry) -> Result<(), AllocError>
        ensures kept { Keeps self.old self.new }
        ensures ready { OnOk result (Readies self.old (made_by entry.now) self.new) }
    {
        match entry {
            Entry::Txn { ops, .. } => self.prepare_ops(ops.as_slice()),
            Entry::Accepted {
                side,
                made: Some(new),
                ..
            } => self.prepare(*side, &new.header),
            _ => Ok(()),
        }
    }

    // The last comes first, so that the header of a side's first making is the one that stays.
    fn prepare_ops(&mut self, ops: &[Op]) -> Result<(), AllocError>
        ensures kept { Keeps self.old self.new }
        ensures ready { OnOk result (Readies self.old (flat_map made_by_op ops.now) self.new) }
    {
        for place in (0..ops.len()).rev() {
            self.prepare_op(&ops[place])?;
        }
        Ok(())
    }

    fn prepare_op(&mut self, op: &Op) -> Result<(), AllocError>
        ensures kept { Keeps self.old self.new }
        ensures ready { OnOk result (Readies self.old (made_by_op op.now) self.new) }
    {
        match op {
            Op::Begin { handle, header, .. } => self.prepare(begun(*handle), header),
            _ => Ok(()),
        }
    }

    /// Keeps a copy of the header of a side, unless the side was made before.
    fn prepare(&mut self, side: SideId, header: &Header) -> Result<(), AllocError>
        ensures kept { Keeps self.old self.new }
        ensures ready { OnOk result ((s : SideId) → is_made_in self.old.endpoints s ≡ false → header_at self.new.headers s ≡ (if same_side side s then Some header.now else header_at self.old.headers s)) }
    {
        if self.sides.get(side).is_made() {
            return Ok(());
        }
        self.headers.put(side, header)?;
        Ok(())
    }

    /// Takes up what one more entry of the log says.
    pub fn apply(&mut self, entry: &Entry)
        requires { IsReady self.old entry.now }
        ensures endpoints { (s : SideId) → endpoint_in self.new.endpoints s ≡ endpoint_after s entry.now (endpoint_in self.old.endpoints s) }
        ensures handles { (h : Handle) → side_in self.new.handles h ≡ side_after (is_made_in self.old.endpoints) (made_by entry.now) h (side_in self.old.handles h) }
        ensures headers { (s : SideId) → header_in self.new s ≡ header_after (is_made_in self.old.endpoints s) (made_by entry.now) s (header_in self.old s) }
        ensures spare { self.old.spare ≤ self.new.spare + length (changes_of entry.now) }
    {
        match entry {
            Entry::Txn { ops, .. } => self.apply_ops(ops.as_slice()),
            Entry::Accepted {
                side,
                made,
                content,
                ..
            } => self.apply_accepted(*side, made, content),
            Entry::Acked { side, upto, closed } => self.change(
                *side,
                Change::Acked {
                    upto: *upto,
                    closed: *closed,
                },
            ),
            Entry::Expired { side } => self.change(*side, Change::Expired),
            _ => {}
        }
    }

    fn apply_ops(&mut self, ops: &[Op])
        requires { length (flat_map changes_of_op ops.now) ≤ self.old.spare }
        ensures { Applies self.old (flat_map changes_of_op ops.now) (flat_map made_by_op ops.now) self.new }
    {
        for op in ops {
            self.apply_op(op);
        }
    }

    fn apply_op(&mut self, op: &Op)
        requires { length (changes_of_op op.now) ≤ self.old.spare }
        ensures { Applies self.old (changes_of_op op.now) (made_by_op op.now) self.new }
    {
        match op {
            Op::Begin { handle, group, .. } => {
                let made = Made {
                    handle: *handle,
                    group: *group,
                };
                self.make(begun(*handle), made);
            }
            Op::Send { side, .. } => self.change(*side, Change::Sent),
            Op::End { side, last } => {
                let has_final = has_final(last);
                self.change(*side, Change::Ended { has_final });
            }
            Op::Cleanup { side } => self.change(*side, Change::Cleaned),
            Op::Move { side, group } => self.change(*side, Change::Moved(*group)),
            _ => {}
        }
    }

    fn apply_accepted(&mut self, side: SideId, made: &Option<NewSide>, content: &Content)
        requires { length (changes_of_new side made.now ++ told_of_content side content.now ∷ []) ≤ self.old.spare }
        ensures { Applies self.old (changes_of_new side made.now ++ told_of_content side content.now ∷ []) (made_new side made.now) self.new }
    {
        self.make_new(side, made);
        let change = Change::Accepted {
            is_end: is_end_dialog(content),
            is_error: is_error(content),
        };
        self.change(side, change);
    }

    fn make_new(&mut self, side: SideId, made: &Option<NewSide>)
        requires { length (changes_of_new side made.now) ≤ self.old.spare }
        ensures { Applies self.old (changes_of_new side made.now) (made_new side made.now) self.new }
    {
        if let Some(new) = made {
            let made = Made {
                handle: new.handle,
                group: new.group,
            };
            self.make(side, made);
        }
    }

    /// A side is made; only its first making counts.
    fn make(&mut self, side: SideId, made: Made)
        requires { 0 < self.old.spare }
        ensures endpoints { (s : SideId) → endpoint_in self.new.endpoints s ≡ endpoint_told s (endpoint_in self.old.endpoints s) (told side (change.Made made)) }
        ensures handles { (h : Handle) → side_in self.new.handles h ≡ side_with (is_made_in self.old.endpoints side) side made.handle h (side_in self.old.handles h) }
        ensures headers { self.new.headers ≡ self.old.headers }
        ensures spare { self.old.spare ≤ self.new.spare + 1 }
    {
        let was_made = self.sides.get(side).is_made();
        self.handles.note(was_made, side, made.handle);
        self.sides.change(side, Change::Made(made));
        self.spare -= 1;
    }

    fn change(&mut self, side: SideId, change: Change)
        requires { 0 < self.old.spare }
        ensures endpoints { (s : SideId) → endpoint_in self.new.endpoints s ≡ endpoint_told s (endpoint_in self.old.endpoints s) (told side change) }
        ensures handles { self.new.handles ≡ self.old.handles }
        ensures headers { self.new.headers ≡ self.old.headers }
        ensures spare { self.old.spare ≤ self.new.spare + 1 }
    {
        self.sides.change(side, change);
        self.spare -= 1;
    }

    /// All that is known of a side.
    pub fn endpoint(&self, side: SideId) -> Endpoint
        ensures { result ≡ endpoint_in self.now.endpoints side }
    {
        self.sides.get(side)
    }

    /// The state of a side, unless it was never made.
    pub fn state(&self, side: SideId) -> Option<State>
        ensures { result ≡ state_in self.now.endpoints side }
    {
        let endpoint = self.endpoint(side);
        if endpoint.is_made() {
            Some(endpoint.state(side))
        } else {
            None
        }
    }

    /// The conversation group of a side, unless it was never made.
    pub fn group(&self, side: SideId) -> Option<GroupId>
        ensures { result ≡ group_by (endpoint_in self.now.endpoints side) }
    {
        self.endpoint(side).group()
    }

    /// The header that a side was made with.
    pub fn header(&self, side: SideId) -> Option<&Header>
        ensures { option_copied result ≡ header_in self.now side }
    {
        if self.sides.get(side).is_made() {
            self.headers.get(side)
        } else {
            None
        }
    }

    /// The side that the handle names.
    pub fn side(&self, handle: Handle) -> Option<SideId>
        ensures { result ≡ side_in self.now.handles handle }
    {
        self.handles.get(handle)
    }

    /// Whether the side was made and its state allows SEND.
    pub fn may_send(&self, side: SideId) -> bool
        ensures { result ≡ option_map_or may_send (state_in self.now.endpoints side) false }
    {
        match self.state(side) {
            Some(State::SO | State::CO) => true,
            _ => false,
        }
    }

    /// How many messages the side accepted.
    pub fn accepted(&self, side: SideId) -> u64
        ensures { result ≡ (endpoint_in self.now.endpoints side).accepted }
    {
        self.endpoint(side).accepted
    }

    /// Whether the side was ended or cleaned, or expired.
    pub fn is_closed(&self, side: SideId) -> bool
        ensures { result ≡ is_closed_by (endpoint_in self.now.endpoints side) }
    {
        self.endpoint(side).is_closed()
    }

    /// How many messages of the side have a number, its final one among them.
    pub fn numbered(&self, side: SideId) -> u64
        ensures { result ≡ numbered_by (endpoint_in self.now.endpoints side) }
    {
        self.sides.get(side).numbered()
    }

    /// The greatest number of the side that was acknowledged.
    pub fn acked(&self, side: SideId) -> u64
        ensures { result ≡ (endpoint_in self.now.endpoints side).acked }
    {
        self.endpoint(side).acked
    }

    /// How this instance answers a message. `here` is the number of the first thing that it
    /// wants: 3 for the service of a side that is to be made, 5 for the contract, 6 for the
    /// type, and 0 where nothing is missing.
    pub fn accept(&self, who: Who, sent: &Data, here: u8, queue_on: bool) -> Verdict
        ensures { result ≡ verdict_on who sent.now (endpoint_in self.now.endpoints (receiver sent.now)) here queue_on }
    {
        let endpoint = self.endpoint(receiver(sent));
        message_verdict(who, sent, &endpoint, here, queue_on)
    }

    /// How this instance answers an acknowledgement.
    pub fn acknowledge(&self, who: Who, ack: &Ack) -> Verdict
        ensures { result ≡ ack_verdict_on who ack.now (endpoint_in self.now.endpoints ack.now.side) }
    {
        let endpoint = self.endpoint(ack.side);
        ack_verdict(who, ack, &endpoint, self.numbered(ack.side))
    }
}
