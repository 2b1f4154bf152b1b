//! Steps of the history.

ghost use Rattle.std.specs.Prelude.{◌≡◌, IfOk};

use crate::identifiers::{Actor, GroupId, Handle, Session, SideId, State, Who};
use crate::lists::Listed;
use crate::messages::Frame;
use crate::names::Name;
use crate::refusals::Refusal;
use crate::requests::{Reply, Request, Row};
use crate::texts::{Bytes, Text};
use std::alloc::AllocError;

/// How a frame is answered.
#[derive(Clone, Copy, Debug, PartialEq, Eq)]
pub enum Verdict {
    New,
    Next,
    Repeat,
    Early,
    Gone,
    NotHere(u8),
    AckNew,
    AckOld,
}

/// How bytes that arrived are answered.
#[derive(Clone, Copy, Debug, PartialEq, Eq)]
pub enum Arrived {
    Verdict(Verdict),
    BadFrame { at: u64 },
}

/// Which of a side's deadlines is due.
#[derive(Clone, Copy, Debug, PartialEq, Eq)]
pub enum DueKind {
    Timer,
    Lifetime,
}

/// A line of a dump.
#[derive(Clone, Debug, Drop, PartialEq, Eq)]
pub enum DumpLine {
    Queue {
        name: Name,
        on: bool,
        waiting: u64,
    },
    Side {
        handle: Handle,
        state: State,
        group: GroupId,
        level: u8,
        outgoing: u64,
    },
    Row {
        table: Name,
        key: i64,
        row: Row,
    },
}

pub type DumpLines = Listed<DumpLine>;

/// A frame that a pump put.
#[derive(Clone, Debug, Drop, PartialEq, Eq)]
pub struct FrameLine {
    pub number: u64,
    pub to: Who,
    pub frame: Frame,
}

pub type FrameLines = Listed<FrameLine>;

/// What happens in a step.
#[derive(Debug, Drop, PartialEq, Eq)]
pub enum Event {
    Asked(Request),
    Words(Text),
    Start { queue: Name, group: GroupId },
    Pump(Who),
    Deliver { frame: u64, to: Option<Who> },
    /// A message goes to the partner's instance without a frame: the first form of the link.
    HandOver { side: SideId, number: u64 },
    Lose(u64),
    Tick(u64),
    Clock(u64),
    Timer { instance: Who, handle: Handle },
    Lifetime { instance: Who, handle: Handle },
    Fuse { instance: Who, calls: u64 },
    Crash { instance: Who, pick: u64 },
    Open(Who),
    Serve,
    Inject { instance: Who, bytes: Bytes },
    Dump(Who),
}

/// Why a command of the world is refused.
#[derive(Clone, Copy, Debug, PartialEq, Eq)]
pub enum Barred {
    NoFrame(u64),
    WireFull(u64),
    Up(Who),
    ClockBack(u64),
    OpenSessions(Session),
    Forged,
}

/// The answer of a step.
#[derive(Debug, Drop, PartialEq, Eq)]
pub enum Answer {
    Replied(Reply),
    Refused {
        refusal: Refusal,
        undone: Option<Reply>,
    },
    Barred(Barred),
    Started {
        tx: u64,
    },
    Pumped(FrameLines),
    Arrived(Arrived),
    Done,
    Moment(u64),
    Fired,
    Entries(u64),
    OpenFailed,
    OpenRefused {
        at: u64,
    },
    Settled,
    Dumped(DumpLines),
}

/// One step of the history.
#[derive(Debug, Drop, PartialEq, Eq)]
pub struct Step {
    pub who: Actor,
    pub event: Event,
    pub answer: Answer,
}

impl Clone for Event {
    ghost is_clone = { λ event copy. copy ≡ event };

    fn clone(&self) -> Result<Event, AllocError> {
        match self {
            Event::Asked(request) => Ok(Event::Asked(request.clone()?)),
            Event::Words(words) => Ok(Event::Words(words.clone()?)),
            Event::Start { queue, group } => Ok(Event::Start {
                queue: queue.clone()?,
                group: *group,
            }),
            Event::Pump(instance) => Ok(Event::Pump(*instance)),
            Event::Deliver { frame, to } => Ok(Event::Deliver {
                frame: *frame,
                to: *to,
            }),
            Event::HandOver { side, number } => Ok(Event::HandOver {
                side: *side,
                number: *number,
            }),
            Event::Lose(frame) => Ok(Event::Lose(*frame)),
            Event::Tick(seconds) => Ok(Event::Tick(*seconds)),
            Event::Clock(moment) => Ok(Event::Clock(*moment)),
            Event::Timer { instance, handle } => Ok(Event::Timer {
                instance: *instance,
                handle: *handle,
            }),
            Event::Lifetime { instance, handle } => Ok(Event::Lifetime {
                instance: *instance,
                handle: *handle,
            }),
            Event::Fuse { instance, calls } => Ok(Event::Fuse {
                instance: *instance,
                calls: *calls,
            }),
            Event::Crash { instance, pick } => Ok(Event::Crash {
                instance: *instance,
                pick: *pick,
            }),
            Event::Open(instance) => Ok(Event::Open(*instance)),
            Event::Serve => Ok(Event::Serve),
            Event::Inject { instance, bytes } => Ok(Event::Inject {
                instance: *instance,
                bytes: bytes.clone()?,
            }),
            Event::Dump(instance) => Ok(Event::Dump(*instance)),
        }
    }
}

fn copied_refusal(refusal: &Refusal) -> Result<Refusal, AllocError>
    ensures { IfOk result (λ copy. copy ≡ refusal.now) }
{
    refusal.clone()
}

fn copied_undone(undone: &Option<Reply>) -> Result<Option<Reply>, AllocError>
    ensures { IfOk result (λ copy. copy ≡ undone.now) }
{
    undone.clone()
}

fn copied_frames(frames: &FrameLines) -> Result<FrameLines, AllocError>
    ensures { IfOk result (λ copy. copy ≡ frames.now) }
{
    frames.clone()
}

fn copied_lines(lines: &DumpLines) -> Result<DumpLines, AllocError>
    ensures { IfOk result (λ copy. copy ≡ lines.now) }
{
    lines.clone()
}

impl Clone for Answer {
    ghost is_clone = { λ answer copy. copy ≡ answer };

    fn clone(&self) -> Result<Answer, AllocError> {
        match self {
            Answer::Replied(reply) => Ok(Answer::Replied(reply.clone()?)),
            Answer::Refused { refusal, undone } => Ok(Answer::Refused {
                refusal: copied_refusal(refusal)?,
                undone: copied_undone(undone)?,
            }),
            Answer::Barred(barred) => Ok(Answer::Barred(*barred)),
            Answer::Started { tx } => Ok(Answer::Started { tx: *tx }),
            Answer::Pumped(frames) => Ok(Answer::Pumped(copied_frames(frames)?)),
            Answer::Arrived(arrived) => Ok(Answer::Arrived(*arrived)),
            Answer::Done => Ok(Answer::Done),
            Answer::Moment(moment) => Ok(Answer::Moment(*moment)),
            Answer::Fired => Ok(Answer::Fired),
            Answer::Entries(count) => Ok(Answer::Entries(*count)),
            Answer::OpenFailed => Ok(Answer::OpenFailed),
            Answer::OpenRefused { at } => Ok(Answer::OpenRefused { at: *at }),
            Answer::Settled => Ok(Answer::Settled),
            Answer::Dumped(lines) => Ok(Answer::Dumped(copied_lines(lines)?)),
        }
    }
}

impl Clone for Step {
    ghost is_clone = { λ step copy. copy ≡ step };

    fn clone(&self) -> Result<Step, AllocError> {
        Ok(Step {
            who: self.who,
            event: self.event.clone()?,
            answer: self.answer.clone()?,
        })
    }
}
