//! A long script against a broker that keeps its log alone, and goes over it for each question.

use crate::first::entries;
use crate::run;
use sb_log::{
    Actor, Answer, Arrived, Body, Content, Data, Entry, Event, Filter, Handle, Header, Listed,
    Name, NewSide, Op, ReceivedItem, Reply, Request, Session, SideId, Step, Verdict, Who,
};
use sb_outside::{MemSink, MemSource};
use sb_scan::{SeenPick, accepted, made, message_at, numbered, partner, pick_in, verdict};
use sb_show::show;
use std::alloc::Global;
use std::test::Fail;

const DIALOG: Handle = Handle(0xa000_0000_0000_0000_0000_0000_0000_0001);

const NEAR: SideId = SideId {
    conversation: DIALOG,
    initiator: true,
};

const SESSION: Actor = Actor::Session(Session {
    instance: Who::A,
    number: 1,
});

#[derive(Drop)]
struct Plain {
    alloc: Global,
    log: Vec<Entry>,
    tx: u64,
    text: Vec<u8>,
}

fn name(alloc: Global, text: &str) -> Result<Name, Fail> {
    match Name::new(alloc, text) {
        Ok(name) => Ok(name),
        Err(_) => Err(Fail::from("no name")),
    }
}

fn letter(alloc: Global) -> Result<Body, Fail> {
    Ok(Body::from_vec(vec![in alloc; b'w', 0]?))
}

// The items of a pick, with the handle of their side.
fn given(alloc: Global, log: &[Entry], pick: SeenPick<'_>) -> Result<Vec<ReceivedItem>, Fail> {
    let mut items = Vec::new(alloc);
    for item in pick.items.as_slice() {
        let handle = match made(log, item.side) {
            None => return Err(Fail::from("no side")),
            Some(found) => found.handle,
        };
        let group = pick.group;
        let item = item.copied(alloc)?;
        items.push(ReceivedItem {
            handle,
            group,
            item,
        })?;
    }
    Ok(items)
}

// The one place where a step is let go.
fn shown(alloc: Global, step: Step) -> Result<Vec<u8>, Fail> {
    Ok(show(alloc, &step)?)
}

impl Plain {
    fn new(alloc: Global) -> Result<Plain, Fail> {
        Ok(Plain {
            alloc,
            log: entries(alloc)?,
            tx: 2,
            text: Vec::new(alloc),
        })
    }

    fn tell(&mut self, who: Actor, event: Event, answer: Answer) -> Result<(), Fail> {
        let text = shown(self.alloc, Step { who, event, answer })?;
        self.add(text)
    }

    fn add(&mut self, text: Vec<u8>) -> Result<(), Fail> {
        self.text.extend_from_slice(text.as_slice())?;
        Ok(())
    }

    fn commit(&mut self, ops: Vec<Op>) -> Result<(), Fail> {
        if !ops.is_empty() {
            let ops = Listed::from_vec(ops);
            self.log.push(Entry::Txn { tx: self.tx, ops })?;
        }
        self.tx = self.tx.wrapping_add(1);
        Ok(())
    }

    fn send(&mut self) -> Result<(), Fail> {
        let kind = name(self.alloc, "DEFAULT")?;
        let body = Some(letter(self.alloc)?);
        let mut ops = Vec::new(self.alloc);
        ops.push(Op::Send {
            side: NEAR,
            kind,
            body,
        })?;
        self.commit(ops)?;
        let request = Request::Send {
            handle: DIALOG,
            kind: None,
            body: Some(letter(self.alloc)?),
        };
        self.tell(SESSION, Event::Asked(request), Answer::Replied(Reply::Done))
    }

    // The message with this number, as the side sends it.
    fn message(&self, number: u64) -> Result<Data, Fail> {
        let log = self.log.as_slice();
        let header: Header = match made(log, NEAR) {
            None => return Err(Fail::from("no side")),
            Some(found) => found.header.clone()?,
        };
        let content: Content = match message_at(log, NEAR, number.saturating_sub(1)) {
            None => return Err(Fail::from("no message")),
            Some(content) => content.copied()?,
        };
        Ok(Data {
            side: NEAR,
            number,
            header,
            content,
        })
    }

    fn hand_over(&mut self, number: u64) -> Result<(), Fail> {
        let message = self.message(number)?;
        let given = verdict(Who::A, self.log.as_slice(), &message);
        let made = match given {
            Verdict::New => Some(NewSide {
                handle: Handle(DIALOG.0 + 2),
                group: Handle(DIALOG.0 + 3),
                header: message.header.clone()?,
            }),
            _ => None,
        };
        self.log.push(Entry::Accepted {
            side: partner(NEAR),
            number,
            made,
            content: message.content,
        })?;
        let event = Event::HandOver { side: NEAR, number };
        self.tell(
            Actor::World,
            event,
            Answer::Arrived(Arrived::Verdict(given)),
        )
    }

    fn clean(&mut self) -> Result<(), Fail> {
        let sent = numbered(self.alloc, self.log.as_slice(), NEAR)?.len() as u64;
        let from = accepted(self.log.as_slice(), partner(NEAR)) as u64;
        for place in from..sent {
            self.hand_over(place + 1)?;
        }
        Ok(())
    }

    fn receive(&mut self) -> Result<(), Fail> {
        let alloc = self.alloc;
        let queue = name(alloc, "FarQ")?;
        let log = self.log.as_slice();
        let items = match pick_in(alloc, log, &[], self.tx, &queue, Some(1), Filter::All)? {
            None => Vec::new(alloc),
            Some(pick) => given(alloc, log, pick)?,
        };
        self.take(queue, items)
    }

    fn take(&mut self, queue: Name, items: Vec<ReceivedItem>) -> Result<(), Fail> {
        let mut ops = Vec::new(self.alloc);
        for taken in items.as_slice() {
            let item = taken.item.number;
            let queue = queue.clone()?;
            ops.push(Op::Took { queue, item })?;
        }
        self.commit(ops)?;
        let request = Request::Receive {
            queue,
            top: Some(1),
            filter: Filter::All,
        };
        let items = Listed::from_vec(items);
        let answer = Answer::Replied(Reply::Received { items });
        self.tell(SESSION, Event::Asked(request), answer)
    }

    // Ten SENDs, a `:clean` and a RECEIVE.
    fn round(&mut self) -> Result<(), Fail> {
        for _ in 0..10u64 {
            self.send()?;
        }
        self.clean()?;
        self.receive()
    }
}

// The script of so many rounds.
fn script(alloc: Global, rounds: usize) -> Result<String, Fail> {
    let send = "SEND ON CONVERSATION 'a0000000-0000-0000-0000-000000000001' (N'w')\nGO\n";
    let mut round = send.repeat(alloc, 10)?;
    round.push_str(":clean\nRECEIVE TOP (1) * FROM FarQ\nGO\n")?;
    Ok(round.as_str().repeat(alloc, rounds)?)
}

#[test]
fn two_thousand_sends_are_told_as_by_the_plain_broker(rt: HostRuntime) -> Result<(), Fail> {
    let alloc = rt.alloc();
    let mut words = Vec::new(alloc);
    words.push(String::from_str(alloc, "steps")?)?;
    let text = script(alloc, 200)?;
    let mut source = MemSource::new(text.into_bytes(), Vec::new(alloc));
    let mut sink = MemSink::new(alloc, Vec::new(alloc));
    let ended = run(alloc, words.as_slice(), &mut source, &mut sink);
    assert_eq!(rt; ended.written_steps, 4200);
    let mut plain = Plain::new(alloc)?;
    for _ in 0..200u64 {
        plain.round()?;
    }
    assert_eq!(rt; sink.as_slice(), plain.text.as_slice());
    Ok(())
}
