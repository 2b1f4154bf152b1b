//! What a transcript shows of each kind of step.

use crate::*;
use sb_log::*;
use std::alloc::Global;
use std::process::Abort;
use std::test::Fail;

const BUYER: Handle = Handle(0xa000_0000_0000_0000_0000_0000_0000_0001);

const BUYERS: GroupId = Handle(0xa000_0000_0000_0000_0000_0000_0000_0002);

const SELLER: Handle = Handle(0xb000_0000_0000_0000_0000_0000_0000_0001);

const SELLERS: GroupId = Handle(0xb000_0000_0000_0000_0000_0000_0000_0002);

const INITIATOR: SideId = SideId {
    conversation: BUYER,
    initiator: true,
};

const TARGET: SideId = SideId {
    conversation: BUYER,
    initiator: false,
};

const A1: Session = Session {
    instance: Who::A,
    number: 1,
};

const B9: Session = Session {
    instance: Who::B,
    number: 9,
};

/// Compares the step's lines with `front`, `text` and a line's end, and the length with theirs.
fn shows(rt: &impl Abort, alloc: Global, step: &Step, front: &str, text: &str) -> Result<(), Fail> {
    let wanted = format!(in alloc; "{front}{text}\n")?;
    let shown = show(alloc, step)?;
    assert!(rt; shown.as_slice() == wanted.as_bytes(), "{text}");
    assert!(rt; length(step) == wanted.len() as u64, "{text}");
    Ok(())
}

/// The same of a step that is then let go.
fn told(rt: &impl Abort, alloc: Global, step: Step, front: &str, text: &str) -> Result<(), Fail> {
    shows(rt, alloc, &step, front, text)
}

/// A step of the world.
fn world(
    rt: &impl Abort,
    alloc: Global,
    event: Event,
    answer: Answer,
    text: &str,
) -> Result<(), Fail> {
    let step = Step {
        who: Actor::World,
        event,
        answer,
    };
    told(rt, alloc, step, "world ", text)
}

/// A statement of session 1 of A.
fn replied(
    rt: &impl Abort,
    alloc: Global,
    request: Request,
    reply: Reply,
    text: &str,
) -> Result<(), Fail> {
    let step = Step {
        who: Actor::Session(A1),
        event: Event::Asked(request),
        answer: Answer::Replied(reply),
    };
    told(rt, alloc, step, "A1 ", text)
}

/// A statement of session 1 of A that is done.
fn done(rt: &impl Abort, alloc: Global, request: Request, text: &str) -> Result<(), Fail> {
    replied(rt, alloc, request, Reply::Done, text)
}

/// A definition that session 1 of A makes.
fn defined(rt: &impl Abort, alloc: Global, definition: Ddl, text: &str) -> Result<(), Fail> {
    done(rt, alloc, Request::Define(definition), text)
}

/// A frame that B answers so.
fn arrived(rt: &impl Abort, alloc: Global, verdict: Verdict, text: &str) -> Result<(), Fail> {
    let step = Step {
        who: Actor::World,
        event: Event::Deliver {
            frame: 3,
            to: Some(Who::B),
        },
        answer: Answer::Arrived(Arrived::Verdict(verdict)),
    };
    told(rt, alloc, step, "world deliver 3 to B: ", text)
}

/// A command that isn't carried out.
fn barred(
    rt: &impl Abort,
    alloc: Global,
    event: Event,
    barred: Barred,
    text: &str,
) -> Result<(), Fail> {
    world(rt, alloc, event, Answer::Barred(barred), text)
}

/// A command that is refused as a statement is.
fn unmet(
    rt: &impl Abort,
    alloc: Global,
    event: Event,
    refusal: Refusal,
    text: &str,
) -> Result<(), Fail> {
    world(
        rt,
        alloc,
        event,
        Answer::Refused {
            refusal,
            undone: None,
        },
        text,
    )
}

/// A COMMIT that is refused.
fn refused(rt: &impl Abort, alloc: Global, refusal: Refusal, text: &str) -> Result<(), Fail> {
    let step = Step {
        who: Actor::Session(A1),
        event: Event::Asked(Request::Commit),
        answer: Answer::Refused {
            refusal,
            undone: None,
        },
    };
    told(rt, alloc, step, "A1 COMMIT: refused ", text)
}

/// Words of a reader of B.
fn read(
    rt: &impl Abort,
    alloc: Global,
    reader: u64,
    words: Text,
    answer: Answer,
    text: &str,
) -> Result<(), Fail> {
    let step = Step {
        who: Actor::Reader {
            instance: Who::B,
            reader,
        },
        event: Event::Words(words),
        answer,
    };
    told(rt, alloc, step, "B.r", text)
}

/// A list of one.
fn one<T: Drop>(alloc: Global, item: T) -> Result<Listed<T>, Fail> {
    let mut items = Listed::new(alloc);
    items.push(item)?;
    Ok(items)
}

/// A list of two.
fn two<T: Drop>(alloc: Global, first: T, second: T) -> Result<Listed<T>, Fail> {
    let mut items = Listed::new(alloc);
    items.push(first)?;
    items.push(second)?;
    Ok(items)
}

fn words(alloc: Global, text: &str) -> Result<Text, Fail> {
    Ok(Text::from_string(String::from_str(alloc, text)?))
}

fn name(alloc: Global, text: &str) -> Result<Name, Fail> {
    Ok(Name::new(alloc, text)?)
}

#[test]
fn types_and_contracts_are_defined(rt: HostRuntime) -> Result<(), Fail> {
    let alloc = rt.alloc();
    let submit = MessageDef {
        name: name(alloc, "Submit")?,
        empty: false,
    };
    defined(
        &rt,
        alloc,
        Ddl::MessageType(submit),
        "CREATE MESSAGE TYPE: ok",
    )?;
    let orders = ContractDef {
        name: name(alloc, "Orders")?,
        types: SentBys::new(alloc),
    };
    defined(&rt, alloc, Ddl::Contract(orders), "CREATE CONTRACT: ok")?;
    let queue = QueueDef {
        name: name(alloc, "BuyerQ")?,
        on: true,
        poison: true,
        activation: None,
    };
    defined(&rt, alloc, Ddl::Queue(queue), "CREATE QUEUE: ok")
}

fn service(alloc: Global) -> Result<ServiceDef, Fail> {
    Ok(ServiceDef {
        name: name(alloc, "Buyer")?,
        queue: name(alloc, "BuyerQ")?,
        contracts: Names::new(alloc),
    })
}

#[test]
fn services_and_routes_are_defined(rt: HostRuntime) -> Result<(), Fail> {
    let alloc = rt.alloc();
    defined(
        &rt,
        alloc,
        Ddl::Service(service(alloc)?),
        "CREATE SERVICE: ok",
    )?;
    let route = RouteDef {
        name: name(alloc, "ToB")?,
        service: None,
        instance: None,
        to: Some(Who::B),
    };
    defined(&rt, alloc, Ddl::Route(route), "CREATE ROUTE: ok")?;
    let priority = PriorityDef {
        name: name(alloc, "P")?,
        contract: None,
        local: None,
        remote: None,
        level: 5,
    };
    defined(
        &rt,
        alloc,
        Ddl::Priority(priority),
        "CREATE BROKER PRIORITY: ok",
    )
}

fn procedure(alloc: Global) -> Result<ProcedureDef, Fail> {
    Ok(ProcedureDef {
        name: name(alloc, "Sell")?,
        text: words(alloc, "AS RETURN")?,
    })
}

#[test]
fn tables_and_procedures_are_defined(rt: HostRuntime) -> Result<(), Fail> {
    let alloc = rt.alloc();
    let stock = TableDef {
        name: name(alloc, "Stock")?,
    };
    defined(&rt, alloc, Ddl::Table(stock), "CREATE TABLE: ok")?;
    defined(
        &rt,
        alloc,
        Ddl::Procedure(procedure(alloc)?),
        "CREATE PROCEDURE: ok",
    )?;
    let on = Request::AlterQueue {
        queue: name(alloc, "SellerQ")?,
        on: true,
    };
    done(&rt, alloc, on, "ALTER QUEUE: ok")
}

fn off(alloc: Global) -> Result<Names, Fail> {
    let first = name(alloc, "Q1")?;
    let second = name(alloc, "Q ]3")?;
    two(alloc, first, second)
}

#[test]
fn transactions_have_their_numbers(rt: HostRuntime) -> Result<(), Fail> {
    let alloc = rt.alloc();
    let began = Reply::Began { tx: 2 };
    replied(
        &rt,
        alloc,
        Request::Begin,
        began,
        "BEGIN TRANSACTION: transaction 2",
    )?;
    let committed = Reply::Committed { tx: 2 };
    replied(
        &rt,
        alloc,
        Request::Commit,
        committed,
        "COMMIT: committed 2",
    )?;
    let rolled_back = Reply::RolledBack {
        tx: 3,
        off: Names::new(alloc),
    };
    replied(
        &rt,
        alloc,
        Request::Rollback,
        rolled_back,
        "ROLLBACK: rolled back 3",
    )?;
    let turned_off = Reply::RolledBack {
        tx: 26,
        off: off(alloc)?,
    };
    replied(
        &rt,
        alloc,
        Request::Rollback,
        turned_off,
        "ROLLBACK: rolled back 26, off [Q1], off [Q ]]3]",
    )
}

fn begin_dialog(alloc: Global) -> Result<Request, Fail> {
    Ok(Request::BeginDialog {
        from: name(alloc, "Buyer")?,
        to: words(alloc, "Seller")?,
        instance: None,
        contract: None,
        relation: Relation::Alone,
        lifetime: None,
    })
}

#[test]
fn dialogs_begin_and_send(rt: HostRuntime) -> Result<(), Fail> {
    let alloc = rt.alloc();
    let begin = begin_dialog(alloc)?;
    let dialog = Reply::Dialog {
        handle: BUYER,
        group: BUYERS,
    };
    replied(
        &rt,
        alloc,
        begin,
        dialog,
        "BEGIN DIALOG: handle a0000000-0000-0000-0000-000000000001 group a0000000-0000-0000-0000-000000000002",
    )?;
    let send = Request::Send {
        handle: BUYER,
        kind: None,
        body: None,
    };
    done(&rt, alloc, send, "SEND: ok")?;
    let receive = Request::Receive {
        queue: name(alloc, "BuyerQ")?,
        top: None,
        filter: Filter::All,
    };
    let nothing = Reply::Received {
        items: ReceivedItems::new(alloc),
    };
    replied(&rt, alloc, receive, nothing, "RECEIVE: received 0")
}

#[test]
fn groups_are_given_and_moved(rt: HostRuntime) -> Result<(), Fail> {
    let alloc = rt.alloc();
    let group = Request::GetGroup {
        queue: name(alloc, "BuyerQ")?,
    };
    let none = Reply::Group { group: None };
    replied(
        &rt,
        alloc,
        group,
        none,
        "GET CONVERSATION GROUP: group NULL",
    )?;
    let group = Request::GetGroup {
        queue: name(alloc, "SellerQ")?,
    };
    let sellers = Reply::Group {
        group: Some(SELLERS),
    };
    replied(
        &rt,
        alloc,
        group,
        sellers,
        "GET CONVERSATION GROUP: group b0000000-0000-0000-0000-000000000002",
    )?;
    let to = Request::Move {
        handle: BUYER,
        group: SELLERS,
    };
    done(&rt, alloc, to, "MOVE: ok")?;
    let end = Request::End {
        handle: BUYER,
        how: How::Plain,
    };
    done(&rt, alloc, end, "END CONVERSATION: ok")?;
    let timer = Request::Timer {
        handle: BUYER,
        seconds: 5,
    };
    done(&rt, alloc, timer, "BEGIN CONVERSATION TIMER: ok")
}

fn rows(count: u64) -> Reply {
    Reply::Rows { count, row: None }
}

#[test]
fn statements_on_rows_count_them(rt: HostRuntime) -> Result<(), Fail> {
    let alloc = rt.alloc();
    let insert = Request::Insert {
        table: name(alloc, "Stock")?,
        key: 7,
        n: Some(40),
        body: None,
    };
    replied(&rt, alloc, insert, rows(1), "INSERT: rows 1")?;
    let update = Request::Update {
        table: name(alloc, "Stock")?,
        key: 8,
        n: None,
        body: None,
    };
    replied(&rt, alloc, update, rows(0), "UPDATE: rows 0")?;
    let delete = Request::Delete {
        table: name(alloc, "Stock")?,
        key: 7,
    };
    replied(&rt, alloc, delete, rows(1), "DELETE: rows 1")?;
    let select = Request::Read {
        table: name(alloc, "Stock")?,
        key: 7,
    };
    let row = Row {
        n: Some(37),
        body: None,
    };
    replied(
        &rt,
        alloc,
        select,
        Reply::Rows {
            count: 1,
            row: Some(row),
        },
        "SELECT: rows 1",
    )
}

/// A message that SELLER received.
fn received(sequence: u64, kind: Kind, body: Option<Body>) -> ReceivedItem {
    ReceivedItem {
        handle: SELLER,
        group: SELLERS,
        item: Item {
            number: 4,
            side: TARGET,
            sequence,
            message: Msg { kind, body },
        },
    }
}

/// A RECEIVE of session 9 of B, by its words, that gives these messages.
fn receive(words: Text, items: ReceivedItems) -> Step {
    Step {
        who: Actor::Session(B9),
        event: Event::Words(words),
        answer: Answer::Replied(Reply::Received { items }),
    }
}

/// A RECEIVE that gives one message of the broker's own.
fn notified(
    rt: &impl Abort,
    alloc: Global,
    sequence: u64,
    kind: Kind,
    text: &str,
) -> Result<(), Fail> {
    let words = words(alloc, "RECEIVE")?;
    let step = receive(words, one(alloc, received(sequence, kind, None))?);
    told(rt, alloc, step, "B9 RECEIVE: received 1\n  ", text)
}

#[test]
fn messages_of_the_broker_are_listed(rt: HostRuntime) -> Result<(), Fail> {
    let alloc = rt.alloc();
    notified(
        &rt,
        alloc,
        3,
        Kind::EndDialog,
        "3 b0000000-0000-0000-0000-000000000001 b0000000-0000-0000-0000-000000000002 [http://schemas.microsoft.com/SQL/ServiceBroker/EndDialog] NULL",
    )?;
    notified(
        &rt,
        alloc,
        0,
        Kind::DialogTimer,
        "0 b0000000-0000-0000-0000-000000000001 b0000000-0000-0000-0000-000000000002 [http://schemas.microsoft.com/SQL/ServiceBroker/DialogTimer] NULL",
    )?;
    notified(
        &rt,
        alloc,
        0,
        Kind::Error,
        "0 b0000000-0000-0000-0000-000000000001 b0000000-0000-0000-0000-000000000002 [http://schemas.microsoft.com/SQL/ServiceBroker/Error] NULL",
    )
}

fn submitted(alloc: Global) -> Result<ReceivedItem, Fail> {
    let body = Body::from_vec([0x78, 0, 0xaf, 0xfa].to_vec(alloc)?);
    let submit = name(alloc, "Submit")?;
    Ok(received(1, Kind::App(submit), Some(body)))
}

fn emptied(alloc: Global) -> Result<ReceivedItem, Fail> {
    let bracketed = name(alloc, "a]b")?;
    let empty = Body::from_vec(Vec::new(alloc));
    Ok(received(2, Kind::App(bracketed), Some(empty)))
}

#[test]
fn received_messages_are_listed(rt: HostRuntime) -> Result<(), Fail> {
    let alloc = rt.alloc();
    let words = words(alloc, "RECEIVE")?;
    let first = submitted(alloc)?;
    let second = emptied(alloc)?;
    let step = receive(words, two(alloc, first, second)?);
    told(
        &rt,
        alloc,
        step,
        "B9 RECEIVE: received 2",
        "
  1 b0000000-0000-0000-0000-000000000001 b0000000-0000-0000-0000-000000000002 [Submit] 0x7800affa
  2 b0000000-0000-0000-0000-000000000001 b0000000-0000-0000-0000-000000000002 [a]]b] 0x",
    )
}

/// The longest body of a message.
fn longest(alloc: Global) -> Result<Body, Fail> {
    let mut bytes = Vec::new(alloc);
    for index in 0..65_536_u32 {
        bytes.push((index % 251) as u8)?;
    }
    Ok(Body::from_vec(bytes))
}

/// Its digits.
fn longest_digits(alloc: Global) -> Result<String, Fail> {
    let mut digits = String::new(alloc);
    for index in 0..65_536_u32 {
        let byte = index % 251;
        digits.push_str(format!(in alloc; "{byte:02x}")?.as_str())?;
    }
    Ok(digits)
}

#[test]
fn the_longest_body_is_shown_whole(rt: HostRuntime) -> Result<(), Fail> {
    let alloc = rt.alloc();
    let words = words(alloc, "RECEIVE")?;
    let body = longest(alloc)?;
    let item = received(1, Kind::Error, Some(body));
    let step = receive(words, one(alloc, item)?);
    let digits = longest_digits(alloc)?;
    let front = "B9 RECEIVE: received 1
  1 b0000000-0000-0000-0000-000000000001 b0000000-0000-0000-0000-000000000002 [http://schemas.microsoft.com/SQL/ServiceBroker/Error] 0x";
    told(&rt, alloc, step, front, digits.as_str())
}

#[test]
fn commands_are_answered(rt: HostRuntime) -> Result<(), Fail> {
    let alloc = rt.alloc();
    world(&rt, alloc, Event::Lose(8), Answer::Done, "lose 8: ok")?;
    world(
        &rt,
        alloc,
        Event::Tick(0),
        Answer::Moment(22),
        "tick 0: moment 22",
    )?;
    world(
        &rt,
        alloc,
        Event::Clock(106),
        Answer::Moment(106),
        "clock 106: moment 106",
    )?;
    let fuse = Event::Fuse {
        instance: Who::A,
        calls: 3,
    };
    world(&rt, alloc, fuse, Answer::Done, "fuse A 3: ok")?;
    let crash = Event::Crash {
        instance: Who::B,
        pick: 2,
    };
    world(&rt, alloc, crash, Answer::Done, "crash B 2: ok")?;
    world(
        &rt,
        alloc,
        Event::Open(Who::B),
        Answer::Entries(10),
        "open B: entries 10",
    )?;
    world(
        &rt,
        alloc,
        Event::Open(Who::A),
        Answer::OpenFailed,
        "open A: disk failed",
    )?;
    world(
        &rt,
        alloc,
        Event::Open(Who::A),
        Answer::OpenRefused { at: 8 },
        "open A: journal refused 8",
    )?;
    world(&rt, alloc, Event::Serve, Answer::Settled, "serve: settled")
}

#[test]
fn deadlines_fire_and_expire(rt: HostRuntime) -> Result<(), Fail> {
    let alloc = rt.alloc();
    let timer = Event::Timer {
        instance: Who::B,
        handle: SELLER,
    };
    world(
        &rt,
        alloc,
        timer,
        Answer::Fired,
        "timer B b0000000-0000-0000-0000-000000000001: fired",
    )?;
    let lifetime = Event::Lifetime {
        instance: Who::A,
        handle: BUYER,
    };
    world(
        &rt,
        alloc,
        lifetime,
        Answer::Fired,
        "lifetime A a0000000-0000-0000-0000-000000000001: expired",
    )
}

#[test]
fn frames_are_answered(rt: HostRuntime) -> Result<(), Fail> {
    let alloc = rt.alloc();
    arrived(&rt, alloc, Verdict::New, "new")?;
    arrived(&rt, alloc, Verdict::Next, "next")?;
    arrived(&rt, alloc, Verdict::Repeat, "repeat")?;
    arrived(&rt, alloc, Verdict::Early, "early")?;
    arrived(&rt, alloc, Verdict::Gone, "gone")?;
    arrived(&rt, alloc, Verdict::NotHere(3), "not here 3")?;
    arrived(&rt, alloc, Verdict::AckNew, "ack new")?;
    arrived(&rt, alloc, Verdict::AckOld, "ack old")
}

fn inject(alloc: Global) -> Event {
    Event::Inject {
        instance: Who::A,
        bytes: Bytes::from_vec(Vec::new(alloc)),
    }
}

#[test]
fn bytes_and_messages_are_answered(rt: HostRuntime) -> Result<(), Fail> {
    let alloc = rt.alloc();
    let bad = Answer::Arrived(Arrived::BadFrame { at: 30 });
    world(&rt, alloc, inject(alloc), bad, "inject A: bad frame 30")?;
    barred(
        &rt,
        alloc,
        inject(alloc),
        Barred::Forged,
        "inject A: refused Forged",
    )?;
    let next = Answer::Arrived(Arrived::Verdict(Verdict::Next));
    let second = Event::HandOver {
        side: INITIATOR,
        number: 2,
    };
    world(
        &rt,
        alloc,
        second,
        next,
        "hand over a0000000-0000-0000-0000-000000000001 i 2: next",
    )?;
    let not_here = Answer::Arrived(Arrived::Verdict(Verdict::NotHere(4)));
    let first = Event::HandOver {
        side: TARGET,
        number: 1,
    };
    world(
        &rt,
        alloc,
        first,
        not_here,
        "hand over a0000000-0000-0000-0000-000000000001 t 1: not here 4",
    )
}

fn header(alloc: Global) -> Result<Header, Fail> {
    Ok(Header {
        from_service: name(alloc, "Buyer")?,
        to_service: name(alloc, "Seller")?,
        contract: name(alloc, "Orders")?,
        from: BUYERS,
        to: None,
        expires: 2147483647,
    })
}

fn data(alloc: Global) -> Result<Frame, Fail> {
    Ok(Frame::Data(Data {
        side: INITIATOR,
        number: 2,
        header: header(alloc)?,
        content: Content::EndDialog,
    }))
}

fn ack(side: SideId, closed: bool) -> Frame {
    Frame::Ack(Ack {
        side,
        upto: 1,
        closed,
        to: BUYERS,
    })
}

/// A pump of A that puts one frame, the twelfth.
fn pumped(rt: &impl Abort, alloc: Global, to: Who, frame: Frame, text: &str) -> Result<(), Fail> {
    let lines = one(
        alloc,
        FrameLine {
            number: 12,
            to,
            frame,
        },
    )?;
    let answer = Answer::Pumped(lines);
    world(rt, alloc, Event::Pump(Who::A), answer, text)
}

#[test]
fn a_pump_lists_its_frames(rt: HostRuntime) -> Result<(), Fail> {
    let alloc = rt.alloc();
    let none = Answer::Pumped(FrameLines::new(alloc));
    world(&rt, alloc, Event::Pump(Who::B), none, "pump B: frames 0")?;
    let data = data(alloc)?;
    pumped(
        &rt,
        alloc,
        Who::B,
        data,
        "pump A: frames 1\n  12 to B data a0000000-0000-0000-0000-000000000001 i 2",
    )?;
    let open = ack(TARGET, false);
    pumped(
        &rt,
        alloc,
        Who::A,
        open,
        "pump A: frames 1\n  12 to A ack a0000000-0000-0000-0000-000000000001 t 1 open",
    )?;
    let closed = ack(INITIATOR, true);
    pumped(
        &rt,
        alloc,
        Who::B,
        closed,
        "pump A: frames 1\n  12 to B ack a0000000-0000-0000-0000-000000000001 i 1 closed",
    )
}

fn queue_line(alloc: Global, queue: &str, on: bool, waiting: u64) -> Result<DumpLine, Fail> {
    let name = name(alloc, queue)?;
    Ok(DumpLine::Queue { name, on, waiting })
}

#[test]
fn a_dump_lists_queues(rt: HostRuntime) -> Result<(), Fail> {
    let alloc = rt.alloc();
    let first = queue_line(alloc, "SellerQ", true, 0)?;
    let second = queue_line(alloc, "Q ]3", false, 5)?;
    let lines = two(alloc, first, second)?;
    let answer = Answer::Dumped(lines);
    world(
        &rt,
        alloc,
        Event::Dump(Who::B),
        answer,
        "dump B: ok
  queue [SellerQ] on waiting 0
  queue [Q ]]3] off waiting 5",
    )
}

/// A dump of A of one line.
fn dumped(rt: &impl Abort, alloc: Global, line: DumpLine, text: &str) -> Result<(), Fail> {
    let lines = one(alloc, line)?;
    let step = Step {
        who: Actor::World,
        event: Event::Dump(Who::A),
        answer: Answer::Dumped(lines),
    };
    told(rt, alloc, step, "world dump A: ok\n  ", text)
}

fn side_line(state: State, level: u8, outgoing: u64) -> DumpLine {
    DumpLine::Side {
        handle: BUYER,
        state,
        group: BUYERS,
        level,
        outgoing,
    }
}

#[test]
fn a_dump_lists_sides(rt: HostRuntime) -> Result<(), Fail> {
    let alloc = rt.alloc();
    dumped(
        &rt,
        alloc,
        side_line(State::CO, 5, 0),
        "side a0000000-0000-0000-0000-000000000001 CO group a0000000-0000-0000-0000-000000000002 level 5 outgoing 0",
    )?;
    dumped(
        &rt,
        alloc,
        side_line(State::DI, 10, 8),
        "side a0000000-0000-0000-0000-000000000001 DI group a0000000-0000-0000-0000-000000000002 level 10 outgoing 8",
    )
}

fn row_line(alloc: Global, key: i64, row: Row) -> Result<DumpLine, Fail> {
    let table = name(alloc, "Stock")?;
    Ok(DumpLine::Row { table, key, row })
}

fn row(alloc: Global, n: i64, body: &str) -> Result<Row, Fail> {
    let body = words(alloc, body)?;
    Ok(Row {
        n: Some(n),
        body: Some(body),
    })
}

#[test]
fn a_dump_lists_rows(rt: HostRuntime) -> Result<(), Fail> {
    let alloc = rt.alloc();
    let bolt = row_line(alloc, 7, row(alloc, 37, "bolt")?)?;
    dumped(&rt, alloc, bolt, "row [Stock] 7 37 0x62006f006c007400")?;
    let outside = row_line(alloc, -100, row(alloc, -2, "\u{e4}\u{1f600}")?)?;
    dumped(&rt, alloc, outside, "row [Stock] -100 -2 0xe4003dd800de")?;
    let nothing = Row {
        n: None,
        body: None,
    };
    let bare = row_line(alloc, 102, nothing)?;
    dumped(&rt, alloc, bare, "row [Stock] 102 NULL NULL")
}

#[test]
fn commands_are_refused_without_a_number(rt: HostRuntime) -> Result<(), Fail> {
    let alloc = rt.alloc();
    let nowhere = Event::Deliver { frame: 9, to: None };
    barred(
        &rt,
        alloc,
        nowhere,
        Barred::NoFrame(9),
        "deliver 9: refused NoFrame 9",
    )?;
    barred(
        &rt,
        alloc,
        Event::Pump(Who::A),
        Barred::WireFull(16777217),
        "pump A: refused WireFull 16777217",
    )?;
    barred(
        &rt,
        alloc,
        Event::Open(Who::B),
        Barred::Up(Who::B),
        "open B: refused Up B",
    )?;
    barred(
        &rt,
        alloc,
        Event::Clock(3),
        Barred::ClockBack(7),
        "clock 3: refused ClockBack 7",
    )?;
    barred(
        &rt,
        alloc,
        Event::Serve,
        Barred::OpenSessions(A1),
        "serve: refused OpenSessions A1",
    )
}

#[test]
fn commands_are_refused_with_a_number(rt: HostRuntime) -> Result<(), Fail> {
    let alloc = rt.alloc();
    unmet(
        &rt,
        alloc,
        Event::Pump(Who::A),
        Refusal::Down(Who::A),
        "pump A: refused 1 Down A",
    )?;
    let lifetime = Event::Lifetime {
        instance: Who::B,
        handle: SELLER,
    };
    unmet(
        &rt,
        alloc,
        lifetime,
        Refusal::DiskFailed(Who::B),
        "lifetime B b0000000-0000-0000-0000-000000000001: refused 31 DiskFailed B",
    )?;
    let pump = Event::Words(words(alloc, "pump")?);
    unmet(&rt, alloc, pump, Refusal::NotYet, "pump: refused 33 NotYet")?;
    let step = Step {
        who: Actor::Session(A1),
        event: Event::Words(words(alloc, "CREATE QUEUE")?),
        answer: Answer::Refused {
            refusal: Refusal::NotYet,
            undone: None,
        },
    };
    told(&rt, alloc, step, "A1 ", "CREATE QUEUE: refused 33 NotYet")
}

#[test]
fn refusals_show_numbers(rt: HostRuntime) -> Result<(), Fail> {
    let alloc = rt.alloc();
    refused(&rt, alloc, Refusal::Overflow(-5), "4 Overflow -5")?;
    refused(&rt, alloc, Refusal::InTransaction(14), "6 InTransaction 14")?;
    refused(&rt, alloc, Refusal::TooMany, "15 TooMany 4096")?;
    refused(&rt, alloc, Refusal::BodyNotEmpty(4), "21 BodyNotEmpty 4")?;
    refused(
        &rt,
        alloc,
        Refusal::BodyTooLong(6002),
        "22 BodyTooLong 6002",
    )?;
    refused(&rt, alloc, Refusal::BadNumber(0), "23 BadNumber 0")?;
    refused(&rt, alloc, Refusal::GroupHeld(8), "25 GroupHeld 8")?;
    refused(&rt, alloc, Refusal::RowHeld(16), "26 RowHeld 16")?;
    refused(&rt, alloc, Refusal::DuplicateKey(-1), "27 DuplicateKey -1")
}

#[test]
fn refusals_show_sizes_and_kinds(rt: HostRuntime) -> Result<(), Fail> {
    let alloc = rt.alloc();
    refused(&rt, alloc, Refusal::TooBig(4194305), "29 TooBig 4194305")?;
    refused(&rt, alloc, Refusal::Full(1073741825), "30 Full 1073741825")?;
    refused(&rt, alloc, Refusal::OutOfMemory, "32 OutOfMemory")?;
    refused(&rt, alloc, Refusal::NotYet, "33 NotYet")?;
    refused(
        &rt,
        alloc,
        Refusal::WrongKind(ValueKind::Bigint),
        "3 WrongKind BIGINT",
    )?;
    refused(
        &rt,
        alloc,
        Refusal::WrongKind(ValueKind::Text),
        "3 WrongKind NVARCHAR",
    )?;
    refused(
        &rt,
        alloc,
        Refusal::WrongKind(ValueKind::Bytes),
        "3 WrongKind VARBINARY",
    )?;
    refused(
        &rt,
        alloc,
        Refusal::WrongKind(ValueKind::Identifier),
        "3 WrongKind UNIQUEIDENTIFIER",
    )
}

#[test]
fn refusals_show_ids_and_states(rt: HostRuntime) -> Result<(), Fail> {
    let alloc = rt.alloc();
    refused(
        &rt,
        alloc,
        Refusal::NoTransaction { session: B9 },
        "5 NoTransaction B9",
    )?;
    refused(
        &rt,
        alloc,
        Refusal::NoConversation(BUYER),
        "16 NoConversation a0000000-0000-0000-0000-000000000001",
    )?;
    refused(
        &rt,
        alloc,
        Refusal::NoGroup(SELLERS),
        "17 NoGroup b0000000-0000-0000-0000-000000000002",
    )?;
    refused(
        &rt,
        alloc,
        Refusal::WrongState(State::SO),
        "18 WrongState SO",
    )?;
    refused(
        &rt,
        alloc,
        Refusal::WrongState(State::SI),
        "18 WrongState SI",
    )?;
    refused(
        &rt,
        alloc,
        Refusal::WrongState(State::DO),
        "18 WrongState DO",
    )?;
    refused(
        &rt,
        alloc,
        Refusal::WrongState(State::ER),
        "18 WrongState ER",
    )?;
    refused(
        &rt,
        alloc,
        Refusal::WrongState(State::CD),
        "18 WrongState CD",
    )
}

#[test]
fn refusals_show_what_is_not_there(rt: HostRuntime) -> Result<(), Fail> {
    let alloc = rt.alloc();
    refused(
        &rt,
        alloc,
        Refusal::NoMessageType(name(alloc, "Nope")?),
        "8 NoMessageType [Nope]",
    )?;
    refused(
        &rt,
        alloc,
        Refusal::NoContract(name(alloc, "Nope")?),
        "9 NoContract [Nope]",
    )?;
    refused(
        &rt,
        alloc,
        Refusal::NoQueue(name(alloc, "no")?),
        "10 NoQueue [no]",
    )?;
    refused(
        &rt,
        alloc,
        Refusal::NoProcedure(name(alloc, "Sell")?),
        "11 NoProcedure [Sell]",
    )?;
    refused(
        &rt,
        alloc,
        Refusal::NoService(name(alloc, "Nope")?),
        "12 NoService [Nope]",
    )
}

#[test]
fn refusals_show_names(rt: HostRuntime) -> Result<(), Fail> {
    let alloc = rt.alloc();
    refused(
        &rt,
        alloc,
        Refusal::NoVariable(words(alloc, "@nope")?),
        "2 NoVariable @nope",
    )?;
    refused(
        &rt,
        alloc,
        Refusal::NameTaken(name(alloc, "Submit")?),
        "7 NameTaken [Submit]",
    )?;
    refused(
        &rt,
        alloc,
        Refusal::NoTable(name(alloc, "Nope")?),
        "13 NoTable [Nope]",
    )?;
    refused(
        &rt,
        alloc,
        Refusal::NothingFromInitiator(name(alloc, "C")?),
        "14 NothingFromInitiator [C]",
    )
}

#[test]
fn refusals_show_types_and_queues(rt: HostRuntime) -> Result<(), Fail> {
    let alloc = rt.alloc();
    refused(
        &rt,
        alloc,
        Refusal::NotInContract(name(alloc, "Extra")?),
        "19 NotInContract [Extra]",
    )?;
    refused(
        &rt,
        alloc,
        Refusal::NotYours(name(alloc, "Accepted")?),
        "20 NotYours [Accepted]",
    )?;
    refused(
        &rt,
        alloc,
        Refusal::QueueOff(name(alloc, "Q ]3")?),
        "24 QueueOff [Q ]]3]",
    )
}

fn deadlock(alloc: Global) -> Result<Refusal, Fail> {
    Ok(Refusal::Deadlock(two(alloc, 4, 3)?))
}

fn undone(refusal: Refusal, tx: u64, off: Names) -> Answer {
    Answer::Refused {
        refusal,
        undone: Some(Reply::RolledBack { tx, off }),
    }
}

#[test]
fn readers_wait_and_are_rolled_back(rt: HostRuntime) -> Result<(), Fail> {
    let alloc = rt.alloc();
    let update = words(alloc, "UPDATE")?;
    let waiting = Answer::Replied(Reply::Waiting { tx: 4 });
    read(&rt, alloc, 1, update, waiting, "1 UPDATE: waiting for 4")?;
    let update = words(alloc, "UPDATE")?;
    let answer = undone(deadlock(alloc)?, 4, Names::new(alloc));
    read(
        &rt,
        alloc,
        2,
        update,
        answer,
        "2 UPDATE: refused 28 Deadlock 4 3, rolled back 4",
    )?;
    let insert = words(alloc, "INSERT")?;
    let answer = undone(Refusal::DuplicateKey(100), 41, off(alloc)?);
    read(
        &rt,
        alloc,
        7,
        insert,
        answer,
        "7 INSERT: refused 27 DuplicateKey 100, rolled back 41, off [Q1], off [Q ]]3]",
    )?;
    let commit = words(alloc, "COMMIT")?;
    let failed = Answer::Refused {
        refusal: Refusal::DiskFailed(Who::B),
        undone: None,
    };
    read(
        &rt,
        alloc,
        12,
        commit,
        failed,
        "12 COMMIT: refused 31 DiskFailed B",
    )
}

#[test]
fn a_reader_starts(rt: HostRuntime) -> Result<(), Fail> {
    let alloc = rt.alloc();
    let step = Step {
        who: Actor::Reader {
            instance: Who::A,
            reader: 1,
        },
        event: Event::Start {
            queue: name(alloc, "Q ]3")?,
            group: BUYERS,
        },
        answer: Answer::Started { tx: 2 },
    };
    told(
        &rt,
        alloc,
        step,
        "A.r1 ",
        "start [Q ]]3] a0000000-0000-0000-0000-000000000002: transaction 2",
    )
}

#[test]
fn the_greatest_numbers_are_shown(rt: HostRuntime) -> Result<(), Fail> {
    let alloc = rt.alloc();
    world(
        &rt,
        alloc,
        Event::Tick(u64::MAX),
        Answer::Moment(u64::MAX),
        "tick 18446744073709551615: moment 18446744073709551615",
    )?;
    arrived(&rt, alloc, Verdict::NotHere(255), "not here 255")?;
    refused(
        &rt,
        alloc,
        Refusal::Overflow(i64::MAX),
        "4 Overflow 9223372036854775807",
    )?;
    refused(
        &rt,
        alloc,
        Refusal::BadNumber(i64::MIN),
        "23 BadNumber -9223372036854775808",
    )?;
    refused(
        &rt,
        alloc,
        Refusal::NoGroup(Handle(u128::MAX)),
        "17 NoGroup ffffffff-ffff-ffff-ffff-ffffffffffff",
    )?;
    let update = words(alloc, "UPDATE")?;
    let every = Answer::Replied(rows(u64::MAX));
    read(
        &rt,
        alloc,
        u64::MAX,
        update,
        every,
        "18446744073709551615 UPDATE: rows 18446744073709551615",
    )
}
