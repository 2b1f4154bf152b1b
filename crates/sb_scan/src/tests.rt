//! The log of a short script, and what it says.

use crate::*;
use sb_log::*;
use std::alloc::Global;
use std::test::Fail;

const A: u128 = 0xa000_0000_0000_0000_0000_0000_0000_0000;

const NEAR: SideId = SideId {
    conversation: Handle(A + 1),
    initiator: true,
};

const FAR: SideId = SideId {
    conversation: Handle(A + 1),
    initiator: false,
};

fn queue(alloc: Global, name: &str) -> Result<Entry, Fail> {
    Ok(Entry::Defined(Ddl::Queue(QueueDef {
        name: Name::new(alloc, name)?,
        on: true,
        poison: true,
        activation: None,
    })))
}

fn service(alloc: Global, name: &str, queue: &str) -> Result<Entry, Fail> {
    let mut contracts = Listed::new(alloc);
    contracts.push(Name::new(alloc, "DEFAULT")?)?;
    Ok(Entry::Defined(Ddl::Service(ServiceDef {
        name: Name::new(alloc, name)?,
        queue: Name::new(alloc, queue)?,
        contracts,
    })))
}

fn header(alloc: Global) -> Result<Header, Fail> {
    Ok(Header {
        from_service: Name::new(alloc, "Near")?,
        to_service: Name::new(alloc, "Far")?,
        contract: Name::new(alloc, "DEFAULT")?,
        from: instance_id(Who::A),
        to: None,
        expires: 2147483647,
    })
}

fn transaction(alloc: Global, tx: u64, op: Op) -> Result<Entry, Fail> {
    let mut ops = Listed::new(alloc);
    ops.push(op)?;
    Ok(Entry::Txn { tx, ops })
}

fn x(alloc: Global) -> Result<Option<Bytes>, Fail> {
    Ok(Some(Bytes::from_vec([0x78, 0].to_vec(alloc)?)))
}

fn send(alloc: Global, tx: u64, side: SideId) -> Result<Entry, Fail> {
    let kind = Name::new(alloc, "DEFAULT")?;
    let body = x(alloc)?;
    transaction(alloc, tx, Op::Send { side, kind, body })
}

fn content(alloc: Global) -> Result<Content, Fail> {
    Ok(Content::App {
        kind: Name::new(alloc, "DEFAULT")?,
        body: x(alloc)?,
    })
}

/// Two services of one instance and a dialog between them, over which `x` was sent.
fn dialog(alloc: Global) -> Result<Vec<Entry>, Fail> {
    let mut log = Vec::new(alloc);
    log.push(queue(alloc, "NearQ")?)?;
    log.push(queue(alloc, "FarQ")?)?;
    log.push(service(alloc, "Near", "NearQ")?)?;
    log.push(service(alloc, "Far", "FarQ")?)?;
    let begin = Op::Begin {
        handle: Handle(A + 1),
        group: Handle(A + 2),
        header: header(alloc)?,
    };
    log.push(transaction(alloc, 1, begin)?)?;
    log.push(send(alloc, 2, NEAR)?)?;
    Ok(log)
}

/// The message's arrival, which makes the far side.
fn arrival(alloc: Global) -> Result<Entry, Fail> {
    Ok(Entry::Accepted {
        side: FAR,
        number: 1,
        made: Some(NewSide {
            handle: Handle(A + 3),
            group: Handle(A + 4),
            header: header(alloc)?,
        }),
        content: content(alloc)?,
    })
}

fn data(alloc: Global, number: u64) -> Result<Data, Fail> {
    Ok(Data {
        side: NEAR,
        number,
        header: header(alloc)?,
        content: content(alloc)?,
    })
}

#[test]
fn sides_are_found(rt: HostRuntime) -> Result<(), Fail> {
    let alloc = rt.alloc();
    let mut log = dialog(alloc)?;
    log.push(arrival(alloc)?)?;
    let log = log.as_slice();
    assert_eq!(rt; sides(alloc, log)?.len(), 2);
    assert_eq!(rt; side_of(alloc, log, Handle(A + 3))?, Some(FAR));
    assert_eq!(rt; side_of(alloc, log, Handle(A + 9))?, None);
    assert_eq!(rt; group_of(log, FAR), Some(Handle(A + 4)));
    let far_queue = Name::new(alloc, "FarQ")?;
    let found = queue_of(log, FAR).ok_or("no queue")?;
    assert!(rt; *found == far_queue);
    let near = made(log, NEAR).ok_or("no side")?;
    assert_eq!(rt; destination(Who::A, log, near), Who::A);
    Ok(())
}

#[test]
fn messages_are_numbered(rt: HostRuntime) -> Result<(), Fail> {
    let alloc = rt.alloc();
    let mut log = dialog(alloc)?;
    log.push(send(alloc, 3, NEAR)?)?;
    let log = log.as_slice();
    assert_eq!(rt; sends(alloc, log, NEAR)?.len(), 2);
    assert_eq!(rt; numbered(alloc, log, FAR)?.len(), 0);
    let second = message_at(log, NEAR, 1).ok_or("no message")?;
    assert!(rt; second.copied()? == content(alloc)?);
    assert!(rt; message_at(log, NEAR, 2).is_none());
    assert_eq!(rt; accepted(log, FAR), 0);
    Ok(())
}

#[test]
fn states_follow_the_messages(rt: HostRuntime) -> Result<(), Fail> {
    let alloc = rt.alloc();
    let mut log = dialog(alloc)?;
    assert_eq!(rt; state_of(log.as_slice(), NEAR), State::CO);
    log.push(arrival(alloc)?)?;
    assert_eq!(rt; state_of(log.as_slice(), FAR), State::CO);
    let end = Op::End {
        side: NEAR,
        last: Final::EndDialog,
    };
    log.push(transaction(alloc, 3, end)?)?;
    assert_eq!(rt; state_of(log.as_slice(), NEAR), State::DO);
    Ok(())
}

#[test]
fn messages_are_accepted_once_and_in_order(rt: HostRuntime) -> Result<(), Fail> {
    let alloc = rt.alloc();
    let mut log = dialog(alloc)?;
    assert_eq!(rt;
        verdict(Who::A, log.as_slice(), &data(alloc, 1)?),
        Verdict::New
    );
    assert_eq!(rt;
        verdict(Who::A, log.as_slice(), &data(alloc, 2)?),
        Verdict::Early
    );
    log.push(arrival(alloc)?)?;
    assert_eq!(rt;
        verdict(Who::A, log.as_slice(), &data(alloc, 1)?),
        Verdict::Repeat
    );
    assert_eq!(rt;
        verdict(Who::A, log.as_slice(), &data(alloc, 2)?),
        Verdict::Next
    );
    assert_eq!(rt;
        verdict(Who::A, log.as_slice(), &data(alloc, 3)?),
        Verdict::Early
    );
    Ok(())
}

#[test]
fn what_is_acknowledged_is_no_longer_outgoing(rt: HostRuntime) -> Result<(), Fail> {
    let alloc = rt.alloc();
    let mut log = dialog(alloc)?;
    assert_eq!(rt; outgoing(alloc, log.as_slice(), NEAR)?.len(), 1);
    log.push(Entry::Acked {
        side: NEAR,
        upto: 1,
        closed: false,
    })?;
    assert_eq!(rt; outgoing(alloc, log.as_slice(), NEAR)?.len(), 0);
    Ok(())
}

fn took(alloc: Global, tx: u64, item: u64) -> Result<Entry, Fail> {
    let queue = Name::new(alloc, "FarQ")?;
    transaction(alloc, tx, Op::Took { queue, item })
}

#[test]
fn what_is_taken_is_received(rt: HostRuntime) -> Result<(), Fail> {
    let alloc = rt.alloc();
    let mut log = dialog(alloc)?;
    log.push(arrival(alloc)?)?;
    assert_eq!(rt; receives(alloc, log.as_slice(), FAR)?.len(), 0);
    log.push(took(alloc, 3, 1)?)?;
    let log = log.as_slice();
    assert_eq!(rt; receives(alloc, log, NEAR)?.len(), 0);
    let received = receives(alloc, log, FAR)?;
    assert_eq!(rt; received.len(), 1);
    assert!(rt; received[0].copied()? == content(alloc)?);
    let item = item_at(log, 1).ok_or("no item")?;
    assert_eq!(rt; item.side, FAR);
    assert!(rt; item_at(log, 2).is_none());
    Ok(())
}

#[test]
fn groups_end_with_their_sides(rt: HostRuntime) -> Result<(), Fail> {
    let alloc = rt.alloc();
    let mut log = dialog(alloc)?;
    assert!(rt; group_exists(alloc, log.as_slice(), Handle(A + 2))?);
    assert!(rt; !group_exists(alloc, log.as_slice(), Handle(A + 9))?);
    log.push(transaction(alloc, 3, Op::Cleanup { side: NEAR })?)?;
    assert!(rt; !group_exists(alloc, log.as_slice(), Handle(A + 2))?);
    Ok(())
}

fn put(alloc: Global, tx: u64, key: i64, n: i64) -> Result<Entry, Fail> {
    let put = Op::Put {
        table: Name::new(alloc, "Stock")?,
        key,
        n: Some(n),
        body: None,
    };
    transaction(alloc, tx, put)
}

#[test]
fn rows_are_those_of_the_last_put(rt: HostRuntime) -> Result<(), Fail> {
    let alloc = rt.alloc();
    let stock = Name::new(alloc, "Stock")?;
    let mut log = Vec::new(alloc);
    log.push(put(alloc, 1, 7, 4)?)?;
    log.push(put(alloc, 2, 7, -2)?)?;
    let row = rows_of(log.as_slice(), &stock, 7).ok_or("no row")?;
    assert_eq!(rt; row.copied()?.n, Some(-2));
    assert!(rt; rows_of(log.as_slice(), &stock, 8).is_none());
    let table = Name::new(alloc, "Stock")?;
    log.push(transaction(alloc, 3, Op::Delete { table, key: 7 })?)?;
    assert!(rt; rows_of(log.as_slice(), &stock, 7).is_none());
    Ok(())
}

fn timer(alloc: Global, tx: u64, at: u64) -> Result<Entry, Fail> {
    transaction(alloc, tx, Op::Timer { side: NEAR, at })
}

#[test]
fn deadlines_come_in_order(rt: HostRuntime) -> Result<(), Fail> {
    let alloc = rt.alloc();
    let mut log = dialog(alloc)?;
    log.push(timer(alloc, 3, 2147483647)?)?;
    log.push(timer(alloc, 4, 1)?)?;
    assert_eq!(rt; timer_of(log.as_slice(), NEAR), Some(1));
    assert_eq!(rt; due(alloc, log.as_slice(), 0)?.len(), 0);
    let both = due(alloc, log.as_slice(), 2147483647)?;
    assert_eq!(rt; both.len(), 2);
    assert_eq!(rt; both[0].kind, DueKind::Timer);
    assert_eq!(rt; both[1].kind, DueKind::Lifetime);
    log.push(Entry::Fired { side: NEAR })?;
    assert_eq!(rt; timer_of(log.as_slice(), NEAR), None);
    Ok(())
}

/// A second dialog's message arrives, in a group of its own.
fn other_arrival(alloc: Global) -> Result<Entry, Fail> {
    Ok(Entry::Accepted {
        side: SideId {
            conversation: Handle(A + 5),
            initiator: false,
        },
        number: 1,
        made: Some(NewSide {
            handle: Handle(A + 6),
            group: Handle(A + 7),
            header: header(alloc)?,
        }),
        content: content(alloc)?,
    })
}

fn holder_of(alloc: Global, tx: u64, group: Handle) -> Result<OpenTransaction, Fail> {
    let mut groups = Listed::new(alloc);
    groups.push(group)?;
    Ok(OpenTransaction {
        owner: Owner::Session(1),
        tx,
        ops: Listed::new(alloc),
        groups,
        keys: Listed::new(alloc),
        waits_for: None,
    })
}

#[test]
fn held_groups_are_passed_by(rt: HostRuntime) -> Result<(), Fail> {
    let alloc = rt.alloc();
    let mut log = dialog(alloc)?;
    log.push(arrival(alloc)?)?;
    log.push(other_arrival(alloc)?)?;
    let log = log.as_slice();
    let far_queue = Name::new(alloc, "FarQ")?;
    let mut opened = Vec::new(alloc);
    let first = pick(
        alloc,
        log,
        opened.as_slice(),
        9,
        &far_queue,
        Some(1),
        Filter::All,
    )?;
    assert_eq!(rt; first.ok_or("nothing")?.group, Handle(A + 4));
    opened.push(holder_of(alloc, 3, Handle(A + 4))?)?;
    assert!(rt; !is_free(opened.as_slice(), Handle(A + 4), 9));
    assert!(rt; is_free(opened.as_slice(), Handle(A + 4), 3));
    let second = pick(
        alloc,
        log,
        opened.as_slice(),
        9,
        &far_queue,
        Some(1),
        Filter::All,
    )?;
    assert_eq!(rt; second.ok_or("nothing")?.group, Handle(A + 7));
    opened.push(holder_of(alloc, 4, Handle(A + 7))?)?;
    assert!(rt;
        pick(
            alloc,
            log,
            opened.as_slice(),
            9,
            &far_queue,
            None,
            Filter::All
        )?
        .is_none()
    );
    Ok(())
}

/// Each character of the text followed by a zero byte: UTF-16LE where all are of the basic kind.
fn widened(alloc: Global, text: &str) -> Result<Vec<u8>, Fail> {
    let mut bytes = Vec::new(alloc);
    for byte in text.as_bytes() {
        bytes.push(*byte)?;
        bytes.push(0)?;
    }
    Ok(bytes)
}

#[test]
fn errors_are_written_as_xml(rt: HostRuntime) -> Result<(), Fail> {
    let alloc = rt.alloc();
    let text = Text::from_string(String::from_str(alloc, "a<b")?);
    let body = error_body(alloc, 50, &text)?;
    let wanted = widened(
        alloc,
        "<Error xmlns=\"http://schemas.microsoft.com/SQL/ServiceBroker/Error\"><Code>50</Code><Description>a&lt;b</Description></Error>",
    )?;
    assert!(rt; body.as_slice() == wanted.as_slice());
    Ok(())
}

#[test]
fn lifetimes_are_written_as_xml(rt: HostRuntime) -> Result<(), Fail> {
    let alloc = rt.alloc();
    let body = lifetime_body(alloc)?;
    let wanted = widened(
        alloc,
        "<Error xmlns=\"http://schemas.microsoft.com/SQL/ServiceBroker/Error\"><Code>-1</Code><Description>The lifetime has passed</Description></Error>",
    )?;
    assert!(rt; body.as_slice() == wanted.as_slice());
    Ok(())
}

#[test]
fn definitions_are_found_by_name(rt: HostRuntime) -> Result<(), Fail> {
    let alloc = rt.alloc();
    let mut log = dialog(alloc)?;
    let far_queue = Name::new(alloc, "FarQ")?;
    let far = Name::new(alloc, "Far")?;
    let stock = Name::new(alloc, "Stock")?;
    assert!(rt; find_table(log.as_slice(), &stock).is_none());
    let table = TableDef {
        name: Name::new(alloc, "Stock")?,
    };
    log.push(Entry::Defined(Ddl::Table(table)))?;
    let log = log.as_slice();
    assert!(rt; find_table(log, &stock).is_some());
    assert!(rt; find_queue(log, &far_queue).is_some());
    assert!(rt; find_queue(log, &far).is_none());
    assert!(rt; find_service(log, &far).is_some());
    let queue = service_queue(log, &far).ok_or("no queue")?;
    assert!(rt; *queue == far_queue);
    Ok(())
}

#[test]
fn the_default_type_and_contract_are_built_in(rt: HostRuntime) -> Result<(), Fail> {
    let alloc = rt.alloc();
    let default = Name::new(alloc, "DEFAULT")?;
    let other = Name::new(alloc, "Other")?;
    let log: Vec<Entry> = Vec::new(alloc);
    let log = log.as_slice();
    assert!(rt; is_default(&default));
    assert!(rt; !is_default(&other));
    assert!(rt; !SeenType::BuiltIn.is_empty());
    assert!(rt; find_message_type(log, &default).is_some());
    assert!(rt; find_message_type(log, &other).is_none());
    let contract = find_contract(log, &default).ok_or("no contract")?;
    assert_eq!(rt; sender_of(contract, &default), Some(Sender::Any));
    assert_eq!(rt; sender_of(contract, &other), None);
    assert!(rt; may_be_sent_by(Sender::Any, false));
    assert!(rt; !may_be_sent_by(Sender::Initiator, false));
    Ok(())
}

#[test]
fn queues_are_on_by_their_last_setting(rt: HostRuntime) -> Result<(), Fail> {
    let alloc = rt.alloc();
    let mut log = dialog(alloc)?;
    let far_queue = Name::new(alloc, "FarQ")?;
    assert!(rt; queue_is_on(log.as_slice(), &far_queue));
    log.push(Entry::QueueSet {
        queue: Name::new(alloc, "FarQ")?,
        on: false,
    })?;
    let log = log.as_slice();
    assert!(rt; !queue_is_on(log, &far_queue));
    let def = find_queue(log, &far_queue).ok_or("no queue")?;
    assert!(rt; !is_on(log, def));
    Ok(())
}

fn priority(alloc: Global, name: &str, level: i64) -> Result<Entry, Fail> {
    let remote = Text::from_string(String::from_str(alloc, "Near")?);
    Ok(Entry::Defined(Ddl::Priority(PriorityDef {
        name: Name::new(alloc, name)?,
        contract: None,
        local: None,
        remote: Some(remote),
        level,
    })))
}

#[test]
fn levels_are_those_of_the_first_best_priority(rt: HostRuntime) -> Result<(), Fail> {
    let alloc = rt.alloc();
    let mut log = dialog(alloc)?;
    log.push(priority(alloc, "Hi", 10)?)?;
    log.push(priority(alloc, "Lo", 1)?)?;
    log.push(arrival(alloc)?)?;
    let log = log.as_slice();
    assert_eq!(rt; level_of(log, NEAR), 5);
    assert_eq!(rt; level_of(log, FAR), 10);
    let far = made(log, FAR).ok_or("no side")?;
    assert_eq!(rt; level_made(log, far), 10);
    Ok(())
}

#[test]
fn sides_are_made_by_entries(rt: HostRuntime) -> Result<(), Fail> {
    let alloc = rt.alloc();
    let begin = Op::Begin {
        handle: Handle(A + 1),
        group: Handle(A + 2),
        header: header(alloc)?,
    };
    assert_eq!(rt; partner(NEAR), FAR);
    let near = begun(&begin).ok_or("no side")?;
    assert_eq!(rt; near.side, NEAR);
    let mut ops = Vec::new(alloc);
    ops.push(begin)?;
    assert!(rt; begun_among(ops.as_slice(), NEAR).is_some());
    assert!(rt; begun_among(ops.as_slice(), FAR).is_none());
    let arrival = arrival(alloc)?;
    let far = made_in(&arrival, FAR).ok_or("no side")?;
    assert_eq!(rt; far.handle, Handle(A + 3));
    assert!(rt; made_in(&arrival, NEAR).is_none());
    Ok(())
}

#[test]
fn services_stand_at_their_ends(rt: HostRuntime) -> Result<(), Fail> {
    let alloc = rt.alloc();
    let log = dialog(alloc)?;
    let log = log.as_slice();
    let near = Name::new(alloc, "Near")?;
    let far = Name::new(alloc, "Far")?;
    assert!(rt; has_side(log, NEAR));
    assert!(rt; !has_side(log, FAR));
    let header = header_of(log, NEAR).ok_or("no header")?;
    assert!(rt; *own_end(NEAR, header) == near);
    assert!(rt; *far_service(NEAR, header) == far);
    assert_eq!(rt; route(log, Who::B, &far, None), Who::B);
    assert_eq!(rt; last_moved(log, NEAR), None);
    Ok(())
}

#[test]
fn messages_wait_until_they_are_taken(rt: HostRuntime) -> Result<(), Fail> {
    let alloc = rt.alloc();
    let mut log = dialog(alloc)?;
    let far_queue = Name::new(alloc, "FarQ")?;
    log.push(arrival(alloc)?)?;
    assert_eq!(rt; waiting(alloc, log.as_slice(), &far_queue)?.len(), 1);
    assert!(rt; waits_at(log.as_slice(), &far_queue, FAR, 1));
    log.push(took(alloc, 3, 1)?)?;
    assert!(rt; is_taken(log.as_slice(), 1));
    assert!(rt; !waits_at(log.as_slice(), &far_queue, FAR, 1));
    Ok(())
}

#[test]
fn arrivals_are_items(rt: HostRuntime) -> Result<(), Fail> {
    let alloc = rt.alloc();
    let arrival = arrival(alloc)?;
    let item = item_in(&arrival, 7).ok_or("no item")?;
    assert_eq!(rt; item.copied(alloc)?.number, 7);
    let mut log = Vec::new(alloc);
    log.push(arrival)?;
    assert_eq!(rt; items(alloc, log.as_slice())?.len(), 1);
    Ok(())
}

#[test]
fn ends_have_final_messages(rt: HostRuntime) -> Result<(), Fail> {
    let alloc = rt.alloc();
    let mut log = dialog(alloc)?;
    let send = Op::Send {
        side: NEAR,
        kind: Name::new(alloc, "DEFAULT")?,
        body: x(alloc)?,
    };
    assert!(rt; sent_by(&send, NEAR).is_some());
    assert!(rt; sent_at(log.as_slice(), NEAR, 0).is_ok());
    assert!(rt; final_content(&Final::Silent).is_none());
    assert!(rt; final_sent(log.as_slice(), NEAR).is_none());
    let last = Final::EndDialog;
    log.push(transaction(alloc, 3, Op::End { side: NEAR, last })?)?;
    let log = log.as_slice();
    assert!(rt; final_sent(log, NEAR).is_some());
    assert!(rt; is_final(&Content::EndDialog));
    assert!(rt; is_ended(log, NEAR));
    assert!(rt; is_closed(log, NEAR));
    assert!(rt; !is_cleaned(log, NEAR));
    assert!(rt; !is_expired(log, NEAR));
    assert!(rt; !is_done(log, NEAR));
    assert!(rt; !has_accepted_final(log, FAR));
    Ok(())
}

#[test]
fn states_allow_statements(rt: HostRuntime) -> Result<(), Fail> {
    assert!(rt; may_send(State::CO));
    assert!(rt; !may_send(State::DI));
    assert!(rt; may_end(State::DI));
    assert!(rt; !may_end(State::CD));
    Ok(())
}

fn ack(upto: u64) -> Ack {
    Ack {
        side: NEAR,
        upto,
        closed: false,
        to: instance_id(Who::A),
    }
}

#[test]
fn acknowledgements_are_new_once(rt: HostRuntime) -> Result<(), Fail> {
    let alloc = rt.alloc();
    let mut log = dialog(alloc)?;
    let message = data(alloc, 1)?;
    assert_eq!(rt; receiver(&message), FAR);
    assert!(rt; makes_side(log.as_slice(), &message));
    assert_eq!(rt;
        ack_verdict(Who::B, log.as_slice(), &ack(1)),
        Verdict::NotHere(1)
    );
    assert_eq!(rt;
        ack_verdict(Who::A, log.as_slice(), &ack(2)),
        Verdict::NotHere(7)
    );
    assert_eq!(rt;
        ack_verdict(Who::A, log.as_slice(), &ack(1)),
        Verdict::AckNew
    );
    log.push(Entry::Acked {
        side: NEAR,
        upto: 1,
        closed: false,
    })?;
    assert_eq!(rt;
        ack_verdict(Who::A, log.as_slice(), &ack(1)),
        Verdict::AckOld
    );
    assert_eq!(rt; acked(log.as_slice(), NEAR), 1);
    assert!(rt; !is_closed_by_ack(log.as_slice(), NEAR));
    Ok(())
}

#[test]
fn pumps_hand_out_messages_and_then_acknowledgements(rt: HostRuntime) -> Result<(), Fail> {
    let alloc = rt.alloc();
    let mut log = dialog(alloc)?;
    log.push(arrival(alloc)?)?;
    let owed = [Owed {
        side: FAR,
        to: instance_id(Who::A),
    }];
    let sent = frames_due(alloc, Who::A, log.as_slice(), &owed)?;
    assert_eq!(rt; sent.len(), 2);
    assert_eq!(rt; sent[0].to, Who::A);
    assert!(rt; sent[0].frame == Frame::Data(data(alloc, 1)?));
    assert!(rt; sent[1].frame == Frame::Ack(ack(1)));
    Ok(())
}

#[test]
fn views_have_the_operations_so_far(rt: HostRuntime) -> Result<(), Fail> {
    let alloc = rt.alloc();
    let mut log = dialog(alloc)?;
    log.push(arrival(alloc)?)?;
    let far_queue = Name::new(alloc, "FarQ")?;
    let mut own = holder_of(alloc, 3, Handle(A + 4))?;
    let queue = Name::new(alloc, "FarQ")?;
    own.ops.push(Op::Took { queue, item: 1 })?;
    let mut opened = Vec::new(alloc);
    opened.push(own)?;
    assert_eq!(rt; holder(opened.as_slice(), Handle(A + 4), 9), Some(3));
    let seen = view(alloc, log.as_slice(), opened.as_slice(), 3)?;
    assert_eq!(rt; seen.len(), 8);
    let left = pick_in(
        alloc,
        seen.as_slice(),
        opened.as_slice(),
        3,
        &far_queue,
        None,
        Filter::All,
    )?;
    assert!(rt; left.is_none());
    let found = candidates(
        alloc,
        log.as_slice(),
        opened.as_slice(),
        3,
        &far_queue,
        Filter::All,
    )?;
    assert_eq!(rt; found.len(), 1);
    assert!(rt;
        passes(
            alloc,
            log.as_slice(),
            Filter::Group(Handle(A + 4)),
            found[0]
        )?
    );
    assert!(rt; !passes(alloc, log.as_slice(), Filter::Side(Handle(A + 1)), found[0])?);
    Ok(())
}
