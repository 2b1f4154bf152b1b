//! What each statement asks.

use super::{DIALOG, HANDLE, declare, name, null, number, outcome, same, text, written};
use crate::*;
use sb_grammar::{
    BrokerInstance, Change, Columns, DialogOption, Ending, Expr, Filter as Where, GetGroup,
    Receive, RowColumn, Selected, Statement, Waited,
};
use sb_log::{
    Body, Ddl, Filter, Handle, How, NumberChange, ProcedureDef, Relation, Request, TableDef,
    ValueKind, Who,
};
use sqlite_items::{Boxed, Items};
use std::alloc::{AllocError, Global};
use std::test::Fail;

const OTHER: &str = "a0000000-0000-0000-0000-000000000002";

const GROUP: Handle = Handle(0xa000_0000_0000_0000_0000_0000_0000_0002);

// A machine on B, of DECLARE @v NVARCHAR and the statement.
pub fn before(
    alloc: Global,
    batch: &str,
    statement: Boxed<Statement>,
) -> Result<Machine, AllocError> {
    let mut block = Items::new(alloc);
    declare(alloc, &mut block, "@v", ValueKind::Text)?;
    block.push(statement.into_inner())?;
    let batch = text(alloc, batch)?;
    Ok(Machine::new(alloc, Who::B, batch, block, Variables::new(alloc)))
}

// Whether the statement asks this.
fn asks(
    alloc: Global,
    statement: Boxed<Statement>,
    wanted: Boxed<Request>,
) -> Result<bool, AllocError> {
    let mut machine = before(alloc, "", statement)?;
    Ok(same(machine.next(), Ok(Act::Run(wanted.into_inner()))))
}

fn refusal(alloc: Global, statement: Boxed<Statement>) -> Result<String, Fail> {
    let mut machine = before(alloc, "", statement)?;
    outcome(alloc, &mut machine)
}

#[test]
fn transactions_are_asked_for(rt: HostRuntime) -> Result<(), Fail> {
    let alloc = rt.alloc();
    let begin = Boxed::new(alloc, Statement::BeginTransaction)?;
    assert!(rt; asks(alloc, begin, Boxed::new(alloc, Request::Begin)?)?);
    let commit = Boxed::new(alloc, Statement::Commit)?;
    assert!(rt; asks(alloc, commit, Boxed::new(alloc, Request::Commit)?)?);
    let rollback = Boxed::new(alloc, Statement::Rollback)?;
    assert!(rt; asks(alloc, rollback, Boxed::new(alloc, Request::Rollback)?)?);
    Ok(())
}

// ---- definitions

fn table(alloc: Global) -> Result<Ddl, Fail> {
    let name = name(alloc, "Stock")?;
    Ok(Ddl::Table(TableDef { name }))
}

fn create(alloc: Global) -> Result<Boxed<Statement>, Fail> {
    Ok(Boxed::new(alloc, Statement::Define(table(alloc)?))?)
}

fn created(alloc: Global) -> Result<Boxed<Request>, Fail> {
    Ok(Boxed::new(alloc, Request::Define(table(alloc)?))?)
}

fn turn_off(alloc: Global) -> Result<Boxed<Statement>, Fail> {
    let queue = name(alloc, "FarQ")?;
    Ok(Boxed::new(alloc, Statement::AlterQueue { queue, on: false })?)
}

fn turned_off(alloc: Global) -> Result<Boxed<Request>, Fail> {
    let queue = name(alloc, "FarQ")?;
    Ok(Boxed::new(alloc, Request::AlterQueue { queue, on: false })?)
}

#[test]
fn definitions_are_asked_for(rt: HostRuntime) -> Result<(), Fail> {
    let alloc = rt.alloc();
    assert!(rt; asks(alloc, create(alloc)?, created(alloc)?)?);
    assert!(rt; asks(alloc, turn_off(alloc)?, turned_off(alloc)?)?);
    Ok(())
}

fn create_procedure(alloc: Global) -> Result<Boxed<Statement>, Fail> {
    let create = Statement::CreateProcedure {
        name: name(alloc, "P")?,
        at: 19,
        body: Items::new(alloc),
    };
    Ok(Boxed::new(alloc, create)?)
}

fn created_procedure(alloc: Global) -> Result<Boxed<Request>, Fail> {
    let name = name(alloc, "P")?;
    let text = text(alloc, "AS RETURN;")?;
    let procedure = Ddl::Procedure(ProcedureDef { name, text });
    Ok(Boxed::new(alloc, Request::Define(procedure))?)
}

#[test]
fn a_procedure_is_cut_from_its_batch(rt: HostRuntime) -> Result<(), Fail> {
    let alloc = rt.alloc();
    let batch = "CREATE PROCEDURE P AS RETURN; -- é\n";
    let mut machine = before(alloc, batch, create_procedure(alloc)?)?;
    let wanted = created_procedure(alloc)?;
    assert!(rt; same(machine.next(), Ok(Act::Run(wanted.into_inner()))));
    Ok(())
}

// ---- dialogs

fn options(alloc: Global) -> Result<Items<DialogOption>, AllocError> {
    let lifetime = number(alloc, 0)?;
    let group = written(alloc, OTHER)?;
    let mut options = Items::new(alloc);
    options.push(DialogOption::Lifetime(lifetime.into_inner()))?;
    options.push(DialogOption::RelatedGroup(group.into_inner()))?;
    options.push(DialogOption::EncryptionOff)?;
    Ok(options)
}

pub fn begin(alloc: Global, variable: &str) -> Result<Boxed<Statement>, Fail> {
    let variable = text(alloc, variable)?;
    let from = name(alloc, "Near")?;
    let options = options(alloc)?;
    let to = written(alloc, "Far")?;
    let begin = Statement::BeginDialog {
        variable,
        from,
        to: to.into_inner(),
        instance: Some(BrokerInstance::Current),
        contract: None,
        options,
    };
    Ok(Boxed::new(alloc, begin)?)
}

fn begun(alloc: Global) -> Result<Boxed<Request>, Fail> {
    let from = name(alloc, "Near")?;
    let to = text(alloc, "Far")?;
    let begun = Request::BeginDialog {
        from,
        to,
        instance: Some(Handle(0xb000_0000_0000_0000_0000_0000_0000_0000)),
        contract: None,
        relation: Relation::Group(GROUP),
        lifetime: Some(0),
    };
    Ok(Boxed::new(alloc, begun)?)
}

#[test]
fn a_dialog_is_begun_with_its_options(rt: HostRuntime) -> Result<(), Fail> {
    let alloc = rt.alloc();
    assert!(rt; asks(alloc, begin(alloc, "@v")?, begun(alloc)?)?);
    let refused = refusal(alloc, begin(alloc, "@w")?)?;
    assert_eq!(rt; refused.as_str(), "BEGIN DIALOG: 2 NoVariable @w");
    Ok(())
}

fn send(alloc: Global) -> Result<Boxed<Statement>, AllocError> {
    let conversation = written(alloc, DIALOG)?;
    let body = null(alloc)?;
    let send = Statement::Send {
        conversation: conversation.into_inner(),
        kind: None,
        body: Some(body.into_inner()),
    };
    Boxed::new(alloc, send)
}

fn sent(alloc: Global) -> Result<Boxed<Request>, AllocError> {
    let sent = Request::Send {
        handle: HANDLE,
        kind: None,
        body: None,
    };
    Boxed::new(alloc, sent)
}

fn move_to(alloc: Global) -> Result<Boxed<Statement>, AllocError> {
    let conversation = written(alloc, DIALOG)?;
    let group = written(alloc, OTHER)?;
    let moving = Statement::Move {
        conversation: conversation.into_inner(),
        group: group.into_inner(),
    };
    Boxed::new(alloc, moving)
}

fn moved(alloc: Global) -> Result<Boxed<Request>, AllocError> {
    let moved = Request::Move {
        handle: HANDLE,
        group: GROUP,
    };
    Boxed::new(alloc, moved)
}

fn timer(alloc: Global) -> Result<Boxed<Statement>, AllocError> {
    let conversation = written(alloc, DIALOG)?;
    let timeout = number(alloc, 60)?;
    let timer = Statement::Timer {
        conversation: conversation.into_inner(),
        timeout: timeout.into_inner(),
    };
    Boxed::new(alloc, timer)
}

fn timed(alloc: Global) -> Result<Boxed<Request>, AllocError> {
    let timed = Request::Timer {
        handle: HANDLE,
        seconds: 60,
    };
    Boxed::new(alloc, timed)
}

#[test]
fn conversations_are_used(rt: HostRuntime) -> Result<(), Fail> {
    let alloc = rt.alloc();
    assert!(rt; asks(alloc, send(alloc)?, sent(alloc)?)?);
    assert!(rt; asks(alloc, move_to(alloc)?, moved(alloc)?)?);
    assert!(rt; asks(alloc, timer(alloc)?, timed(alloc)?)?);
    Ok(())
}

fn end(alloc: Global, code: Boxed<Expr>) -> Result<Boxed<Statement>, AllocError> {
    let conversation = written(alloc, DIALOG)?;
    let description = written(alloc, "lost")?;
    let ending = Ending::Error {
        code: code.into_inner(),
        description: description.into_inner(),
    };
    let end = Statement::EndConversation {
        conversation: conversation.into_inner(),
        ending,
    };
    Boxed::new(alloc, end)
}

fn ended(alloc: Global) -> Result<Boxed<Request>, AllocError> {
    let text = text(alloc, "lost")?;
    let ended = Request::End {
        handle: HANDLE,
        how: How::Error { code: 5, text },
    };
    Boxed::new(alloc, ended)
}

#[test]
fn a_conversation_is_ended(rt: HostRuntime) -> Result<(), Fail> {
    let alloc = rt.alloc();
    assert!(rt; asks(alloc, end(alloc, number(alloc, 5)?)?, ended(alloc)?)?);
    let refused = refusal(alloc, end(alloc, null(alloc)?)?)?;
    assert_eq!(rt; refused.as_str(), "END CONVERSATION: 3 WrongKind BIGINT");
    Ok(())
}

fn end_plainly(alloc: Global, is_cleanup: bool) -> Result<Boxed<Statement>, AllocError> {
    let conversation = written(alloc, DIALOG)?;
    let ending = if is_cleanup {
        Ending::Cleanup
    } else {
        Ending::Plain
    };
    let end = Statement::EndConversation {
        conversation: conversation.into_inner(),
        ending,
    };
    Boxed::new(alloc, end)
}

fn ended_plainly(alloc: Global, is_cleanup: bool) -> Result<Boxed<Request>, AllocError> {
    let how = if is_cleanup { How::Cleanup } else { How::Plain };
    let ended = Request::End {
        handle: HANDLE,
        how,
    };
    Boxed::new(alloc, ended)
}

#[test]
fn a_conversation_is_ended_without_an_error(rt: HostRuntime) -> Result<(), Fail> {
    let alloc = rt.alloc();
    for is_cleanup in [false, true] {
        let end = end_plainly(alloc, is_cleanup)?;
        assert!(rt; asks(alloc, end, ended_plainly(alloc, is_cleanup)?)?);
    }
    Ok(())
}

// ---- queues

fn receive_of_one(alloc: Global) -> Result<Boxed<Statement>, Fail> {
    let queue = name(alloc, "FarQ")?;
    let conversation = written(alloc, DIALOG)?;
    let receive = Receive {
        top: None,
        columns: Columns::All,
        queue,
        filter: Where::Conversation(conversation.into_inner()),
    };
    Ok(Boxed::new(alloc, Statement::Receive(receive))?)
}

fn received_of_one(alloc: Global) -> Result<Boxed<Request>, Fail> {
    let queue = name(alloc, "FarQ")?;
    let received = Request::Receive {
        queue,
        top: None,
        filter: Filter::Side(HANDLE),
    };
    Ok(Boxed::new(alloc, received)?)
}

fn receive(alloc: Global) -> Result<Boxed<Statement>, Fail> {
    let queue = name(alloc, "FarQ")?;
    let top = number(alloc, 3)?;
    let group = written(alloc, OTHER)?;
    let receive = Receive {
        top: Some(top.into_inner()),
        columns: Columns::All,
        queue,
        filter: Where::Group(group.into_inner()),
    };
    Ok(Boxed::new(alloc, Statement::Receive(receive))?)
}

fn received(alloc: Global) -> Result<Boxed<Request>, Fail> {
    let queue = name(alloc, "FarQ")?;
    let received = Request::Receive {
        queue,
        top: Some(3),
        filter: Filter::Group(GROUP),
    };
    Ok(Boxed::new(alloc, received)?)
}

pub fn get_group(alloc: Global) -> Result<Boxed<Statement>, Fail> {
    let variable = text(alloc, "@v")?;
    let queue = name(alloc, "FarQ")?;
    Ok(Boxed::new(alloc, Statement::GetGroup(GetGroup { variable, queue }))?)
}

fn waitfor(alloc: Global) -> Result<Boxed<Statement>, Fail> {
    let variable = text(alloc, "@v")?;
    let queue = name(alloc, "FarQ")?;
    let timeout = number(alloc, 100)?;
    let waitfor = Statement::Waitfor {
        waited: Waited::GetGroup(GetGroup { variable, queue }),
        timeout: Some(timeout.into_inner()),
    };
    Ok(Boxed::new(alloc, waitfor)?)
}

fn got_group(alloc: Global) -> Result<Boxed<Request>, Fail> {
    let queue = name(alloc, "FarQ")?;
    Ok(Boxed::new(alloc, Request::GetGroup { queue })?)
}

#[test]
fn queues_are_asked(rt: HostRuntime) -> Result<(), Fail> {
    let alloc = rt.alloc();
    assert!(rt; asks(alloc, receive(alloc)?, received(alloc)?)?);
    assert!(rt; asks(alloc, receive_of_one(alloc)?, received_of_one(alloc)?)?);
    assert!(rt; asks(alloc, get_group(alloc)?, got_group(alloc)?)?);
    assert!(rt; asks(alloc, waitfor(alloc)?, got_group(alloc)?)?);
    Ok(())
}

// ---- tables

fn insert(alloc: Global) -> Result<Boxed<Statement>, Fail> {
    let table = name(alloc, "Stock")?;
    let id = number(alloc, 7)?;
    let n = null(alloc)?;
    let body = written(alloc, "bolt")?;
    let insert = Statement::Insert {
        table,
        id: id.into_inner(),
        n: n.into_inner(),
        body: body.into_inner(),
    };
    Ok(Boxed::new(alloc, insert)?)
}

fn inserted(alloc: Global) -> Result<Boxed<Request>, Fail> {
    let table = name(alloc, "Stock")?;
    let body = text(alloc, "bolt")?;
    let inserted = Request::Insert {
        table,
        key: 7,
        n: None,
        body: Some(body),
    };
    Ok(Boxed::new(alloc, inserted)?)
}

fn delete(alloc: Global) -> Result<Boxed<Statement>, Fail> {
    let table = name(alloc, "Stock")?;
    let id = number(alloc, 7)?;
    let delete = Statement::Delete {
        table,
        id: id.into_inner(),
    };
    Ok(Boxed::new(alloc, delete)?)
}

fn deleted(alloc: Global) -> Result<Boxed<Request>, Fail> {
    let table = name(alloc, "Stock")?;
    Ok(Boxed::new(alloc, Request::Delete { table, key: 7 })?)
}

pub fn select(alloc: Global, column: RowColumn) -> Result<Boxed<Statement>, Fail> {
    let table = name(alloc, "Stock")?;
    let variable = text(alloc, "@v")?;
    let id = number(alloc, 7)?;
    let mut selected = Items::new(alloc);
    selected.push(Selected { variable, column })?;
    let select = Statement::Select {
        selected,
        table,
        id: id.into_inner(),
    };
    Ok(Boxed::new(alloc, select)?)
}

fn read(alloc: Global) -> Result<Boxed<Request>, Fail> {
    let table = name(alloc, "Stock")?;
    Ok(Boxed::new(alloc, Request::Read { table, key: 7 })?)
}

#[test]
fn tables_are_asked(rt: HostRuntime) -> Result<(), Fail> {
    let alloc = rt.alloc();
    assert!(rt; asks(alloc, insert(alloc)?, inserted(alloc)?)?);
    assert!(rt; asks(alloc, delete(alloc)?, deleted(alloc)?)?);
    assert!(rt; asks(alloc, select(alloc, RowColumn::Body)?, read(alloc)?)?);
    Ok(())
}

// UPDATE Stock SET n = n - NUMBER, body = BODY WHERE id = 7, changes in this order or the other.
fn update(
    alloc: Global,
    number_to_take: Boxed<Expr>,
    body: Boxed<Expr>,
) -> Result<Boxed<Statement>, Fail> {
    let table = name(alloc, "Stock")?;
    let id = number(alloc, 7)?;
    let mut changes = Items::new(alloc);
    changes.push(Change::Body(body.into_inner()))?;
    changes.push(Change::Subtract(number_to_take.into_inner()))?;
    let update = Statement::Update {
        table,
        changes,
        id: id.into_inner(),
    };
    Ok(Boxed::new(alloc, update)?)
}

fn updated(alloc: Global, n: NumberChange) -> Result<Boxed<Request>, Fail> {
    let table = name(alloc, "Stock")?;
    let updated = Request::Update {
        table,
        key: 7,
        n: Some(n),
        body: Some(None),
    };
    Ok(Boxed::new(alloc, updated)?)
}

#[test]
fn a_change_by_null_makes_null(rt: HostRuntime) -> Result<(), Fail> {
    let alloc = rt.alloc();
    let less = update(alloc, number(alloc, 2)?, null(alloc)?)?;
    assert!(rt; asks(alloc, less, updated(alloc, NumberChange::Subtract(2))?)?);
    let none = update(alloc, null(alloc)?, null(alloc)?)?;
    assert!(rt; asks(alloc, none, updated(alloc, NumberChange::To(None))?)?);
    Ok(())
}

#[test]
fn changes_come_in_the_order_written(rt: HostRuntime) -> Result<(), Fail> {
    let alloc = rt.alloc();
    let both = update(alloc, written(alloc, "x")?, number(alloc, 1)?)?;
    assert_eq!(rt;
        refusal(alloc, both)?.as_str(),
        "UPDATE: 3 WrongKind NVARCHAR"
    );
    let second = update(alloc, written(alloc, "x")?, written(alloc, "y")?)?;
    assert_eq!(rt;
        refusal(alloc, second)?.as_str(),
        "UPDATE: 3 WrongKind BIGINT"
    );
    Ok(())
}
