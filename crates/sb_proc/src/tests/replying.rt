//! What replies leave in the variables.

use super::asking::{before, begin, get_group, select};
use super::{HANDLE, declare, machine_of, name, number, outcome, same, set, text, variables_of};
use crate::*;
use sb_grammar::{
    Assignment, Column, Columns, Expr, Filter as Where, Receive, RowColumn, Statement,
};
use sb_log::{
    Body, Filter, Handle, Item, Kind, Msg, ReceivedItem, ReceivedItems, Reply, Request, Row,
    SideId, ValueKind,
};
use sqlite_items::{Boxed, Items};
use std::alloc::{AllocError, Global};
use std::test::Fail;

fn tell(machine: &mut Machine, reply: Boxed<Reply>) -> Result<(), AllocError> {
    machine.told(reply.get())
}

// What comes behind the reply to a statement on `@v`, and the variables.
fn after(alloc: Global, statement: Boxed<Statement>, reply: Boxed<Reply>) -> Result<String, Fail> {
    let mut machine = before(alloc, "", statement)?;
    let first = outcome(alloc, &mut machine)?;
    tell(&mut machine, reply)?;
    let then = outcome(alloc, &mut machine)?;
    let variables = variables_of(alloc, machine)?;
    Ok(format!(in alloc; "{first}, {then}; {variables}")?)
}

#[test]
fn a_dialog_leaves_its_handle(rt: HostRuntime) -> Result<(), Fail> {
    let alloc = rt.alloc();
    let dialog = Reply::Dialog {
        handle: HANDLE,
        group: Handle(2),
    };
    let after = after(alloc, begin(alloc, "@v")?, Boxed::new(alloc, dialog)?)?;
    let wanted = "request, end; @v = 'a0000000-0000-0000-0000-000000000001', 0 rows";
    assert_eq!(rt; after.as_str(), wanted);
    Ok(())
}

#[test]
fn a_group_that_is_not_found_leaves_null(rt: HostRuntime) -> Result<(), Fail> {
    let alloc = rt.alloc();
    let found = Boxed::new(
        alloc,
        Reply::Group {
            group: Some(HANDLE),
        },
    )?;
    let found = after(alloc, get_group(alloc)?, found)?;
    let wanted = "request, end; @v = 'a0000000-0000-0000-0000-000000000001', 0 rows";
    assert_eq!(rt; found.as_str(), wanted);
    let none = Boxed::new(alloc, Reply::Group { group: None })?;
    let none = after(alloc, get_group(alloc)?, none)?;
    assert_eq!(rt; none.as_str(), "request, end; @v = NULL, 0 rows");
    Ok(())
}

// A row of a number, or of a text.
fn rows(alloc: Global, n: Option<i64>, body: &str) -> Result<Boxed<Reply>, AllocError> {
    let body = text(alloc, body)?;
    let reply = Reply::Rows {
        count: 1,
        row: Some(Row {
            n,
            body: Some(body),
        }),
    };
    Boxed::new(alloc, reply)
}

#[test]
fn what_does_not_convert_leaves_null(rt: HostRuntime) -> Result<(), Fail> {
    let alloc = rt.alloc();
    let body = after(
        alloc,
        select(alloc, RowColumn::Body)?,
        rows(alloc, None, "bolt")?,
    )?;
    assert_eq!(rt; body.as_str(), "request, end; @v = 'bolt', 1 rows");
    let n = after(
        alloc,
        select(alloc, RowColumn::Number)?,
        rows(alloc, Some(40), "bolt")?,
    )?;
    assert_eq!(rt; n.as_str(), "request, end; @v = NULL, 1 rows");
    Ok(())
}

fn assignment(
    alloc: Global,
    all: &mut Items<Assignment>,
    variable: &str,
    column: Column,
) -> Result<(), AllocError> {
    let variable = text(alloc, variable)?;
    all.push(Assignment { variable, column })
}

// DECLARE @h UNIQUEIDENTIFIER, @s BIGINT, @t NVARCHAR, and a RECEIVE that assigns them.
fn receiving(alloc: Global) -> Result<Items<Statement>, Fail> {
    let mut block = Items::new(alloc);
    declare(alloc, &mut block, "@h", ValueKind::Identifier)?;
    declare(alloc, &mut block, "@s", ValueKind::Bigint)?;
    declare(alloc, &mut block, "@t", ValueKind::Text)?;
    let queue = name(alloc, "FarQ")?;
    let mut all = Items::new(alloc);
    assignment(alloc, &mut all, "@h", Column::Handle)?;
    assignment(alloc, &mut all, "@s", Column::Sequence)?;
    assignment(alloc, &mut all, "@t", Column::TypeName)?;
    block.push(Statement::Receive(Receive {
        top: None,
        columns: Columns::Assigned(all),
        queue,
        filter: Where::All,
    }))?;
    Ok(block)
}

fn item(sequence: u64) -> ReceivedItem {
    let side = SideId {
        conversation: HANDLE,
        initiator: true,
    };
    let message = Msg {
        kind: Kind::EndDialog,
        body: None,
    };
    ReceivedItem {
        handle: HANDLE,
        group: Handle(8),
        item: Item {
            number: sequence,
            side,
            sequence,
            message,
        },
    }
}

fn received(alloc: Global) -> Result<Boxed<Reply>, AllocError> {
    let mut items = ReceivedItems::new(alloc);
    items.push(item(4))?;
    items.push(item(5))?;
    Boxed::new(alloc, Reply::Received { items })
}

fn asked(alloc: Global) -> Result<Boxed<Request>, Fail> {
    let queue = name(alloc, "FarQ")?;
    let asked = Request::Receive {
        queue,
        top: None,
        filter: Filter::All,
    };
    Ok(Boxed::new(alloc, asked)?)
}

fn gives(machine: &mut Machine, wanted: Boxed<Request>) -> bool {
    same(machine.next(), Ok(Act::Run(wanted.into_inner())))
}

#[test]
fn what_waits_is_asked_again(rt: HostRuntime) -> Result<(), Fail> {
    let alloc = rt.alloc();
    let mut machine = machine_of(alloc, receiving(alloc)?)?;
    assert!(rt; gives(&mut machine, asked(alloc)?));
    tell(&mut machine, Boxed::new(alloc, Reply::Waiting { tx: 3 })?)?;
    assert!(rt; gives(&mut machine, asked(alloc)?));
    assert!(rt; gives(&mut machine, asked(alloc)?));
    Ok(())
}

#[test]
fn the_last_message_is_assigned(rt: HostRuntime) -> Result<(), Fail> {
    let alloc = rt.alloc();
    let mut machine = machine_of(alloc, receiving(alloc)?)?;
    assert_eq!(rt; outcome(alloc, &mut machine)?.as_str(), "request");
    tell(&mut machine, received(alloc)?)?;
    assert_eq!(rt; outcome(alloc, &mut machine)?.as_str(), "end");
    let variables = variables_of(alloc, machine)?;
    let wanted = "@h = a0000000-0000-0000-0000-000000000001, @s = 5, \
        @t = 'http://schemas.microsoft.com/SQL/ServiceBroker/EndDialog', 2 rows";
    assert_eq!(rt; variables.as_str(), wanted);
    Ok(())
}

// DECLARE @g UNIQUEIDENTIFIER, @b VARBINARY, @c NVARCHAR, and a RECEIVE that assigns them.
fn receiving_parts(alloc: Global) -> Result<Items<Statement>, Fail> {
    let mut block = Items::new(alloc);
    declare(alloc, &mut block, "@g", ValueKind::Identifier)?;
    declare(alloc, &mut block, "@b", ValueKind::Bytes)?;
    declare(alloc, &mut block, "@c", ValueKind::Text)?;
    let queue = name(alloc, "FarQ")?;
    let mut all = Items::new(alloc);
    assignment(alloc, &mut all, "@g", Column::Group)?;
    assignment(alloc, &mut all, "@b", Column::Body)?;
    assignment(alloc, &mut all, "@c", Column::CastBody(ValueKind::Text))?;
    block.push(Statement::Receive(Receive {
        top: None,
        columns: Columns::Assigned(all),
        queue,
        filter: Where::All,
    }))?;
    Ok(block)
}

// An item whose body is the text x.
fn received_body(alloc: Global) -> Result<Boxed<Reply>, AllocError> {
    let mut received = item(1);
    received.item.message.body = Some(Body::from_vec([b'x', 0].to_vec(alloc)?));
    let mut items = ReceivedItems::new(alloc);
    items.push(received)?;
    Boxed::new(alloc, Reply::Received { items })
}

#[test]
fn group_and_body_are_assigned(rt: HostRuntime) -> Result<(), Fail> {
    let alloc = rt.alloc();
    let mut machine = machine_of(alloc, receiving_parts(alloc)?)?;
    assert_eq!(rt; outcome(alloc, &mut machine)?.as_str(), "request");
    tell(&mut machine, received_body(alloc)?)?;
    assert_eq!(rt; outcome(alloc, &mut machine)?.as_str(), "end");
    let variables = variables_of(alloc, machine)?;
    let wanted = "@g = 00000000-0000-0000-0000-000000000008, @b = 2 bytes, @c = 'x', 1 rows";
    assert_eq!(rt; variables.as_str(), wanted);
    Ok(())
}

// DECLARE @v BIGINT, COMMIT, SET @v = @@ROWCOUNT.
fn counting(alloc: Global) -> Result<Items<Statement>, AllocError> {
    let mut block = Items::new(alloc);
    declare(alloc, &mut block, "@v", ValueKind::Bigint)?;
    block.push(Statement::Commit)?;
    set(alloc, &mut block, "@v", Boxed::new(alloc, Expr::RowCount)?)?;
    Ok(block)
}

#[test]
fn the_number_of_rows_is_kept(rt: HostRuntime) -> Result<(), Fail> {
    let alloc = rt.alloc();
    let mut machine = machine_of(alloc, counting(alloc)?)?;
    assert_eq!(rt; outcome(alloc, &mut machine)?.as_str(), "commit");
    let reply = Reply::Rows {
        count: 3,
        row: None,
    };
    tell(&mut machine, Boxed::new(alloc, reply)?)?;
    assert_eq!(rt; outcome(alloc, &mut machine)?.as_str(), "end");
    assert_eq!(rt; variables_of(alloc, machine)?.as_str(), "@v = 3, 3 rows");
    Ok(())
}
