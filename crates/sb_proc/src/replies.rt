//! What replies leave in the variables.

ghost use Rattle.std.specs.Prelude.{◌≡◌, IfOk, OnOk, fold};
ghost use Rattle.sb_grammar.specs.declared.tree.Statement.{out-Statement};
ghost use Rattle.sb_proc.specs.Replies as says;
ghost use Rattle.sb_proc.specs.Scopes as scopes;

use crate::variables::{Variables, find};
use sb_grammar::{
    Assignment, Column, Columns, GetGroup, Receive, RowColumn, Selected, Statement, Waited,
};
use sb_log::{Body, GroupId, Kind, ReceivedItem, Reply, Row, Text};
use sb_value::{Value, cast, converted};
use std::alloc::{AllocError, Global};

/// Takes the reply to a statement.
pub fn take_reply(
    alloc: Global,
    variables: &mut Variables,
    statement: &Statement,
    reply: &Reply,
) -> Result<(), AllocError>
    ensures { OnOk result (variables.new ≡ says.scope_after variables.old statement.now reply.now) }
{
    let rows = rows_after(variables.rows(), reply);
    variables.count(rows);
    take_values(alloc, variables, statement, reply)
}

// Gives the statement's variables what the reply has for them.
fn take_values(
    alloc: Global,
    variables: &mut Variables,
    statement: &Statement,
    reply: &Reply,
) -> Result<(), AllocError>
    ensures { OnOk result (variables.new ≡ scopes.scope_with variables.old (says.variables_after_at variables.old.variables (out-Statement statement.now) reply.now)) }
{
    match statement {
        Statement::Receive(receive) => take_received(alloc, variables, receive, reply),
        Statement::GetGroup(get) => take_group(alloc, variables, get, reply),
        Statement::Waitfor { waited, .. } => take_waited(alloc, variables, waited, reply),
        Statement::BeginDialog { variable, .. } => take_dialog(alloc, variables, variable, reply),
        Statement::Select { selected, .. } => {
            take_row(alloc, variables, selected.as_slice(), reply)
        }
        _ => Ok(()),
    }
}

fn take_waited(
    alloc: Global,
    variables: &mut Variables,
    waited: &Waited,
    reply: &Reply,
) -> Result<(), AllocError>
    ensures { OnOk result (variables.new ≡ scopes.scope_with variables.old (says.after_waited variables.old.variables waited.now reply.now)) }
{
    match waited {
        Waited::Receive(receive) => take_received(alloc, variables, receive, reply),
        Waited::GetGroup(get) => take_group(alloc, variables, get, reply),
    }
}

fn rows_after(rows: i64, reply: &Reply) -> i64
    ensures { result ≡ says.rows_after rows reply.now }
{
    match reply {
        Reply::Rows { count, .. } => counted(*count),
        Reply::Received { items } => counted(items.len() as u64),
        _ => rows,
    }
}

// A count as a BIGINT, which ends where BIGINT does.
fn counted(count: u64) -> i64
    ensures { result ≡ says.counted count }
{
    count.min(9_223_372_036_854_775_807) as i64
}

fn take_received(
    alloc: Global,
    variables: &mut Variables,
    receive: &Receive,
    reply: &Reply,
) -> Result<(), AllocError>
    ensures { OnOk result (variables.new ≡ scopes.scope_with variables.old (says.after_received variables.old.variables receive.now reply.now)) }
{
    let Reply::Received { items } = reply else {
        return Ok(());
    };
    let Columns::Assigned(assignments) = &receive.columns else {
        return Ok(());
    };
    match items.as_slice().last() {
        None => Ok(()),
        Some(item) => take_columns(alloc, variables, assignments.as_slice(), item),
    }
}

fn take_columns(
    alloc: Global,
    variables: &mut Variables,
    assignments: &[Assignment],
    item: &ReceivedItem,
) -> Result<(), AllocError>
    ensures { OnOk result (variables.new ≡ scopes.scope_with variables.old (says.after_columns variables.old.variables (Columns.Assigned assignments.now) (Some item.now))) }
{
    for assignment in assignments {
        let value = column_of(alloc, item, assignment.column)?;
        assign(alloc, variables, &assignment.variable, value)?;
    }
    Ok(())
}

fn column_of(alloc: Global, item: &ReceivedItem, column: Column) -> Result<Value, AllocError>
    ensures { IfOk result (λ value. value ≡ says.column_of item.now column) }
{
    match column {
        Column::Handle => Ok(Value::Identifier(item.handle)),
        Column::Group => Ok(Value::Identifier(item.group)),
        Column::TypeName => Ok(Value::Text(type_name(alloc, &item.item.message.kind)?)),
        Column::Sequence => Ok(Value::Number(counted(item.item.sequence))),
        Column::Body => body_value(&item.item.message.body),
        Column::CastBody(kind) => {
            let body = body_value(&item.item.message.body)?;
            Ok(cast(alloc, kind, body)?.unwrap_or(Value::Null))
        }
    }
}

fn body_value(body: &Option<Body>) -> Result<Value, AllocError>
    ensures { IfOk result (λ value. value ≡ says.or_null Value.Bytes body.now) }
{
    match body {
        None => Ok(Value::Null),
        Some(bytes) => Ok(Value::Bytes(bytes.clone()?)),
    }
}

/// The name of a message's type.
fn type_name(alloc: Global, kind: &Kind) -> Result<Text, AllocError>
    ensures { IfOk result (λ name. name ≡ says.type_name kind.now) }
{
    let name = match kind {
        Kind::App(name) => name.as_str(),
        Kind::EndDialog => "http://schemas.microsoft.com/SQL/ServiceBroker/EndDialog",
        Kind::Error => "http://schemas.microsoft.com/SQL/ServiceBroker/Error",
        Kind::DialogTimer => "http://schemas.microsoft.com/SQL/ServiceBroker/DialogTimer",
    };
    Ok(Text::from_string(String::from_str(alloc, name)?))
}

fn take_group(
    alloc: Global,
    variables: &mut Variables,
    get: &GetGroup,
    reply: &Reply,
) -> Result<(), AllocError>
    ensures { OnOk result (variables.new ≡ scopes.scope_with variables.old (says.after_group variables.old.variables get.now reply.now)) }
{
    match reply {
        Reply::Group { group } => assign(alloc, variables, &get.variable, group_value(*group)),
        _ => Ok(()),
    }
}

fn group_value(group: Option<GroupId>) -> Value
    ensures { result ≡ says.or_null Value.Identifier group }
{
    match group {
        None => Value::Null,
        Some(group) => Value::Identifier(group),
    }
}

fn take_dialog(
    alloc: Global,
    variables: &mut Variables,
    variable: &Text,
    reply: &Reply,
) -> Result<(), AllocError>
    ensures { OnOk result (variables.new ≡ scopes.scope_with variables.old (says.after_dialog variables.old.variables variable.now reply.now)) }
{
    match reply {
        Reply::Dialog { handle, .. } => {
            assign(alloc, variables, variable, Value::Identifier(*handle))
        }
        _ => Ok(()),
    }
}

fn take_row(
    alloc: Global,
    variables: &mut Variables,
    selected: &[Selected],
    reply: &Reply,
) -> Result<(), AllocError>
    ensures { OnOk result (variables.new ≡ scopes.scope_with variables.old (says.after_row variables.old.variables selected.now reply.now)) }
{
    match reply {
        Reply::Rows { row: Some(row), .. } => take_parts(alloc, variables, selected, row),
        _ => Ok(()),
    }
}

fn take_parts(
    alloc: Global,
    variables: &mut Variables,
    selected: &[Selected],
    row: &Row,
) -> Result<(), AllocError>
    ensures { OnOk result (variables.new ≡ scopes.scope_with variables.old (fold (says.after_selected row.now) variables.old.variables selected.now)) }
{
    for part in selected {
        let value = row_column_of(row, part.column)?;
        assign(alloc, variables, &part.variable, value)?;
    }
    Ok(())
}

fn row_column_of(row: &Row, column: RowColumn) -> Result<Value, AllocError>
    ensures { IfOk result (λ value. value ≡ says.row_column_of row.now column) }
{
    match column {
        RowColumn::Number => match row.n {
            None => Ok(Value::Null),
            Some(number) => Ok(Value::Number(number)),
        },
        RowColumn::Body => match &row.body {
            None => Ok(Value::Null),
            Some(text) => Ok(Value::Text(text.clone()?)),
        },
    }
}

// A value that doesn't convert to the variable's kind leaves NULL in it.
fn assign(
    alloc: Global,
    variables: &mut Variables,
    name: &Text,
    value: Value,
) -> Result<(), AllocError>
    ensures { OnOk result (variables.new ≡ scopes.scope_with variables.old (scopes.assigned name.now value variables.old.variables)) }
{
    let kind = match find(variables.known(), name.as_str()) {
        None => return Ok(()),
        Some(variable) => variable.kind,
    };
    let fitted = converted(alloc, kind, value)?.unwrap_or(Value::Null);
    variables.set(name.as_str(), fitted);
    Ok(())
}
