//! What statements ask of their instance.

ghost use Rattle.std.specs.Prelude.{◌≡◌, IfOk};
ghost use Rattle.sb_grammar.specs.declared.tree.Statement.{out-Statement};
ghost use Rattle.sb_proc.specs.Asking.{place_in, scope_in};
ghost use Rattle.sb_proc.specs.Requests as says;
ghost use Rattle.sb_proc.specs.Scopes as scopes;
ghost use Rattle.sb_proc.specs.Seen.{scope_of};
ghost use Rattle.sb_value.specs.Faults.{Gives};

use crate::dialog::{body_of, instance_if_written, options_chosen};
use crate::receiving::{group_request, receive_request, waited_request};
use crate::rows::all_changed;
use crate::seen::Seen;
use crate::wanted::{identifier, number, number_if_written, number_or_null, text, text_or_null};
use sb_grammar::{BrokerInstance, Change, DialogOption, Ending, Expr, Selected, Statement, Waited};
use sb_lex::{Token, cut};
use sb_log::{Ddl, How, Name, ProcedureDef, Request, Text, Who};
use sb_value::Fault;
use sqlite_items::Items;
use std::alloc::{AllocError, Global};

/// Where a statement is computed: its batch's instance and text, and the variables.
#[derive(Clone, Copy)]
pub struct Asking<'a> {
    pub alloc: Global,
    pub who: Who,
    pub text: &'a str,
    pub seen: Seen<'a>,
}

/// What a statement asks; none where it is done without its instance.
pub fn asked(asking: &Asking<'_>, statement: &Statement) -> Result<Option<Request>, Fault>
    ensures { Gives (says.asked (place_in asking.now) (scope_in asking.now) statement.now) result }
{
    match statement {
        Statement::Define(definition) => Ok(Some(Request::Define(copied_definition(definition)?))),
        Statement::CreateProcedure { name, at, .. } => procedure(asking, name, *at),
        Statement::AlterQueue { queue, on } => alter_queue(queue, *on),
        Statement::BeginTransaction => Ok(Some(Request::Begin)),
        Statement::Commit => Ok(Some(Request::Commit)),
        Statement::Rollback => Ok(Some(Request::Rollback)),
        _ => asked_of_data(asking, statement),
    }
}

// The derived clone says what a copy is by variants; here it is the value.
fn copied_definition(definition: &Ddl) -> Result<Ddl, AllocError>
    ensures { IfOk result (λ copy. copy ≡ definition.now) }
{
    definition.clone()
}

fn asked_of_data(asking: &Asking<'_>, statement: &Statement) -> Result<Option<Request>, Fault>
    ensures { Gives (says.asked_of_data (place_in asking.now) (scope_in asking.now) (out-Statement statement.now)) result }
{
    let alloc = asking.alloc;
    let seen = &asking.seen;
    match statement {
        Statement::Receive(receive) => Ok(Some(receive_request(alloc, seen, receive)?)),
        Statement::GetGroup(get) => Ok(Some(group_request(seen, get)?)),
        Statement::Waitfor { waited, timeout } => waitfor(asking, waited, timeout),
        Statement::Insert { table, id, n, body } => insert(asking, table, id, n, body),
        Statement::Update { table, changes, id } => update(asking, table, changes, id),
        Statement::Delete { table, id } => delete(asking, table, id),
        Statement::Select {
            selected,
            table,
            id,
        } => select(asking, selected, table, id),
        _ => asked_of_dialogs(asking, statement),
    }
}

fn asked_of_dialogs(asking: &Asking<'_>, statement: &Statement) -> Result<Option<Request>, Fault>
    ensures { Gives (says.asked_of_dialogs (place_in asking.now) (scope_in asking.now) (out-Statement statement.now)) result }
{
    match statement {
        Statement::BeginDialog {
            variable,
            from,
            to,
            instance,
            contract,
            options,
        } => begin_dialog(asking, variable, from, to, *instance, contract, options),
        Statement::Send {
            conversation,
            kind,
            body,
        } => send(asking, conversation, kind, body),
        Statement::Move {
            conversation,
            group,
        } => move_to(asking, conversation, group),
        Statement::EndConversation {
            conversation,
            ending,
        } => end(asking, conversation, ending),
        Statement::Timer {
            conversation,
            timeout,
        } => timer(asking, conversation, timeout),
        _ => Ok(None),
    }
}

fn procedure(asking: &Asking<'_>, name: &Name, at: usize) -> Result<Option<Request>, Fault>
    ensures { Gives (says.procedure_asked (place_in asking.now) name.now at) result }
{
    let text = procedure_text(asking.alloc, at, asking.text)?;
    let name = name.clone()?;
    Ok(Some(Request::Define(Ddl::Procedure(ProcedureDef { name, text }))))
}

// From its AS to the end of its batch's last token.
fn procedure_text(alloc: Global, at: usize, batch: &str) -> Result<Text, AllocError>
    ensures { IfOk result (λ text. text ≡ says.procedure_text at batch.now) }
{
    let found = cut(alloc, batch)?;
    let bytes = batch.as_bytes();
    let end = end_of_last(found.tokens.as_slice()).min(bytes.len());
    let start = at.min(end);
    let text = String::from_utf8_lossy(alloc, &bytes[start..end])?;
    Ok(Text::from_string(text))
}

fn end_of_last(tokens: &[Token]) -> usize
    ensures { result ≡ says.end_of_last tokens.now }
{
    match tokens.last() {
        Some(token) => token.end,
        None => 0,
    }
}

fn alter_queue(queue: &Name, on: bool) -> Result<Option<Request>, Fault>
    ensures { Gives (says.asks (Request.AlterQueue queue.now on)) result }
{
    Ok(Some(Request::AlterQueue {
        queue: queue.clone()?,
        on,
    }))
}

fn begin_dialog(
    asking: &Asking<'_>,
    variable: &Text,
    from: &Name,
    to: &Expr,
    instance: Option<BrokerInstance>,
    contract: &Option<Name>,
    options: &Items<DialogOption>,
) -> Result<Option<Request>, Fault>
    ensures { Gives (says.dialog_asked (place_in asking.now) (scope_in asking.now) variable.now from.now to.now instance contract.now options.now) result }
{
    asking.seen.is_declared(variable)?;
    let to = text(asking.alloc, &asking.seen, to)?;
    let chosen = options_chosen(asking.alloc, &asking.seen, options.as_slice())?;
    Ok(Some(Request::BeginDialog {
        from: from.clone()?,
        to,
        instance: instance_if_written(asking.who, instance),
        contract: contract.clone()?,
        relation: chosen.relation,
        lifetime: chosen.lifetime,
    }))
}

fn send(
    asking: &Asking<'_>,
    conversation: &Expr,
    kind: &Option<Name>,
    body: &Option<Expr>,
) -> Result<Option<Request>, Fault>
    ensures { Gives (says.send_asked (scope_in asking.now) conversation.now kind.now body.now) result }
{
    let handle = identifier(asking.alloc, &asking.seen, conversation)?;
    let body = body_of(asking.alloc, &asking.seen, body)?;
    Ok(Some(Request::Send {
        handle,
        kind: kind.clone()?,
        body,
    }))
}

fn waitfor(
    asking: &Asking<'_>,
    waited: &Waited,
    timeout: &Option<Expr>,
) -> Result<Option<Request>, Fault>
    ensures { Gives (says.waitfor_asked (scope_in asking.now) waited.now timeout.now) result }
{
    let request = waited_request(asking.alloc, &asking.seen, waited)?;
    number_if_written(asking.alloc, &asking.seen, timeout)?;
    Ok(Some(request))
}

fn move_to(asking: &Asking<'_>, conversation: &Expr, group: &Expr) -> Result<Option<Request>, Fault>
    ensures { Gives (says.move_asked (scope_in asking.now) conversation.now group.now) result }
{
    let handle = identifier(asking.alloc, &asking.seen, conversation)?;
    let group = identifier(asking.alloc, &asking.seen, group)?;
    Ok(Some(Request::Move { handle, group }))
}

fn end(asking: &Asking<'_>, conversation: &Expr, ending: &Ending) -> Result<Option<Request>, Fault>
    ensures { Gives (says.end_asked (scope_in asking.now) conversation.now ending.now) result }
{
    let handle = identifier(asking.alloc, &asking.seen, conversation)?;
    let how = how_of(asking, ending)?;
    Ok(Some(Request::End { handle, how }))
}

fn how_of(asking: &Asking<'_>, ending: &Ending) -> Result<How, Fault>
    ensures { Gives (says.how_of (scope_in asking.now) ending.now) result }
{
    match ending {
        Ending::Plain => Ok(How::Plain),
        Ending::Cleanup => Ok(How::Cleanup),
        Ending::Error { code, description } => {
            let code = number(asking.alloc, &asking.seen, code)?;
            let text = text(asking.alloc, &asking.seen, description)?;
            Ok(How::Error { code, text })
        }
    }
}

fn timer(asking: &Asking<'_>, conversation: &Expr, timeout: &Expr) -> Result<Option<Request>, Fault>
    ensures { Gives (says.timer_asked (scope_in asking.now) conversation.now timeout.now) result }
{
    let handle = identifier(asking.alloc, &asking.seen, conversation)?;
    let seconds = number(asking.alloc, &asking.seen, timeout)?;
    Ok(Some(Request::Timer { handle, seconds }))
}

fn insert(
    asking: &Asking<'_>,
    table: &Name,
    id: &Expr,
    n: &Expr,
    body: &Expr,
) -> Result<Option<Request>, Fault>
    ensures { Gives (says.insert_asked (scope_in asking.now) table.now id.now n.now body.now) result }
{
    let key = number(asking.alloc, &asking.seen, id)?;
    let n = number_or_null(asking.alloc, &asking.seen, n)?;
    let body = text_or_null(asking.alloc, &asking.seen, body)?;
    Ok(Some(Request::Insert {
        table: table.clone()?,
        key,
        n,
        body,
    }))
}

fn update(
    asking: &Asking<'_>,
    table: &Name,
    changes: &Items<Change>,
    id: &Expr,
) -> Result<Option<Request>, Fault>
    ensures { Gives (says.update_asked (scope_in asking.now) table.now changes.now id.now) result }
{
    let changed = all_changed(asking.alloc, &asking.seen, changes.as_slice())?;
    let key = number(asking.alloc, &asking.seen, id)?;
    Ok(Some(Request::Update {
        table: table.clone()?,
        key,
        n: changed.n,
        body: changed.body,
    }))
}

fn delete(asking: &Asking<'_>, table: &Name, id: &Expr) -> Result<Option<Request>, Fault>
    ensures { Gives (says.delete_asked (scope_in asking.now) table.now id.now) result }
{
    let key = number(asking.alloc, &asking.seen, id)?;
    Ok(Some(Request::Delete {
        table: table.clone()?,
        key,
    }))
}

fn select(
    asking: &Asking<'_>,
    selected: &Items<Selected>,
    table: &Name,
    id: &Expr,
) -> Result<Option<Request>, Fault>
    ensures { Gives (says.select_asked (scope_in asking.now) selected.now table.now id.now) result }
{
    selected_declared(&asking.seen, selected.as_slice())?;
    let key = number(asking.alloc, &asking.seen, id)?;
    Ok(Some(Request::Read {
        table: table.clone()?,
        key,
    }))
}

fn selected_declared(seen: &Seen<'_>, selected: &[Selected]) -> Result<(), Fault>
    ensures { Gives (scopes.all_declared (scope_of seen.now) (λ x. x.variable) selected.now) result }
{
    for part in selected {
        seen.is_declared(&part.variable)?;
    }
    Ok(())
}
