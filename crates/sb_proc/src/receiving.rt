//! What RECEIVE and GET CONVERSATION GROUP ask.

ghost use Rattle.sb_proc.specs.Requests as says;
ghost use Rattle.sb_proc.specs.Scopes as scopes;
ghost use Rattle.sb_proc.specs.Seen.{scope_of};
ghost use Rattle.sb_value.specs.Faults.{Gives};

use crate::seen::Seen;
use crate::wanted::{identifier, number_if_written};
use sb_grammar::{Assignment, Columns, Filter as Where, GetGroup, Receive, Waited};
use sb_log::{Filter, Request};
use sb_value::Fault;
use std::alloc::Global;

pub fn waited_request(alloc: Global, seen: &Seen<'_>, waited: &Waited) -> Result<Request, Fault>
    ensures { Gives (says.waited_request (scope_of seen.now) waited.now) result }
{
    match waited {
        Waited::Receive(receive) => receive_request(alloc, seen, receive),
        Waited::GetGroup(get) => group_request(seen, get),
    }
}

pub fn receive_request(alloc: Global, seen: &Seen<'_>, receive: &Receive) -> Result<Request, Fault>
    ensures { Gives (says.receive_request (scope_of seen.now) receive.now) result }
{
    let top = number_if_written(alloc, seen, &receive.top)?;
    columns_declared(seen, &receive.columns)?;
    let filter = filter_of(alloc, seen, &receive.filter)?;
    Ok(Request::Receive {
        queue: receive.queue.clone()?,
        top,
        filter,
    })
}

pub fn group_request(seen: &Seen<'_>, get: &GetGroup) -> Result<Request, Fault>
    ensures { Gives (says.group_request (scope_of seen.now) get.now) result }
{
    seen.is_declared(&get.variable)?;
    Ok(Request::GetGroup {
        queue: get.queue.clone()?,
    })
}

fn columns_declared(seen: &Seen<'_>, columns: &Columns) -> Result<(), Fault>
    ensures { Gives (says.columns_declared (scope_of seen.now) columns.now) result }
{
    match columns {
        Columns::Assigned(assignments) => assigned_declared(seen, assignments.as_slice()),
        _ => Ok(()),
    }
}

fn assigned_declared(seen: &Seen<'_>, assignments: &[Assignment]) -> Result<(), Fault>
    ensures { Gives (scopes.all_declared (scope_of seen.now) (λ a. a.variable) assignments.now) result }
{
    for assignment in assignments {
        seen.is_declared(&assignment.variable)?;
    }
    Ok(())
}

fn filter_of(alloc: Global, seen: &Seen<'_>, filter: &Where) -> Result<Filter, Fault>
    ensures { Gives (says.filter_of (scope_of seen.now) filter.now) result }
{
    match filter {
        Where::All => Ok(Filter::All),
        Where::Conversation(expr) => Ok(Filter::Side(identifier(alloc, seen, expr)?)),
        Where::Group(expr) => Ok(Filter::Group(identifier(alloc, seen, expr)?)),
    }
}
