//! RECEIVE, GET CONVERSATION GROUP and WAITFOR, behind their first words.

ghost use Rattle.std.specs.Prelude.{◌≡◌, ◌≤◌, ◌<◌, ◌-◌, length, IfOk, Ok};
ghost use Rattle.sb_parse.specs.Gives.{Gives};
ghost use Rattle.sb_grammar.specs.Exprs.{sum};
ghost use Rattle.sb_grammar.specs.Definitions as definitions;
ghost use Rattle.sb_grammar.specs.Stops as stops;
ghost use Rattle.sb_grammar.specs.Dialogs as spec;

use crate::expr::sum;
use crate::fault::Fault;
use crate::value::{behind, expect, kind, phrase, qname, variable, variable_of};
use sb_grammar::{
    Assignment, Barred, Column, Columns, Expr, Filter, Fixed, GetGroup, Lexeme, Receive, Statement,
    Waited, is,
};
use sb_log::Text;
use sqlite_items::Items;
use std::alloc::Global;

#[tactic(auto, unfolding(sb_grammar::specs::Dialogs::top_part, sb_grammar::specs::Words::fixed_at))]
fn top_part(
    alloc: Global,
    levels: u32,
    tokens: &[Lexeme],
) -> Result<(Option<Expr>, &[Lexeme]), Fault>
    ensures value { Gives (λ x. (x.0, x.1.now)) result ((spec.top_part (sum levels)).reads tokens.now) }
    ensures shorter { IfOk result (λ x. length x.1.now ≤ length tokens.now) }
{
    match tokens {
        [t, rest @ ..] if is(Fixed::Top, t) => {
            let (top, rest) = sum(alloc, levels, expect(Fixed::Open, rest)?)?;
            Ok((Some(top), expect(Fixed::Close, rest)?))
        }
        _ => Ok((None, tokens)),
    }
}

#[tactic(auto, unfolding(sb_grammar::specs::Dialogs::column_of))]
fn column_of(t: &Lexeme) -> Option<Column>
    ensures { result ≡ spec.column_of t.now }
{
    if is(Fixed::ConversationHandle, t) {
        Some(Column::Handle)
    } else if is(Fixed::ConversationGroupId, t) {
        Some(Column::Group)
    } else if is(Fixed::MessageTypeName, t) {
        Some(Column::TypeName)
    } else if is(Fixed::MessageSequenceNumber, t) {
        Some(Column::Sequence)
    } else if is(Fixed::MessageBody, t) {
        Some(Column::Body)
    } else {
        None
    }
}

fn plain_column(tokens: &[Lexeme]) -> Result<(Column, &[Lexeme]), Fault>
    ensures value { Gives (λ x. (x.0, x.1.now)) result (spec.plain_column.reads tokens.now) }
    ensures shorter { IfOk result (λ x. length x.1.now ≤ length tokens.now) }
{
    match tokens {
        [] => Err(Fault::Bad(0)),
        [t, rest @ ..] => match column_of(t) {
            Some(value) => Ok((value, rest)),
            None => Err(Fault::Bad(tokens.len())),
        },
    }
}

#[tactic(auto, unfolding(sb_grammar::specs::Dialogs::column, sb_grammar::specs::Words::fixed_at))]
fn column(tokens: &[Lexeme]) -> Result<(Column, &[Lexeme]), Fault>
    ensures value { Gives (λ x. (x.0, x.1.now)) result (spec.column.reads tokens.now) }
    ensures shorter { IfOk result (λ x. length x.1.now ≤ length tokens.now) }
{
    match tokens {
        [t, rest @ ..] if is(Fixed::Cast, t) => {
            let rest = phrase(&[Fixed::Open, Fixed::MessageBody, Fixed::As], rest)?;
            let (kind, rest) = kind(rest)?;
            Ok((Column::CastBody(kind), expect(Fixed::Close, rest)?))
        }
        _ => plain_column(tokens),
    }
}

/// Behind the variable of an assignment.
#[tactic(auto, unfolding(sb_grammar::specs::Dialogs::assignment_rest))]
fn assignment_rest(variable: Text, tokens: &[Lexeme]) -> Result<(Assignment, &[Lexeme]), Fault>
    ensures value { Gives (λ x. (x.0, x.1.now)) result ((spec.assignment_rest variable).reads tokens.now) }
    ensures shorter { IfOk result (λ x. length x.1.now ≤ length tokens.now) }
{
    let (column, rest) = column(expect(Fixed::Equals, tokens)?)?;
    Ok((Assignment { variable, column }, rest))
}

#[tactic(auto, unfolding(sb_grammar::specs::Dialogs::assignment))]
fn assignment(alloc: Global, tokens: &[Lexeme]) -> Result<(Assignment, &[Lexeme]), Fault>
    ensures value { Gives (λ x. (x.0, x.1.now)) result (spec.assignment.reads tokens.now) }
    ensures shorter { IfOk result (λ x. length x.1.now ≤ length tokens.now) }
{
    let (variable, rest) = variable(alloc, tokens)?;
    assignment_rest(variable, rest)
}

/// All assignments, where the first variable is read.
#[tactic(auto, unfolding(sb_grammar::specs::Dialogs::assignments))]
fn assignments(
    alloc: Global,
    variable: Text,
    tokens: &[Lexeme],
) -> Result<(Items<Assignment>, &[Lexeme]), Fault>
    ensures value { Gives (λ x. (x.0, x.1.now)) result ((spec.assignments variable).reads tokens.now) }
    ensures shorter { IfOk result (λ x. length x.1.now ≤ length tokens.now) }
{
    let (first, mut rest) = assignment_rest(variable, tokens)?;
    let mut all = Items::new(alloc);
    all.push(first)?;
    'members: while let Some(more) = behind(Fixed::Comma, rest) {
        let (next, after) = assignment(alloc, more)?;
        all.push(next)?;
        rest = after;
    }
    Ok((all, rest))
}

#[tactic(auto, unfolding(sb_grammar::specs::Definitions::commas))]
fn named_columns(alloc: Global, tokens: &[Lexeme]) -> Result<(Items<Column>, &[Lexeme]), Fault>
    ensures value { Gives (λ x. (x.0, x.1.now)) result ((definitions.commas spec.column).reads tokens.now) }
    ensures shorter { IfOk result (λ x. length x.1.now ≤ length tokens.now) }
{
    let (first, mut rest) = column(tokens)?;
    let mut all = Items::new(alloc);
    all.push(first)?;
    'members: while let Some(more) = behind(Fixed::Comma, rest) {
        let (next, after) = column(more)?;
        all.push(next)?;
        rest = after;
    }
    Ok((all, rest))
}

#[tactic(auto, unfolding(sb_grammar::specs::Dialogs::columns, sb_grammar::specs::Words::fixed_at, sb_grammar::specs::Definitions::commas, sb_grammar::specs::Dialogs::column))]
fn columns(alloc: Global, tokens: &[Lexeme]) -> Result<(Columns, &[Lexeme]), Fault>
    ensures value { Gives (λ x. (x.0, x.1.now)) result (spec.columns.reads tokens.now) }
    ensures shorter { IfOk result (λ x. length x.1.now ≤ length tokens.now) }
{
    let [t, rest @ ..] = tokens else {
        return Err(Fault::Bad(0));
    };
    if is(Fixed::Star, t) {
        return Ok((Columns::All, rest));
    }
    if let Some(variable) = variable_of(alloc, t)? {
        let (all, rest) = assignments(alloc, variable, rest)?;
        return Ok((Columns::Assigned(all), rest));
    }
    let (all, rest) = named_columns(alloc, tokens)?;
    Ok((Columns::Named(all), rest))
}

#[tactic(auto, unfolding(sb_grammar::specs::Dialogs::filter_of))]
fn filter_of(t: &Lexeme) -> Option<bool>
    ensures { result ≡ spec.filter_of t.now }
{
    if is(Fixed::ConversationHandle, t) {
        Some(false)
    } else if is(Fixed::ConversationGroupId, t) {
        Some(true)
    } else {
        None
    }
}

fn filter_by(
    alloc: Global,
    levels: u32,
    is_group: bool,
    tokens: &[Lexeme],
) -> Result<(Filter, &[Lexeme]), Fault>
    ensures value { Gives (λ x. (x.0, x.1.now)) result ((spec.filter_by (sum levels) is_group).reads tokens.now) }
    ensures shorter { IfOk result (λ x. length x.1.now ≤ length tokens.now) }
{
    let (value, rest) = sum(alloc, levels, expect(Fixed::Equals, tokens)?)?;
    if is_group {
        Ok((Filter::Group(value), rest))
    } else {
        Ok((Filter::Conversation(value), rest))
    }
}

fn filter(alloc: Global, levels: u32, tokens: &[Lexeme]) -> Result<(Filter, &[Lexeme]), Fault>
    ensures value { Gives (λ x. (x.0, x.1.now)) result ((spec.filter (sum levels)).reads tokens.now) }
    ensures shorter { IfOk result (λ x. length x.1.now ≤ length tokens.now) }
{
    let [t, rest @ ..] = tokens else {
        return Err(Fault::Bad(0));
    };
    match filter_of(t) {
        Some(is_group) => filter_by(alloc, levels, is_group, rest),
        None => Err(Fault::Bad(tokens.len())),
    }
}

#[tactic(auto, unfolding(sb_grammar::specs::Stops::into_of))]
fn into_of(t: &Lexeme) -> Option<Barred>
    ensures { result ≡ stops.into_of t.now }
{
    if is(Fixed::Into, t) {
        Some(Barred::Into)
    } else {
        None
    }
}

#[tactic(auto, unfolding(sb_grammar::specs::Dialogs::filter_part, sb_grammar::specs::Words::fixed_at))]
fn filter_part(alloc: Global, levels: u32, tokens: &[Lexeme]) -> Result<(Filter, &[Lexeme]), Fault>
    ensures value { Gives (λ x. (x.0, x.1.now)) result ((spec.filter_part (sum levels)).reads tokens.now) }
    ensures shorter { IfOk result (λ x. length x.1.now ≤ length tokens.now) }
{
    let [t, rest @ ..] = tokens else {
        return Ok((Filter::All, tokens));
    };
    if let Some(word) = into_of(t) {
        return Err(Fault::Unsupported(tokens.len(), word));
    }
    if is(Fixed::Where, t) {
        return filter(alloc, levels, rest);
    }
    Ok((Filter::All, tokens))
}

/// Behind RECEIVE.
#[tactic(auto, unfolding(sb_grammar::specs::Dialogs::receive_rest))]
pub(crate) fn receive(
    alloc: Global,
    levels: u32,
    tokens: &[Lexeme],
) -> Result<(Receive, &[Lexeme]), Fault>
    ensures value { Gives (λ x. (x.0, x.1.now)) result ((spec.receive_rest (sum levels)).reads tokens.now) }
    ensures shorter { IfOk result (λ x. length x.1.now ≤ length tokens.now) }
{
    let (top, rest) = top_part(alloc, levels, tokens)?;
    let (columns, rest) = columns(alloc, rest)?;
    let (queue, rest) = qname(alloc, expect(Fixed::From, rest)?)?;
    let (filter, rest) = filter_part(alloc, levels, rest)?;
    let receive = Receive {
        top,
        columns,
        queue,
        filter,
    };
    Ok((receive, rest))
}

/// Behind GET.
#[tactic(auto, unfolding(sb_grammar::specs::Dialogs::get_rest))]
pub(crate) fn get(alloc: Global, tokens: &[Lexeme]) -> Result<(GetGroup, &[Lexeme]), Fault>
    ensures value { Gives (λ x. (x.0, x.1.now)) result (spec.get_rest.reads tokens.now) }
    ensures shorter { IfOk result (λ x. length x.1.now ≤ length tokens.now) }
{
    let rest = phrase(&[Fixed::Conversation, Fixed::Group], tokens)?;
    let (variable, rest) = variable(alloc, rest)?;
    let (queue, rest) = qname(alloc, expect(Fixed::From, rest)?)?;
    Ok((GetGroup { variable, queue }, rest))
}

#[tactic(auto, unfolding(sb_grammar::specs::Dialogs::waited_of))]
fn waited_of(t: &Lexeme) -> Option<bool>
    ensures { result ≡ spec.waited_of t.now }
{
    if is(Fixed::Receive, t) {
        Some(false)
    } else if is(Fixed::Get, t) {
        Some(true)
    } else {
        None
    }
}

fn waited_by(
    alloc: Global,
    levels: u32,
    is_group: bool,
    tokens: &[Lexeme],
) -> Result<(Waited, &[Lexeme]), Fault>
    ensures value { Gives (λ x. (x.0, x.1.now)) result ((spec.waited_by (sum levels) is_group).reads tokens.now) }
    ensures shorter { IfOk result (λ x. length x.1.now ≤ length tokens.now) }
{
    if is_group {
        let (group, rest) = get(alloc, tokens)?;
        Ok((Waited::GetGroup(group), rest))
    } else {
        let (receive, rest) = receive(alloc, levels, tokens)?;
        Ok((Waited::Receive(receive), rest))
    }
}

fn waited(alloc: Global, levels: u32, tokens: &[Lexeme]) -> Result<(Waited, &[Lexeme]), Fault>
    ensures value { Gives (λ x. (x.0, x.1.now)) result ((spec.waited (sum levels)).reads tokens.now) }
    ensures shorter { IfOk result (λ x. length x.1.now ≤ length tokens.now) }
{
    let [t, rest @ ..] = tokens else {
        return Err(Fault::Bad(0));
    };
    match waited_of(t) {
        Some(is_group) => waited_by(alloc, levels, is_group, rest),
        None => Err(Fault::Bad(tokens.len())),
    }
}

#[tactic(auto, unfolding(sb_grammar::specs::Dialogs::timeout_part, sb_grammar::specs::Words::fixed_at))]
fn timeout_part(
    alloc: Global,
    levels: u32,
    tokens: &[Lexeme],
) -> Result<(Option<Expr>, &[Lexeme]), Fault>
    ensures value { Gives (λ x. (x.0, x.1.now)) result ((spec.timeout_part (sum levels)).reads tokens.now) }
    ensures shorter { IfOk result (λ x. length x.1.now ≤ length tokens.now) }
{
    match tokens {
        [t, rest @ ..] if is(Fixed::Comma, t) => {
            let (timeout, rest) = sum(alloc, levels, expect(Fixed::Timeout, rest)?)?;
            Ok((Some(timeout), rest))
        }
        _ => Ok((None, tokens)),
    }
}

/// Behind WAITFOR.
#[tactic(auto, unfolding(sb_grammar::specs::Dialogs::waitfor_rest))]
pub(crate) fn waitfor(
    alloc: Global,
    levels: u32,
    tokens: &[Lexeme],
) -> Result<(Statement, &[Lexeme]), Fault>
    ensures value { Gives (λ x. (x.0, x.1.now)) result ((spec.waitfor_rest (sum levels)).reads tokens.now) }
    ensures shorter { IfOk result (λ x. length x.1.now ≤ length tokens.now) }
{
    let (waited, rest) = waited(alloc, levels, expect(Fixed::Open, tokens)?)?;
    let (timeout, rest) = timeout_part(alloc, levels, expect(Fixed::Close, rest)?)?;
    Ok((Statement::Waitfor { waited, timeout }, rest))
}
