//! Statements.

ghost use Rattle.std.specs.Prelude.{◌≡◌, ◌≤◌, ◌<◌, ◌-◌, suc, length, IfOk, Ok, true};
ghost use Rattle.sb_parse.specs.Gives.{Gives};
ghost use Rattle.sb_parse.specs.Branches as parts;
ghost use Rattle.sb_grammar.specs.Exprs.{sum};
ghost use Rattle.sb_grammar.specs.Stops as stops;
ghost use Rattle.sb_grammar.specs.Dialogs as dialogs;
ghost use Rattle.sb_grammar.specs.Statements as spec;

use crate::condition::condition;
use crate::definition::{alter, create};
use crate::dialog::{dialog, end_rest, end_tail, move_rest, send, timer};
use crate::expr::sum;
use crate::fault::Fault;
use crate::receives::{get, receive, waitfor};
use crate::row::{declare, delete, insert, select, set, update};
use crate::value::expect;
use sb_grammar::{Barred, Begun, Condition, First, Fixed, Lexeme, Statement, is};
use sqlite_items::{Boxed, Items};
use std::alloc::{AllocError, Global};

#[tactic(auto, unfolding(sb_grammar::specs::Stops::first_barred))]
pub(crate) fn first_barred(t: &Lexeme) -> Option<Barred>
    ensures { result ≡ stops.first_barred t.now }
{
    if is(Fixed::Drop, t) {
        Some(Barred::Drop)
    } else if is(Fixed::While, t) {
        Some(Barred::While)
    } else if is(Fixed::Print, t) {
        Some(Barred::Print)
    } else if is(Fixed::Exec, t) {
        Some(Barred::Exec)
    } else if is(Fixed::Execute, t) {
        Some(Barred::Execute)
    } else if is(Fixed::Use, t) {
        Some(Barred::Use)
    } else if is(Fixed::Save, t) {
        Some(Barred::Save)
    } else {
        None
    }
}

#[tactic(auto, unfolding(sb_grammar::specs::Statements::plain_first))]
fn plain_first(in_batch: bool, t: &Lexeme) -> Option<First>
    ensures { result ≡ spec.plain_first in_batch t.now }
{
    if is(Fixed::Create, t) && in_batch {
        Some(First::Create)
    } else if is(Fixed::Alter, t) && in_batch {
        Some(First::Alter)
    } else if is(Fixed::Commit, t) && in_batch {
        Some(First::Commit)
    } else if is(Fixed::Begin, t) {
        Some(First::Begin)
    } else if is(Fixed::Rollback, t) {
        Some(First::Rollback)
    } else {
        message_first(t)
    }
}

#[tactic(auto, unfolding(sb_grammar::specs::Statements::message_first))]
fn message_first(t: &Lexeme) -> Option<First>
    ensures { result ≡ spec.message_first t.now }
{
    if is(Fixed::Send, t) {
        Some(First::Send)
    } else if is(Fixed::Waitfor, t) {
        Some(First::Waitfor)
    } else if is(Fixed::Receive, t) {
        Some(First::Receive)
    } else if is(Fixed::Get, t) {
        Some(First::Get)
    } else if is(Fixed::Move, t) {
        Some(First::Move)
    } else {
        row_first(t)
    }
}

#[tactic(auto, unfolding(sb_grammar::specs::Statements::row_first))]
fn row_first(t: &Lexeme) -> Option<First>
    ensures { result ≡ spec.row_first t.now }
{
    if is(Fixed::Insert, t) {
        Some(First::Insert)
    } else if is(Fixed::Update, t) {
        Some(First::Update)
    } else if is(Fixed::Delete, t) {
        Some(First::Delete)
    } else if is(Fixed::Select, t) {
        Some(First::Select)
    } else if is(Fixed::Declare, t) {
        Some(First::Declare)
    } else if is(Fixed::Set, t) {
        Some(First::Set)
    } else if is(Fixed::Return, t) {
        Some(First::Return)
    } else {
        None
    }
}

#[tactic(auto, unfolding(sb_grammar::specs::Statements::inner_first))]
fn inner_first(in_batch: bool, levels: u32, t: &Lexeme) -> Option<First>
    ensures { result ≡ spec.inner_first in_batch levels t.now }
{
    if levels == 0 {
        return plain_first(in_batch, t);
    }
    if is(Fixed::If, t) {
        Some(First::If)
    } else {
        plain_first(in_batch, t)
    }
}

#[tactic(auto, unfolding(sb_grammar::specs::Statements::first_of))]
pub(crate) fn first_of(in_batch: bool, levels: u32, t: &Lexeme) -> Option<First>
    ensures { result ≡ spec.first_of in_batch levels t.now }
{
    if is(Fixed::End, t) {
        Some(First::End)
    } else {
        inner_first(in_batch, levels, t)
    }
}

#[tactic(auto, unfolding(sb_grammar::specs::Statements::semicolon, sb_grammar::specs::Words::fixed_at))]
pub(crate) fn past_semicolon(tokens: &[Lexeme]) -> &[Lexeme]
    ensures value { spec.semicolon.reads tokens.now ≡ Ok (tt, result.now) }
    ensures shorter { length result.now ≤ length tokens.now }
{
    match tokens {
        [t, rest @ ..] if is(Fixed::Semicolon, t) => rest,
        _ => tokens,
    }
}

/// Past TRAN, TRANSACTION or WORK.
#[tactic(auto, unfolding(sb_grammar::specs::Stops::work_of))]
pub(crate) fn past_work(tokens: &[Lexeme]) -> &[Lexeme]
    ensures value { spec.past_work.reads tokens.now ≡ Ok (tt, result.now) }
    ensures shorter { length result.now ≤ length tokens.now }
{
    match tokens {
        [t, rest @ ..] if is(Fixed::Tran, t) => rest,
        [t, rest @ ..] if is(Fixed::Transaction, t) => rest,
        [t, rest @ ..] if is(Fixed::Work, t) => rest,
        _ => tokens,
    }
}

#[tactic(auto, unfolding(sb_grammar::specs::Statements::begun_of))]
fn begun_of(in_batch: bool, t: &Lexeme) -> Option<Begun>
    ensures { result ≡ spec.begun_of in_batch t.now }
{
    if is(Fixed::Tran, t) && in_batch {
        Some(Begun::Transaction)
    } else if is(Fixed::Transaction, t) && in_batch {
        Some(Begun::Transaction)
    } else if is(Fixed::Dialog, t) {
        Some(Begun::Dialog)
    } else if is(Fixed::Conversation, t) {
        Some(Begun::Conversation)
    } else {
        None
    }
}

#[tactic(auto, unfolding(sb_grammar::specs::Statements::try_of))]
fn try_of(t: &Lexeme) -> Option<Barred>
    ensures { result ≡ spec.try_of t.now }
{
    if is(Fixed::Try, t) {
        Some(Barred::Try)
    } else {
        None
    }
}

fn begun_by(
    alloc: Global,
    levels: u32,
    begun: Begun,
    tokens: &[Lexeme],
) -> Result<(Statement, &[Lexeme]), Fault>
    ensures value { Gives (λ x. (x.0, x.1.now)) result ((spec.begun_by (sum levels) begun).reads tokens.now) }
    ensures shorter { IfOk result (λ x. length x.1.now ≤ length tokens.now) }
{
    match begun {
        Begun::Transaction => Ok((Statement::BeginTransaction, tokens)),
        Begun::Dialog => dialog(alloc, levels, tokens),
        Begun::Conversation => timer(alloc, levels, tokens),
    }
}

/// Behind BEGIN, where no block may begin.
#[tactic(auto, unfolding(sb_grammar::specs::Statements::begin_last))]
fn begin_last(
    alloc: Global,
    in_batch: bool,
    levels: u32,
    tokens: &[Lexeme],
) -> Result<(Statement, &[Lexeme]), Fault>
    ensures value { Gives (λ x. (x.0, x.1.now)) result ((spec.begin_last in_batch (sum levels)).reads tokens.now) }
    ensures shorter { IfOk result (λ x. length x.1.now ≤ length tokens.now) }
{
    let [t, rest @ ..] = tokens else {
        return Err(Fault::Bad(0));
    };
    if let Some(word) = try_of(t) {
        return Err(Fault::Unsupported(tokens.len(), word));
    }
    match begun_of(in_batch, t) {
        Some(begun) => begun_by(alloc, levels, begun, rest),
        None => Err(Fault::Bad(tokens.len())),
    }
}

/// Behind BEGIN, with one more level than so many.
#[cycle(statement)]
#[tactic(auto, unfolding(sb_grammar::specs::Statements::rest_of, sb_grammar::specs::Statements::begin_rest))]
fn begin(
    alloc: Global,
    in_batch: bool,
    whole: u32,
    levels: u32,
    tokens: &[Lexeme],
) -> Result<(Statement, &[Lexeme]), Fault>
    requires { whole ≡ suc levels }
    ensures value { Gives (λ x. (x.0, x.1.now)) result ((spec.rest_of in_batch (suc levels) First.Begin).reads tokens.now) }
    ensures shorter { IfOk result (λ x. length x.1.now ≤ length tokens.now) }
{
    if let [t, rest @ ..] = tokens {
        if let Some(word) = try_of(t) {
            return Err(Fault::Unsupported(tokens.len(), word));
        }
        if let Some(begun) = begun_of(in_batch, t) {
            return begun_by(alloc, whole, begun, rest);
        }
    }
    let (all, rest) = block(alloc, in_batch, levels, tokens)?;
    Ok((Statement::Block(all), rest))
}

#[cycle(statement)]
#[tactic(auto, unfolding(sb_grammar::specs::Statements::block))]
fn block(
    alloc: Global,
    in_batch: bool,
    levels: u32,
    tokens: &[Lexeme],
) -> Result<(Items<Statement>, &[Lexeme]), Fault>
    ensures value { Gives (λ x. (x.0, x.1.now)) result ((spec.block_at in_batch levels).reads tokens.now) }
    ensures shorter { IfOk result (λ x. length x.1.now ≤ length tokens.now) }
{
    let (first, mut rest) = statement(alloc, in_batch, levels, tokens)?;
    let mut all = Items::new(alloc);
    all.push(first)?;
    'turns: loop {
        let (next, after) = turn(alloc, in_batch, levels, rest)?;
        rest = after;
        let Some(next) = next else {
            return Ok((all, rest));
        };
        all.push(next)?;
    }
}

/// Behind END in a block.
#[tactic(auto, unfolding(sb_grammar::specs::Statements::block_end, sb_grammar::specs::Statements::closed, sb_grammar::specs::Words::fixed_at))]
fn block_end(
    alloc: Global,
    levels: u32,
    tokens: &[Lexeme],
) -> Result<(Option<Statement>, &[Lexeme]), Fault>
    ensures value { Gives (λ x. (x.0, x.1.now)) result ((spec.block_end (dialogs.end_tail (sum levels))).reads tokens.now) }
    ensures shorter { IfOk result (λ x. length x.1.now ≤ length tokens.now) }
{
    match tokens {
        [t, more @ ..] if is(Fixed::Conversation, t) => {
            let (statement, rest) = end_tail(alloc, levels, more)?;
            Ok((Some(statement), past_semicolon(rest)))
        }
        _ => Ok((None, tokens)),
    }
}

/// One more statement of a block, or none behind its END.
#[cycle(statement)]
#[tactic(auto, unfolding(sb_grammar::specs::Statements::block_turn, sb_grammar::specs::Statements::closed))]
fn turn(
    alloc: Global,
    in_batch: bool,
    levels: u32,
    tokens: &[Lexeme],
) -> Result<(Option<Statement>, &[Lexeme]), Fault>
    ensures value { Gives (λ x. (x.0, x.1.now)) result ((spec.turn in_batch levels).reads tokens.now) }
    ensures shorter { IfOk result (λ x. length x.1.now < length tokens.now) }
{
    let [t, more @ ..] = tokens else {
        return Err(Fault::Bad(0));
    };
    if let Some(word) = first_barred(t) {
        return Err(Fault::Unsupported(tokens.len(), word));
    }
    if let Some(first) = inner_first(in_batch, levels, t) {
        let (statement, rest) = rest_of(alloc, in_batch, levels, first, more)?;
        return Ok((Some(statement), past_semicolon(rest)));
    }
    block_end(alloc, levels, expect(Fixed::End, tokens)?)
}

#[cycle(statement)]
#[tactic(auto, unfolding(sb_grammar::specs::Statements::else_part, sb_grammar::specs::Words::fixed_at))]
fn else_part(
    alloc: Global,
    in_batch: bool,
    levels: u32,
    tokens: &[Lexeme],
) -> Result<(Option<Statement>, &[Lexeme]), Fault>
    ensures value { Gives (λ x. (x.0, x.1.now)) result ((spec.else_part (spec.statement in_batch levels)).reads tokens.now) }
    ensures shorter { IfOk result (λ x. length x.1.now ≤ length tokens.now) }
{
    match tokens {
        [t, rest @ ..] if is(Fixed::Else, t) => {
            let (statement, rest) = statement(alloc, in_batch, levels, rest)?;
            Ok((Some(statement), rest))
        }
        _ => Ok((None, tokens)),
    }
}

fn branch(alloc: Global, other: Option<Statement>) -> Result<Option<Boxed<Statement>>, AllocError>
    ensures { IfOk result (λ o. o ≡ other) }
{
    Ok(match other {
        None => None,
        Some(statement) => Some(Boxed::new(alloc, statement)?),
    })
}

/// Behind the first branch of an IF.
#[cycle(statement)]
fn otherwise(
    alloc: Global,
    in_batch: bool,
    levels: u32,
    condition: Condition,
    then: Boxed<Statement>,
    tokens: &[Lexeme],
) -> Result<(Statement, &[Lexeme]), Fault>
    ensures value { Gives (λ x. (x.0, x.1.now)) result ((parts.otherwise (spec.statement in_batch levels) condition then).reads tokens.now) }
    ensures shorter { IfOk result (λ x. length x.1.now ≤ length tokens.now) }
{
    let (other, rest) = else_part(alloc, in_batch, levels, tokens)?;
    let otherwise = branch(alloc, other)?;
    let statement = Statement::If {
        condition,
        then,
        otherwise,
    };
    Ok((statement, rest))
}

/// Behind the condition of an IF.
#[cycle(statement)]
fn branches(
    alloc: Global,
    in_batch: bool,
    levels: u32,
    condition: Condition,
    tokens: &[Lexeme],
) -> Result<(Statement, &[Lexeme]), Fault>
    ensures value { Gives (λ x. (x.0, x.1.now)) result ((parts.branches (spec.statement in_batch levels) condition).reads tokens.now) }
    ensures shorter { IfOk result (λ x. length x.1.now ≤ length tokens.now) }
{
    let (then, rest) = statement(alloc, in_batch, levels, tokens)?;
    let then = Boxed::new(alloc, then)?;
    otherwise(alloc, in_batch, levels, condition, then, rest)
}

/// Behind IF, with one more level than so many.
#[cycle(statement)]
#[tactic(auto, unfolding(sb_grammar::specs::Statements::rest_of, sb_grammar::specs::Statements::if_rest))]
fn test(
    alloc: Global,
    in_batch: bool,
    levels: u32,
    tokens: &[Lexeme],
) -> Result<(Statement, &[Lexeme]), Fault>
    ensures value { Gives (λ x. (x.0, x.1.now)) result ((spec.rest_of in_batch (suc levels) First.If).reads tokens.now) }
    ensures shorter { IfOk result (λ x. length x.1.now ≤ length tokens.now) }
{
    let (condition, rest) = condition(alloc, levels, tokens)?;
    branches(alloc, in_batch, levels, condition, rest)
}

#[tactic(auto, unfolding(sb_grammar::specs::Statements::work_part))]
fn committed(tokens: &[Lexeme]) -> (Statement, &[Lexeme])
    ensures value { (spec.work_part Statement.Commit).reads tokens.now ≡ Ok (result.0, result.1.now) }
    ensures shorter { length result.1.now ≤ length tokens.now }
{
    (Statement::Commit, past_work(tokens))
}

#[tactic(auto, unfolding(sb_grammar::specs::Statements::work_part))]
fn rolled_back(tokens: &[Lexeme]) -> (Statement, &[Lexeme])
    ensures value { (spec.work_part Statement.Rollback).reads tokens.now ≡ Ok (result.0, result.1.now) }
    ensures shorter { length result.1.now ≤ length tokens.now }
{
    (Statement::Rollback, past_work(tokens))
}

fn received(alloc: Global, levels: u32, tokens: &[Lexeme]) -> Result<(Statement, &[Lexeme]), Fault>
    ensures value { Gives (λ x. (x.0, x.1.now)) result ((spec.received (sum levels)).reads tokens.now) }
    ensures shorter { IfOk result (λ x. length x.1.now ≤ length tokens.now) }
{
    let (receive, rest) = receive(alloc, levels, tokens)?;
    Ok((Statement::Receive(receive), rest))
}

fn group(alloc: Global, tokens: &[Lexeme]) -> Result<(Statement, &[Lexeme]), Fault>
    ensures value { Gives (λ x. (x.0, x.1.now)) result (spec.group.reads tokens.now) }
    ensures shorter { IfOk result (λ x. length x.1.now ≤ length tokens.now) }
{
    let (group, rest) = get(alloc, tokens)?;
    Ok((Statement::GetGroup(group), rest))
}

/// Behind BEGIN with no level left; no IF begins there.
#[tactic(auto, unfolding(sb_grammar::specs::Statements::rest_of))]
fn last(
    alloc: Global,
    in_batch: bool,
    first: First,
    tokens: &[Lexeme],
) -> Result<(Statement, &[Lexeme]), Fault>
    requires { spec.is_nesting first ≡ true }
    ensures value { Gives (λ x. (x.0, x.1.now)) result ((spec.rest_of in_batch 0 first).reads tokens.now) }
    ensures shorter { IfOk result (λ x. length x.1.now ≤ length tokens.now) }
{
    match first {
        First::Begin => begin_last(alloc, in_batch, 0, tokens),
        First::If => begin_last(alloc, in_batch, 0, tokens),
        _ => unreachable!(),
    }
}

/// Behind the first word, with so many levels left.
#[cycle(statement)]
#[tactic(auto, unfolding(sb_grammar::specs::Statements::rest_of))]
pub(crate) fn rest_of(
    alloc: Global,
    in_batch: bool,
    levels: u32,
    first: First,
    tokens: &[Lexeme],
) -> Result<(Statement, &[Lexeme]), Fault>
    ensures value { Gives (λ x. (x.0, x.1.now)) result ((spec.rest_of in_batch levels first).reads tokens.now) }
    ensures shorter { IfOk result (λ x. length x.1.now ≤ length tokens.now) }
{
    match first {
        First::Create => create(alloc, tokens),
        First::Alter => alter(alloc, tokens),
        First::Commit => Ok(committed(tokens)),
        First::Rollback => Ok(rolled_back(tokens)),
        First::Send => send(alloc, levels, tokens),
        First::Waitfor => waitfor(alloc, levels, tokens),
        First::Receive => received(alloc, levels, tokens),
        First::Get => group(alloc, tokens),
        First::Move => move_rest(alloc, levels, tokens),
        First::End => end_rest(alloc, levels, tokens),
        First::Insert => insert(alloc, levels, tokens),
        First::Update => update(alloc, levels, tokens),
        First::Delete => delete(alloc, levels, tokens),
        First::Select => select(alloc, levels, tokens),
        First::Declare => declare(alloc, levels, tokens),
        First::Set => set(alloc, levels, tokens),
        First::Return => Ok((Statement::Return, tokens)),
        First::Begin | First::If if levels == 0 => last(alloc, in_batch, first, tokens),
        First::Begin => begin(alloc, in_batch, levels, levels - 1, tokens),
        First::If => test(alloc, in_batch, levels - 1, tokens),
    }
}

/// With so many levels left.
#[cycle(statement)]
#[tactic(auto, unfolding(sb_grammar::specs::Statements::statement_of, sb_grammar::specs::Statements::closed))]
pub(crate) fn statement(
    alloc: Global,
    in_batch: bool,
    levels: u32,
    tokens: &[Lexeme],
) -> Result<(Statement, &[Lexeme]), Fault>
    ensures value { Gives (λ x. (x.0, x.1.now)) result ((spec.statement in_batch levels).reads tokens.now) }
    ensures shorter { IfOk result (λ x. length x.1.now ≤ length tokens.now) }
{
    let [t, rest @ ..] = tokens else {
        return Err(Fault::Bad(0));
    };
    if let Some(word) = first_barred(t) {
        return Err(Fault::Unsupported(tokens.len(), word));
    }
    let Some(first) = first_of(in_batch, levels, t) else {
        return Err(Fault::Bad(tokens.len()));
    };
    let (statement, rest) = rest_of(alloc, in_batch, levels, first, rest)?;
    Ok((statement, past_semicolon(rest)))
}
