//! Statements on rows and variables, behind their first words.

ghost use Rattle.std.specs.Prelude.{◌≡◌, ◌≤◌, ◌<◌, ◌-◌, suc, length, IfOk, Ok};
ghost use Rattle.sb_parse.specs.Gives.{Gives};
ghost use Rattle.sb_grammar.specs.Exprs.{sum};
ghost use Rattle.sb_grammar.specs.Options.{one, more, options};
ghost use Rattle.sb_grammar.specs.Definitions as definitions;
ghost use Rattle.sb_grammar.specs.RowStatements as spec;

use crate::expr::{sign_of, sum};
use crate::fault::Fault;
use crate::value::{behind, expect, kind, on_off, phrase, qname, variable};
use sb_grammar::{
    Change, ChangeWord, Changes, Declaration, Expr, Fixed, Lexeme, RowColumn, Selected, Sign,
    Statement, is,
};
use sb_log::Name;
use sqlite_items::Items;
use std::alloc::Global;

/// Past a word that may stand there.
#[tactic(auto, unfolding(sb_grammar::specs::Words::fixed_at))]
fn past(word: Fixed, tokens: &[Lexeme]) -> &[Lexeme]
    ensures value { (spec.past word).reads tokens.now ≡ Ok (tt, result.now) }
    ensures shorter { length result.now ≤ length tokens.now }
{
    match tokens {
        [t, rest @ ..] if is(word, t) => rest,
        _ => tokens,
    }
}

#[tactic(auto, unfolding(sb_grammar::specs::RowStatements::insert_values))]
fn insert_values(
    alloc: Global,
    levels: u32,
    table: Name,
    tokens: &[Lexeme],
) -> Result<(Statement, &[Lexeme]), Fault>
    ensures value { Gives (λ x. (x.0, x.1.now)) result ((spec.insert_values (sum levels) table).reads tokens.now) }
    ensures shorter { IfOk result (λ x. length x.1.now ≤ length tokens.now) }
{
    let (id, rest) = sum(alloc, levels, tokens)?;
    let (n, rest) = sum(alloc, levels, expect(Fixed::Comma, rest)?)?;
    let (body, rest) = sum(alloc, levels, expect(Fixed::Comma, rest)?)?;
    let rest = expect(Fixed::Close, rest)?;
    Ok((Statement::Insert { table, id, n, body }, rest))
}

/// Behind INSERT.
#[tactic(auto, unfolding(sb_grammar::specs::RowStatements::insert_rest))]
pub(crate) fn insert(
    alloc: Global,
    levels: u32,
    tokens: &[Lexeme],
) -> Result<(Statement, &[Lexeme]), Fault>
    ensures value { Gives (λ x. (x.0, x.1.now)) result ((spec.insert_rest (sum levels)).reads tokens.now) }
    ensures shorter { IfOk result (λ x. length x.1.now ≤ length tokens.now) }
{
    let (table, rest) = qname(alloc, past(Fixed::Into, tokens))?;
    let columns = [
        Fixed::Open,
        Fixed::Id,
        Fixed::Comma,
        Fixed::N,
        Fixed::Comma,
        Fixed::Body,
        Fixed::Close,
        Fixed::Values,
        Fixed::Open,
    ];
    insert_values(alloc, levels, table, phrase(&columns, rest)?)
}

#[tactic(auto, unfolding(sb_grammar::specs::RowStatements::change_take))]
fn change_take(written: &Changes, t: &Lexeme) -> Option<ChangeWord>
    ensures { result ≡ (spec.change_choices (sum 0)).take written.now t.now }
{
    if is(Fixed::N, t) && !written.has_number {
        Some(ChangeWord::Number)
    } else if is(Fixed::Body, t) && !written.has_body {
        Some(ChangeWord::Body)
    } else {
        None
    }
}

fn change_next(written: &Changes) -> Option<ChangeWord>
    ensures { result ≡ (spec.change_choices (sum 0)).next written.now }
{
    if !written.has_number {
        Some(ChangeWord::Number)
    } else if !written.has_body {
        Some(ChangeWord::Body)
    } else {
        None
    }
}

fn signed_change(
    alloc: Global,
    levels: u32,
    sign: Sign,
    tokens: &[Lexeme],
) -> Result<(Change, &[Lexeme]), Fault>
    ensures value { Gives (λ x. (x.0, x.1.now)) result ((spec.signed_by (sum levels) sign).reads tokens.now) }
    ensures shorter { IfOk result (λ x. length x.1.now ≤ length tokens.now) }
{
    let (value, rest) = sum(alloc, levels, tokens)?;
    match sign {
        Sign::Plus => Ok((Change::Add(value), rest)),
        Sign::Minus => Ok((Change::Subtract(value), rest)),
    }
}

fn signed(alloc: Global, levels: u32, tokens: &[Lexeme]) -> Result<(Change, &[Lexeme]), Fault>
    ensures value { Gives (λ x. (x.0, x.1.now)) result ((spec.signed (sum levels)).reads tokens.now) }
    ensures shorter { IfOk result (λ x. length x.1.now ≤ length tokens.now) }
{
    let [t, rest @ ..] = tokens else {
        return Err(Fault::Bad(0));
    };
    match sign_of(t) {
        Some(sign) => signed_change(alloc, levels, sign, rest),
        None => Err(Fault::Bad(tokens.len())),
    }
}

#[tactic(auto, unfolding(sb_grammar::specs::RowStatements::number_change, sb_grammar::specs::Words::fixed_at))]
fn number_change(
    alloc: Global,
    levels: u32,
    tokens: &[Lexeme],
) -> Result<(Change, &[Lexeme]), Fault>
    ensures value { Gives (λ x. (x.0, x.1.now)) result ((spec.number_change (sum levels)).reads tokens.now) }
    ensures shorter { IfOk result (λ x. length x.1.now ≤ length tokens.now) }
{
    match tokens {
        [t, rest @ ..] if is(Fixed::N, t) => signed(alloc, levels, rest),
        _ => {
            let (value, rest) = sum(alloc, levels, tokens)?;
            Ok((Change::Number(value), rest))
        }
    }
}

#[tactic(auto, unfolding(sb_grammar::specs::RowStatements::change_value))]
fn change_value(
    alloc: Global,
    levels: u32,
    mut written: Changes,
    option: ChangeWord,
    tokens: &[Lexeme],
) -> Result<(Changes, &[Lexeme]), Fault>
    ensures value { Gives (λ x. (x.0, x.1.now)) result ((spec.change_value (sum levels) written option).reads tokens.now) }
    ensures shorter { IfOk result (λ x. length x.1.now ≤ length tokens.now) }
{
    let rest = expect(Fixed::Equals, tokens)?;
    match option {
        ChangeWord::Number => {
            let (change, rest) = number_change(alloc, levels, rest)?;
            written.changes.push(change)?;
            written.has_number = true;
            Ok((written, rest))
        }
        ChangeWord::Body => {
            let (body, rest) = sum(alloc, levels, rest)?;
            written.changes.push(Change::Body(body))?;
            written.has_body = true;
            Ok((written, rest))
        }
    }
}

/// One more option.
#[tactic(auto, unfolding(sb_grammar::specs::Options::one))]
fn change_one(
    alloc: Global,
    levels: u32,
    written: Changes,
    tokens: &[Lexeme],
) -> Result<(Changes, &[Lexeme]), Fault>
    ensures value { Gives (λ x. (x.0, x.1.now)) result ((one (spec.change_choices (sum levels)) ChangeWord.Number written).reads tokens.now) }
    ensures shorter { IfOk result (λ x. length x.1.now ≤ length tokens.now) }
{
    let [t, rest @ ..] = tokens else {
        return Err(Fault::Bad(0));
    };
    let Some(option) = change_take(&written, t) else {
        return Err(Fault::Bad(tokens.len()));
    };
    change_value(alloc, levels, written, option, rest)
}

/// The other options, one more than so many at most.
#[cycle(change)]
#[tactic(auto, unfolding(sb_grammar::specs::Options::more, sb_grammar::specs::Options::one, sb_grammar::specs::Words::fixed_at))]
fn change_another(
    alloc: Global,
    levels: u32,
    left: u32,
    written: Changes,
    tokens: &[Lexeme],
) -> Result<(Changes, &[Lexeme]), Fault>
    ensures value { Gives (λ x. (x.0, x.1.now)) result ((more (spec.change_choices (sum levels)) (suc left) written).reads tokens.now) }
    ensures shorter { IfOk result (λ x. length x.1.now ≤ length tokens.now) }
{
    let Some(_next) = change_next(&written) else {
        return Ok((written, tokens));
    };
    match tokens {
        [t, rest @ ..] if is(Fixed::Comma, t) => {
            let (written, rest) = change_one(alloc, levels, written, rest)?;
            change_more(alloc, levels, left, written, rest)
        }
        _ => Ok((written, tokens)),
    }
}

/// The other options, so many at most.
#[cycle(change)]
#[tactic(auto, unfolding(sb_grammar::specs::Options::more))]
fn change_more(
    alloc: Global,
    levels: u32,
    left: u32,
    written: Changes,
    tokens: &[Lexeme],
) -> Result<(Changes, &[Lexeme]), Fault>
    ensures value { Gives (λ x. (x.0, x.1.now)) result ((more (spec.change_choices (sum levels)) left written).reads tokens.now) }
    ensures shorter { IfOk result (λ x. length x.1.now ≤ length tokens.now) }
{
    if left == 0 {
        return Ok((written, tokens));
    }
    change_another(alloc, levels, left - 1, written, tokens)
}

#[tactic(auto, unfolding(sb_grammar::specs::Options::options))]
fn changes(alloc: Global, levels: u32, tokens: &[Lexeme]) -> Result<(Changes, &[Lexeme]), Fault>
    ensures value { Gives (λ x. (x.0, x.1.now)) result ((spec.changes (sum levels)).reads tokens.now) }
    ensures shorter { IfOk result (λ x. length x.1.now ≤ length tokens.now) }
{
    let none = Changes {
        changes: Items::new(alloc),
        has_number: false,
        has_body: false,
    };
    let (written, rest) = change_one(alloc, levels, none, tokens)?;
    change_more(alloc, levels, 1, written, rest)
}

/// The key of a row.
fn key(alloc: Global, levels: u32, tokens: &[Lexeme]) -> Result<(Expr, &[Lexeme]), Fault>
    ensures value { Gives (λ x. (x.0, x.1.now)) result ((spec.key (sum levels)).reads tokens.now) }
    ensures shorter { IfOk result (λ x. length x.1.now ≤ length tokens.now) }
{
    let rest = phrase(&[Fixed::Where, Fixed::Id, Fixed::Equals], tokens)?;
    sum(alloc, levels, rest)
}

/// Behind UPDATE.
#[tactic(auto, unfolding(sb_grammar::specs::RowStatements::update_rest))]
pub(crate) fn update(
    alloc: Global,
    levels: u32,
    tokens: &[Lexeme],
) -> Result<(Statement, &[Lexeme]), Fault>
    ensures value { Gives (λ x. (x.0, x.1.now)) result ((spec.update_rest (sum levels)).reads tokens.now) }
    ensures shorter { IfOk result (λ x. length x.1.now ≤ length tokens.now) }
{
    let (table, rest) = qname(alloc, tokens)?;
    let (written, rest) = changes(alloc, levels, expect(Fixed::Set, rest)?)?;
    let Changes {
        changes,
        has_number: _,
        has_body: _,
    } = written;
    let (id, rest) = key(alloc, levels, rest)?;
    Ok((Statement::Update { table, changes, id }, rest))
}

/// Behind DELETE.
#[tactic(auto, unfolding(sb_grammar::specs::RowStatements::delete_rest))]
pub(crate) fn delete(
    alloc: Global,
    levels: u32,
    tokens: &[Lexeme],
) -> Result<(Statement, &[Lexeme]), Fault>
    ensures value { Gives (λ x. (x.0, x.1.now)) result ((spec.delete_rest (sum levels)).reads tokens.now) }
    ensures shorter { IfOk result (λ x. length x.1.now ≤ length tokens.now) }
{
    let (table, rest) = qname(alloc, past(Fixed::From, tokens))?;
    let (id, rest) = key(alloc, levels, rest)?;
    Ok((Statement::Delete { table, id }, rest))
}

#[tactic(auto, unfolding(sb_grammar::specs::RowStatements::row_column_of))]
fn row_column_of(t: &Lexeme) -> Option<RowColumn>
    ensures { result ≡ spec.row_column_of t.now }
{
    if is(Fixed::N, t) {
        Some(RowColumn::Number)
    } else if is(Fixed::Body, t) {
        Some(RowColumn::Body)
    } else {
        None
    }
}

fn row_column(tokens: &[Lexeme]) -> Result<(RowColumn, &[Lexeme]), Fault>
    ensures value { Gives (λ x. (x.0, x.1.now)) result (spec.row_column.reads tokens.now) }
    ensures shorter { IfOk result (λ x. length x.1.now ≤ length tokens.now) }
{
    match tokens {
        [] => Err(Fault::Bad(0)),
        [t, rest @ ..] => match row_column_of(t) {
            Some(value) => Ok((value, rest)),
            None => Err(Fault::Bad(tokens.len())),
        },
    }
}

#[tactic(auto, unfolding(sb_grammar::specs::RowStatements::selected))]
fn selected(alloc: Global, tokens: &[Lexeme]) -> Result<(Selected, &[Lexeme]), Fault>
    ensures value { Gives (λ x. (x.0, x.1.now)) result (spec.selected.reads tokens.now) }
    ensures shorter { IfOk result (λ x. length x.1.now ≤ length tokens.now) }
{
    let (variable, rest) = variable(alloc, tokens)?;
    let (column, rest) = row_column(expect(Fixed::Equals, rest)?)?;
    Ok((Selected { variable, column }, rest))
}

#[tactic(auto, unfolding(sb_grammar::specs::Definitions::commas))]
fn selection(alloc: Global, tokens: &[Lexeme]) -> Result<(Items<Selected>, &[Lexeme]), Fault>
    ensures value { Gives (λ x. (x.0, x.1.now)) result ((definitions.commas spec.selected).reads tokens.now) }
    ensures shorter { IfOk result (λ x. length x.1.now ≤ length tokens.now) }
{
    let (first, mut rest) = selected(alloc, tokens)?;
    let mut all = Items::new(alloc);
    all.push(first)?;
    'members: while let Some(more) = behind(Fixed::Comma, rest) {
        let (next, after) = selected(alloc, more)?;
        all.push(next)?;
        rest = after;
    }
    Ok((all, rest))
}

/// Behind SELECT.
#[tactic(auto, unfolding(sb_grammar::specs::RowStatements::select_rest))]
pub(crate) fn select(
    alloc: Global,
    levels: u32,
    tokens: &[Lexeme],
) -> Result<(Statement, &[Lexeme]), Fault>
    ensures value { Gives (λ x. (x.0, x.1.now)) result ((spec.select_rest (sum levels)).reads tokens.now) }
    ensures shorter { IfOk result (λ x. length x.1.now ≤ length tokens.now) }
{
    let (selected, rest) = selection(alloc, tokens)?;
    let (table, rest) = qname(alloc, expect(Fixed::From, rest)?)?;
    let (id, rest) = key(alloc, levels, rest)?;
    let statement = Statement::Select {
        selected,
        table,
        id,
    };
    Ok((statement, rest))
}

#[tactic(auto, unfolding(sb_grammar::specs::RowStatements::initial_part, sb_grammar::specs::Words::fixed_at))]
fn initial_part(
    alloc: Global,
    levels: u32,
    tokens: &[Lexeme],
) -> Result<(Option<Expr>, &[Lexeme]), Fault>
    ensures value { Gives (λ x. (x.0, x.1.now)) result ((spec.initial_part (sum levels)).reads tokens.now) }
    ensures shorter { IfOk result (λ x. length x.1.now ≤ length tokens.now) }
{
    match tokens {
        [t, rest @ ..] if is(Fixed::Equals, t) => {
            let (value, rest) = sum(alloc, levels, rest)?;
            Ok((Some(value), rest))
        }
        _ => Ok((None, tokens)),
    }
}

#[tactic(auto, unfolding(sb_grammar::specs::RowStatements::declaration))]
fn declaration(
    alloc: Global,
    levels: u32,
    tokens: &[Lexeme],
) -> Result<(Declaration, &[Lexeme]), Fault>
    ensures value { Gives (λ x. (x.0, x.1.now)) result ((spec.declaration (sum levels)).reads tokens.now) }
    ensures shorter { IfOk result (λ x. length x.1.now ≤ length tokens.now) }
{
    let (variable, rest) = variable(alloc, tokens)?;
    let (kind, rest) = kind(past(Fixed::As, rest))?;
    let (value, rest) = initial_part(alloc, levels, rest)?;
    let declaration = Declaration {
        variable,
        kind,
        value,
    };
    Ok((declaration, rest))
}

#[tactic(auto, unfolding(sb_grammar::specs::Definitions::commas))]
fn declarations(
    alloc: Global,
    levels: u32,
    tokens: &[Lexeme],
) -> Result<(Items<Declaration>, &[Lexeme]), Fault>
    ensures value { Gives (λ x. (x.0, x.1.now)) result ((definitions.commas (spec.declaration (sum levels))).reads tokens.now) }
    ensures shorter { IfOk result (λ x. length x.1.now ≤ length tokens.now) }
{
    let (first, mut rest) = declaration(alloc, levels, tokens)?;
    let mut all = Items::new(alloc);
    all.push(first)?;
    'members: while let Some(more) = behind(Fixed::Comma, rest) {
        let (next, after) = declaration(alloc, levels, more)?;
        all.push(next)?;
        rest = after;
    }
    Ok((all, rest))
}

/// Behind DECLARE.
#[tactic(auto, unfolding(sb_grammar::specs::RowStatements::declare_rest))]
pub(crate) fn declare(
    alloc: Global,
    levels: u32,
    tokens: &[Lexeme],
) -> Result<(Statement, &[Lexeme]), Fault>
    ensures value { Gives (λ x. (x.0, x.1.now)) result ((spec.declare_rest (sum levels)).reads tokens.now) }
    ensures shorter { IfOk result (λ x. length x.1.now ≤ length tokens.now) }
{
    let (all, rest) = declarations(alloc, levels, tokens)?;
    Ok((Statement::Declare(all), rest))
}

/// Behind SET.
#[tactic(auto, unfolding(sb_grammar::specs::RowStatements::set_rest, sb_grammar::specs::Words::fixed_at))]
pub(crate) fn set(
    alloc: Global,
    levels: u32,
    tokens: &[Lexeme],
) -> Result<(Statement, &[Lexeme]), Fault>
    ensures value { Gives (λ x. (x.0, x.1.now)) result ((spec.set_rest (sum levels)).reads tokens.now) }
    ensures shorter { IfOk result (λ x. length x.1.now ≤ length tokens.now) }
{
    match tokens {
        [t, rest @ ..] if is(Fixed::NoCount, t) => {
            let (on, rest) = on_off(rest)?;
            Ok((Statement::SetNoCount(on), rest))
        }
        _ => {
            let (variable, rest) = variable(alloc, tokens)?;
            let (value, rest) = sum(alloc, levels, expect(Fixed::Equals, rest)?)?;
            Ok((Statement::Set { variable, value }, rest))
        }
    }
}
