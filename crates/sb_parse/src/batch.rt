//! Batches and procedures, as tokens.

ghost use Rattle.std.specs.Prelude.{◌≡◌, ◌≤◌, ◌<◌, List, [], length, false, is_some, IfOk, Ok};
ghost use Rattle.sb_parse.specs.Gives.{Gives};
ghost use Rattle.sb_parse.specs.Answers.{Answers, Names};
ghost use Rattle.sb_grammar.specs.Whole.{whole};
ghost use Rattle.sb_grammar.specs.Batches as spec;
ghost use Rattle.sb_grammar.specs.Statements as statements;
ghost use Rattle.sb_grammar.specs.declared.tree.Statement as declared;

use crate::definition::create;
use crate::fault::Fault;
use crate::statement::{first_barred, first_of, past_semicolon, past_work, rest_of};
use crate::value::{expect, qname};
use sb_grammar::{Barred, First, Fixed, Lexeme, Place, Progress, Statement, is};
use sqlite_items::Items;
use std::alloc::{AllocError, Global};

/// How deep statements and expressions nest.
const LEVELS: u32 = 64;

fn is_over(place: Place) -> bool
    ensures { result ≡ spec.is_over place }
{
    match place {
        Place::Closed => true,
        _ => false,
    }
}

#[tactic(auto, unfolding(sb_grammar::specs::Batches::turn_bars))]
fn turn_bars(place: Place, t: &Lexeme) -> Option<Barred>
    ensures { result ≡ spec.turn_bars place t.now }
{
    if is_over(place) {
        None
    } else {
        first_barred(t)
    }
}

#[tactic(auto, unfolding(sb_grammar::specs::Batches::batch_take))]
fn batch_take(place: Place, t: &Lexeme) -> Option<First>
    ensures { result ≡ spec.batch_take 64 place t.now }
{
    if is_over(place) {
        None
    } else {
        first_of(true, LEVELS, t)
    }
}

#[tactic(auto, unfolding(sb_grammar::specs::Batches::procedure_take))]
fn procedure_take(place: Place, t: &Lexeme) -> Option<First>
    ensures { result ≡ spec.procedure_take 64 place t.now }
{
    if is_over(place) {
        None
    } else if is(Fixed::Commit, t) {
        Some(First::Commit)
    } else {
        first_of(false, LEVELS, t)
    }
}

/// Where reading stands behind a statement of a procedure.
fn place_after(place: Place, first: First) -> Place
    ensures { result ≡ spec.place_after place first }
{
    match first {
        First::Commit => Place::Closed,
        First::Declare => match place {
            Place::Start => Place::Start,
            _ => Place::Inside,
        },
        First::Set => match place {
            Place::Start => Place::Start,
            _ => Place::Inside,
        },
        _ => Place::Inside,
    }
}

fn kept(
    alloc: Global,
    first: First,
    tokens: &[Lexeme],
) -> Result<(Option<Statement>, &[Lexeme]), Fault>
    ensures value { Gives (λ x. (x.0, x.1.now)) result ((spec.kept_rest 64 first).reads tokens.now) }
    ensures shorter { IfOk result (λ x. length x.1.now ≤ length tokens.now) }
{
    let (statement, rest) = rest_of(alloc, false, LEVELS, first, tokens)?;
    Ok((Some(statement), rest))
}

#[tactic(auto, unfolding(sb_grammar::specs::Batches::transaction_of))]
fn is_transaction(t: &Lexeme) -> bool
    ensures { result ≡ is_some (spec.transaction_of t.now) }
{
    is(Fixed::Tran, t) || is(Fixed::Transaction, t)
}

/// Behind BEGIN, where the procedure's transaction may begin.
#[tactic(auto, unfolding(sb_grammar::specs::Batches::begin_or_transaction), using(crate::proofs::Utf8::some_unit, crate::proofs::Utf8::none_unit))]
fn begin_or_transaction(
    alloc: Global,
    tokens: &[Lexeme],
) -> Result<(Option<Statement>, &[Lexeme]), Fault>
    ensures value { Gives (λ x. (x.0, x.1.now)) result ((spec.begin_or_transaction (statements.rest_of false 64 First.Begin)).reads tokens.now) }
    ensures shorter { IfOk result (λ x. length x.1.now ≤ length tokens.now) }
{
    match tokens {
        [t, rest @ ..] if is_transaction(t) => Ok((None, rest)),
        _ => kept(alloc, First::Begin, tokens),
    }
}

/// A statement of a procedure, behind its first word.
#[tactic(auto, unfolding(sb_grammar::specs::Batches::last_commit))]
fn procedure_rest(
    alloc: Global,
    place: Place,
    first: First,
    tokens: &[Lexeme],
) -> Result<(Option<Statement>, &[Lexeme]), Fault>
    ensures value { Gives (λ x. (x.0, x.1.now)) result ((spec.procedure_rest 64 place first).reads tokens.now) }
    ensures shorter { IfOk result (λ x. length x.1.now ≤ length tokens.now) }
{
    match first {
        First::Commit => Ok((None, past_work(tokens))),
        First::Begin => match place {
            Place::Start => begin_or_transaction(alloc, tokens),
            _ => kept(alloc, First::Begin, tokens),
        },
        _ => kept(alloc, first, tokens),
    }
}

fn with_statement(
    mut progress: Progress,
    place: Place,
    statement: Statement,
) -> Result<Progress, AllocError>
    ensures { IfOk result (λ q. q ≡ spec.with_statement progress place statement) }
{
    progress.statements.push(statement)?;
    progress.place = place;
    Ok(progress)
}

fn with_maybe(
    mut progress: Progress,
    place: Place,
    statement: Option<Statement>,
) -> Result<Progress, AllocError>
    ensures { IfOk result (λ q. q ≡ spec.with_maybe progress place statement) }
{
    match statement {
        Some(statement) => with_statement(progress, place, statement),
        None => {
            progress.place = place;
            Ok(progress)
        }
    }
}

#[tactic(auto, unfolding(sb_grammar::specs::Batches::procedure_turn, sb_grammar::specs::Statements::closed))]
fn procedure_turn(
    alloc: Global,
    progress: Progress,
    first: First,
    tokens: &[Lexeme],
) -> Result<(Progress, &[Lexeme]), Fault>
    ensures value { Gives (λ x. (x.0, x.1.now)) result ((spec.procedure_turn 64 progress first).reads tokens.now) }
    ensures shorter { IfOk result (λ x. length x.1.now ≤ length tokens.now) }
{
    let place = progress.place;
    let (statement, rest) = procedure_rest(alloc, place, first, tokens)?;
    let progress = with_maybe(progress, place_after(place, first), statement)?;
    Ok((progress, past_semicolon(rest)))
}

/// The statements of a procedure that follow some.
fn procedure_more(
    alloc: Global,
    first: Progress,
    tokens: &[Lexeme],
) -> Result<(Progress, &[Lexeme]), Fault>
    ensures value { Gives (λ x. (x.0, x.1.now)) result ((spec.procedure_more 64 first).reads tokens.now) }
    ensures shorter { IfOk result (λ x. length x.1.now ≤ length tokens.now) }
{
    let (mut progress, mut rest) = (first, tokens);
    'turns: while let [t, more @ ..] = rest {
        if let Some(word) = turn_bars(progress.place, t) {
            return Err(Fault::Unsupported(rest.len(), word));
        }
        let Some(first) = procedure_take(progress.place, t) else {
            return Ok((progress, rest));
        };
        let (next, after) = procedure_turn(alloc, progress, first, more)?;
        progress = next;
        rest = after;
    }
    Ok((progress, rest))
}

fn at_start(alloc: Global) -> Progress
    ensures { result ≡ spec.at_start }
{
    Progress {
        statements: Items::new(alloc),
        place: Place::Start,
    }
}

/// One statement or more, up to the end.
#[tactic(auto, unfolding(sb_grammar::specs::Batches::procedure_body))]
fn procedure_body(alloc: Global, tokens: &[Lexeme]) -> Result<(Items<Statement>, &[Lexeme]), Fault>
    ensures value { Gives (λ x. (x.0, x.1.now)) result ((spec.procedure_body 64).reads tokens.now) }
    ensures shorter { IfOk result (λ x. length x.1.now ≤ length tokens.now) }
{
    let [t, rest @ ..] = tokens else {
        return Err(Fault::Bad(0));
    };
    if let Some(word) = turn_bars(Place::Start, t) {
        return Err(Fault::Unsupported(tokens.len(), word));
    }
    let Some(first) = procedure_take(Place::Start, t) else {
        return Err(Fault::Bad(tokens.len()));
    };
    let (progress, rest) = procedure_turn(alloc, at_start(alloc), first, rest)?;
    let (progress, rest) = procedure_more(alloc, progress, rest)?;
    let Progress {
        statements,
        place: _,
    } = progress;
    Ok((statements, rest))
}

#[tactic(auto, unfolding(sb_grammar::specs::Batches::as_at))]
fn as_at(tokens: &[Lexeme]) -> Result<(usize, &[Lexeme]), Fault>
    ensures value { Gives (λ x. (x.0, x.1.now)) result (spec.as_rule.reads tokens.now) }
    ensures shorter { IfOk result (λ x. length x.1.now ≤ length tokens.now) }
{
    match tokens {
        [t, rest @ ..] if is(Fixed::As, t) => Ok((t.start, rest)),
        _ => Err(Fault::Bad(tokens.len())),
    }
}

/// Behind CREATE PROCEDURE.
#[tactic(auto, unfolding(sb_grammar::specs::Batches::procedure_def))]
fn procedure_def(alloc: Global, tokens: &[Lexeme]) -> Result<(Statement, &[Lexeme]), Fault>
    ensures value { Gives (λ x. (x.0, x.1.now)) result ((spec.procedure_def 64).reads tokens.now) }
    ensures shorter { IfOk result (λ x. length x.1.now ≤ length tokens.now) }
{
    let (name, rest) = qname(alloc, tokens)?;
    let (at, rest) = as_at(rest)?;
    let (body, rest) = procedure_body(alloc, rest)?;
    Ok((Statement::CreateProcedure { name, at, body }, rest))
}

#[tactic(auto, unfolding(sb_grammar::specs::Batches::procedure_word))]
fn is_procedure(t: &Lexeme) -> bool
    ensures { result ≡ is_some (spec.procedure_word t.now) }
{
    is(Fixed::Procedure, t) || is(Fixed::Proc, t)
}

/// Behind a batch's first CREATE.
#[tactic(auto, unfolding(sb_grammar::specs::Batches::create_turn, sb_grammar::specs::Statements::closed), using(crate::proofs::Utf8::some_unit, crate::proofs::Utf8::none_unit))]
fn create_turn(
    alloc: Global,
    progress: Progress,
    tokens: &[Lexeme],
) -> Result<(Progress, &[Lexeme]), Fault>
    ensures value { Gives (λ x. (x.0, x.1.now)) result ((spec.create_turn 64 progress).reads tokens.now) }
    ensures shorter { IfOk result (λ x. length x.1.now ≤ length tokens.now) }
{
    match tokens {
        [t, rest @ ..] if is_procedure(t) => {
            let (statement, rest) = procedure_def(alloc, rest)?;
            Ok((with_statement(progress, Place::Closed, statement)?, rest))
        }
        _ => {
            let (statement, rest) = create(alloc, tokens)?;
            let progress = with_statement(progress, Place::Inside, statement)?;
            Ok((progress, past_semicolon(rest)))
        }
    }
}

#[tactic(auto, unfolding(sb_grammar::specs::Statements::closed))]
fn plain_turn(
    alloc: Global,
    progress: Progress,
    first: First,
    tokens: &[Lexeme],
) -> Result<(Progress, &[Lexeme]), Fault>
    ensures value { Gives (λ x. (x.0, x.1.now)) result ((spec.plain_turn 64 progress first).reads tokens.now) }
    ensures shorter { IfOk result (λ x. length x.1.now ≤ length tokens.now) }
{
    let (statement, rest) = rest_of(alloc, true, LEVELS, first, tokens)?;
    let progress = with_statement(progress, Place::Inside, statement)?;
    Ok((progress, past_semicolon(rest)))
}

#[tactic(auto, unfolding(sb_grammar::specs::Batches::batch_turn))]
fn batch_turn(
    alloc: Global,
    progress: Progress,
    first: First,
    tokens: &[Lexeme],
) -> Result<(Progress, &[Lexeme]), Fault>
    ensures value { Gives (λ x. (x.0, x.1.now)) result ((spec.batch_turn 64 progress first).reads tokens.now) }
    ensures shorter { IfOk result (λ x. length x.1.now ≤ length tokens.now) }
{
    match progress.place {
        Place::Start => match first {
            First::Create => create_turn(alloc, progress, tokens),
            _ => plain_turn(alloc, progress, first, tokens),
        },
        _ => plain_turn(alloc, progress, first, tokens),
    }
}

/// One statement after the other.
fn batch_more(
    alloc: Global,
    first: Progress,
    tokens: &[Lexeme],
) -> Result<(Progress, &[Lexeme]), Fault>
    ensures value { Gives (λ x. (x.0, x.1.now)) result ((spec.batch_more 64 first).reads tokens.now) }
    ensures shorter { IfOk result (λ x. length x.1.now ≤ length tokens.now) }
{
    let (mut progress, mut rest) = (first, tokens);
    'turns: while let [t, more @ ..] = rest {
        if let Some(word) = turn_bars(progress.place, t) {
            return Err(Fault::Unsupported(rest.len(), word));
        }
        let Some(first) = batch_take(progress.place, t) else {
            return Ok((progress, rest));
        };
        let (next, after) = batch_turn(alloc, progress, first, more)?;
        progress = next;
        rest = after;
    }
    Ok((progress, rest))
}

#[tactic(auto, unfolding(sb_grammar::specs::Batches::batch))]
fn batch(alloc: Global, tokens: &[Lexeme]) -> Result<(Items<Statement>, &[Lexeme]), Fault>
    ensures { Gives (λ x. (x.0, x.1.now)) result ((spec.batch 64).reads tokens.now) }
{
    let (progress, rest) = batch_more(alloc, at_start(alloc), tokens)?;
    let Progress {
        statements,
        place: _,
    } = progress;
    Ok((statements, rest))
}

#[tactic(auto, unfolding(sb_grammar::specs::Batches::procedure))]
fn procedure(alloc: Global, tokens: &[Lexeme]) -> Result<(Items<Statement>, &[Lexeme]), Fault>
    ensures { Gives (λ x. (x.0, x.1.now)) result ((spec.procedure 64).reads tokens.now) }
{
    procedure_body(alloc, expect(Fixed::As, tokens)?)
}

fn whole_batch(alloc: Global, tokens: &[Lexeme]) -> Result<Items<Statement>, Fault>
    ensures { Answers result (whole (spec.batch 64) tokens.now) }
{
    let (all, rest) = batch(alloc, tokens)?;
    if !rest.is_empty() {
        return Err(Fault::Bad(rest.len()));
    }
    Ok(all)
}

fn whole_procedure(alloc: Global, tokens: &[Lexeme]) -> Result<Items<Statement>, Fault>
    ensures { Answers result (whole (spec.procedure 64) tokens.now) }
{
    let (all, rest) = procedure(alloc, tokens)?;
    if !rest.is_empty() {
        return Err(Fault::Bad(rest.len()));
    }
    Ok(all)
}

/// The statements that a batch's tokens spell.
pub fn batch_of_tokens(alloc: Global, tokens: &[Lexeme]) -> Result<Items<Statement>, Fault>
    // What is read is spelled so.
    ensures spelled { IfOk result (λ all. (spec.batch 64).spells all tokens.now []) }
    // What is spelled so is read, and as these statements, unless memory runs out.
    ensures only { (all : List declared.Statement) → (spec.batch 64).spells all tokens.now [] → Answers result (Ok all) }
    // A refusal names the first token at which no spelling goes on, and its word where it isn't supported there.
    ensures place { Names result (spec.batch 64) tokens.now }
{
    whole_batch(alloc, tokens)
}

/// The statements that a procedure's tokens spell, from its AS on.
pub fn procedure_of_tokens(alloc: Global, tokens: &[Lexeme]) -> Result<Items<Statement>, Fault>
    ensures spelled { IfOk result (λ all. (spec.procedure 64).spells all tokens.now []) }
    ensures only { (all : List declared.Statement) → (spec.procedure 64).spells all tokens.now [] → Answers result (Ok all) }
    ensures place { Names result (spec.procedure 64) tokens.now }
{
    whole_procedure(alloc, tokens)
}
