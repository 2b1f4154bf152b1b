//! Conditions.

ghost use Rattle.std.specs.Prelude.{◌≡◌, ◌≤◌, ◌<◌, ◌-◌, ◌∷◌, [], suc, length, IfOk};
ghost use Rattle.sb_parse.specs.Gives.{Gives};
ghost use Rattle.sb_grammar.specs.Exprs as spec;

use crate::expr::{cast, literal, more_sum, sum};
use crate::fault::Fault;
use crate::value::{behind, expect};
use sb_grammar::{Bracketed, Comparison, Condition, Expr, Fixed, Lexeme, is};
use sqlite_items::Items;
use std::alloc::{AllocError, Global};

#[tactic(auto, unfolding(sb_grammar::specs::Exprs::comparison_of))]
fn comparison_of(t: &Lexeme) -> Option<Comparison>
    ensures { result ≡ spec.comparison_of t.now }
{
    if is(Fixed::Equals, t) {
        Some(Comparison::Equal)
    } else if is(Fixed::NotEqual, t) {
        Some(Comparison::NotEqual)
    } else if is(Fixed::Less, t) {
        Some(Comparison::Less)
    } else if is(Fixed::Greater, t) {
        Some(Comparison::Greater)
    } else {
        None
    }
}

/// Behind IS.
#[tactic(auto, unfolding(sb_grammar::specs::Exprs::null_test, sb_grammar::specs::Words::fixed_at))]
fn null_test(left: Expr, tokens: &[Lexeme]) -> Result<(Condition, &[Lexeme]), Fault>
    ensures value { Gives (λ x. (x.0, x.1.now)) result ((spec.null_test left).reads tokens.now) }
    ensures shorter { IfOk result (λ x. length x.1.now ≤ length tokens.now) }
{
    match tokens {
        [t, rest @ ..] if is(Fixed::Not, t) => {
            Ok((Condition::IsNotNull(left), expect(Fixed::Null, rest)?))
        }
        _ => Ok((Condition::IsNull(left), expect(Fixed::Null, tokens)?)),
    }
}

fn compare_by(
    alloc: Global,
    levels: u32,
    left: Expr,
    comparison: Comparison,
    tokens: &[Lexeme],
) -> Result<(Condition, &[Lexeme]), Fault>
    ensures value { Gives (λ x. (x.0, x.1.now)) result ((spec.compare_by (spec.sum levels) left comparison).reads tokens.now) }
    ensures shorter { IfOk result (λ x. length x.1.now ≤ length tokens.now) }
{
    let (right, rest) = sum(alloc, levels, tokens)?;
    Ok((Condition::Compare(comparison, left, right), rest))
}

/// Behind an expression, as a test of it.
#[tactic(auto, unfolding(sb_grammar::specs::Exprs::relation, sb_grammar::specs::Words::fixed_at))]
fn relation(
    alloc: Global,
    levels: u32,
    left: Expr,
    tokens: &[Lexeme],
) -> Result<(Condition, &[Lexeme]), Fault>
    ensures value { Gives (λ x. (x.0, x.1.now)) result ((spec.relation (spec.sum levels) left).reads tokens.now) }
    ensures shorter { IfOk result (λ x. length x.1.now ≤ length tokens.now) }
{
    let [t, rest @ ..] = tokens else {
        return Err(Fault::Bad(0));
    };
    if is(Fixed::Is, t) {
        return null_test(left, rest);
    }
    match comparison_of(t) {
        Some(comparison) => compare_by(alloc, levels, left, comparison, rest),
        None => Err(Fault::Bad(tokens.len())),
    }
}

/// Behind an expression in brackets: a test of it, or nothing.
#[tactic(auto, unfolding(sb_grammar::specs::Exprs::relation_maybe, sb_grammar::specs::Words::fixed_at))]
fn relation_maybe(
    alloc: Global,
    levels: u32,
    left: Expr,
    tokens: &[Lexeme],
) -> Result<(Bracketed, &[Lexeme]), Fault>
    ensures value { Gives (λ x. (x.0, x.1.now)) result ((spec.relation_maybe (spec.sum levels) left).reads tokens.now) }
    ensures shorter { IfOk result (λ x. length x.1.now ≤ length tokens.now) }
{
    let [t, rest @ ..] = tokens else {
        return Ok((Bracketed::Value(left), tokens));
    };
    if is(Fixed::Is, t) {
        let (test, rest) = null_test(left, rest)?;
        return Ok((Bracketed::Test(test), rest));
    }
    match comparison_of(t) {
        Some(comparison) => {
            let (test, rest) = compare_by(alloc, levels, left, comparison, rest)?;
            Ok((Bracketed::Test(test), rest))
        }
        None => Ok((Bracketed::Value(left), tokens)),
    }
}

/// The rest of a test that begins so, outside brackets.
fn test_by(
    alloc: Global,
    levels: u32,
    first: Bracketed,
    tokens: &[Lexeme],
) -> Result<(Condition, &[Lexeme]), Fault>
    ensures value { Gives (λ x. (x.0, x.1.now)) result ((spec.test_by (spec.operand levels) (spec.sum levels) first).reads tokens.now) }
    ensures shorter { IfOk result (λ x. length x.1.now ≤ length tokens.now) }
{
    match first {
        Bracketed::Test(test) => Ok((test, tokens)),
        Bracketed::Value(value) => {
            let (left, rest) = more_sum(alloc, levels, value, tokens)?;
            relation(alloc, levels, left, rest)
        }
    }
}

/// The same within brackets, where it may be an expression.
fn inner_by(
    alloc: Global,
    levels: u32,
    first: Bracketed,
    tokens: &[Lexeme],
) -> Result<(Bracketed, &[Lexeme]), Fault>
    ensures value { Gives (λ x. (x.0, x.1.now)) result ((spec.inner_by (spec.operand levels) (spec.sum levels) first).reads tokens.now) }
    ensures shorter { IfOk result (λ x. length x.1.now ≤ length tokens.now) }
{
    match first {
        Bracketed::Test(test) => Ok((Bracketed::Test(test), tokens)),
        Bracketed::Value(value) => {
            let (left, rest) = more_sum(alloc, levels, value, tokens)?;
            relation_maybe(alloc, levels, left, rest)
        }
    }
}

#[cycle(condition)]
#[tactic(auto, unfolding(sb_grammar::specs::Exprs::test_of))]
fn test(alloc: Global, levels: u32, tokens: &[Lexeme]) -> Result<(Condition, &[Lexeme]), Fault>
    ensures value { Gives (λ x. (x.0, x.1.now)) result ((spec.test levels).reads tokens.now) }
    ensures shorter { IfOk result (λ x. length x.1.now ≤ length tokens.now) }
{
    let (first, rest) = item(alloc, levels, tokens)?;
    test_by(alloc, levels, first, rest)
}

fn two(alloc: Global, left: Condition, right: Condition) -> Result<Items<Condition>, AllocError>
    ensures { IfOk result (λ tests. tests ≡ left ∷ right ∷ []) }
{
    let mut tests = Items::new(alloc);
    tests.push(left)?;
    tests.push(right)?;
    Ok(tests)
}

fn and(alloc: Global, left: Condition, right: Condition) -> Result<Condition, AllocError>
    ensures { IfOk result (λ c. c ≡ spec.and left right) }
{
    match left {
        Condition::All(mut tests) => {
            tests.push(right)?;
            Ok(Condition::All(tests))
        }
        first => Ok(Condition::All(two(alloc, first, right)?)),
    }
}

fn or(alloc: Global, left: Condition, right: Condition) -> Result<Condition, AllocError>
    ensures { IfOk result (λ c. c ≡ spec.or left right) }
{
    match left {
        Condition::Any(mut tests) => {
            tests.push(right)?;
            Ok(Condition::Any(tests))
        }
        first => Ok(Condition::Any(two(alloc, first, right)?)),
    }
}

#[cycle(condition)]
fn and_test(
    alloc: Global,
    levels: u32,
    left: Condition,
    tokens: &[Lexeme],
) -> Result<(Condition, &[Lexeme]), Fault>
    ensures value { Gives (λ x. (x.0, x.1.now)) result ((spec.and_step (spec.test levels) tt left).reads tokens.now) }
    ensures shorter { IfOk result (λ x. length x.1.now ≤ length tokens.now) }
{
    let (right, rest) = test(alloc, levels, tokens)?;
    Ok((and(alloc, left, right)?, rest))
}

/// Behind a test: further ones by AND.
#[cycle(condition)]
fn more_tests(
    alloc: Global,
    levels: u32,
    first: Condition,
    tokens: &[Lexeme],
) -> Result<(Condition, &[Lexeme]), Fault>
    ensures value { Gives (λ x. (x.0, x.1.now)) result ((spec.more_tests (spec.test levels) first).reads tokens.now) }
    ensures shorter { IfOk result (λ x. length x.1.now ≤ length tokens.now) }
{
    let (mut left, mut rest) = (first, tokens);
    'ands: while let Some(more) = behind(Fixed::And, rest) {
        let (next, after) = and_test(alloc, levels, left, more)?;
        left = next;
        rest = after;
    }
    Ok((left, rest))
}

#[cycle(condition)]
#[tactic(auto, unfolding(sb_grammar::specs::Exprs::conjunction_of))]
fn conjunction(
    alloc: Global,
    levels: u32,
    tokens: &[Lexeme],
) -> Result<(Condition, &[Lexeme]), Fault>
    ensures value { Gives (λ x. (x.0, x.1.now)) result ((spec.conjunction levels).reads tokens.now) }
    ensures shorter { IfOk result (λ x. length x.1.now ≤ length tokens.now) }
{
    let (first, rest) = test(alloc, levels, tokens)?;
    more_tests(alloc, levels, first, rest)
}

#[cycle(condition)]
fn or_conjunction(
    alloc: Global,
    levels: u32,
    left: Condition,
    tokens: &[Lexeme],
) -> Result<(Condition, &[Lexeme]), Fault>
    ensures value { Gives (λ x. (x.0, x.1.now)) result ((spec.or_step (spec.conjunction levels) tt left).reads tokens.now) }
    ensures shorter { IfOk result (λ x. length x.1.now ≤ length tokens.now) }
{
    let (right, rest) = conjunction(alloc, levels, tokens)?;
    Ok((or(alloc, left, right)?, rest))
}

/// Behind a conjunction: further ones by OR.
#[cycle(condition)]
fn more_conjunctions(
    alloc: Global,
    levels: u32,
    first: Condition,
    tokens: &[Lexeme],
) -> Result<(Condition, &[Lexeme]), Fault>
    ensures value { Gives (λ x. (x.0, x.1.now)) result ((spec.more_conjunctions (spec.conjunction levels) first).reads tokens.now) }
    ensures shorter { IfOk result (λ x. length x.1.now ≤ length tokens.now) }
{
    let (mut left, mut rest) = (first, tokens);
    'ors: while let Some(more) = behind(Fixed::Or, rest) {
        let (next, after) = or_conjunction(alloc, levels, left, more)?;
        left = next;
        rest = after;
    }
    Ok((left, rest))
}

/// The rest of what stands in brackets, once its first test or its expression is read.
#[cycle(condition)]
fn bracket_by(
    alloc: Global,
    levels: u32,
    first: Bracketed,
    tokens: &[Lexeme],
) -> Result<(Bracketed, &[Lexeme]), Fault>
    ensures value { Gives (λ x. (x.0, x.1.now)) result ((spec.bracket_by (spec.test levels) (spec.conjunction levels) first).reads tokens.now) }
    ensures shorter { IfOk result (λ x. length x.1.now ≤ length tokens.now) }
{
    match first {
        Bracketed::Value(value) => Ok((Bracketed::Value(value), tokens)),
        Bracketed::Test(test) => {
            let (left, rest) = more_tests(alloc, levels, test, tokens)?;
            let (condition, rest) = more_conjunctions(alloc, levels, left, rest)?;
            Ok((Bracketed::Test(condition), rest))
        }
    }
}

/// An expression or a condition in brackets.
#[cycle(condition)]
#[tactic(auto, unfolding(sb_grammar::specs::Exprs::bracketed_of))]
fn bracketed(alloc: Global, levels: u32, tokens: &[Lexeme]) -> Result<(Bracketed, &[Lexeme]), Fault>
    ensures value { Gives (λ x. (x.0, x.1.now)) result ((spec.bracketed levels).reads tokens.now) }
    ensures shorter { IfOk result (λ x. length x.1.now ≤ length tokens.now) }
{
    let (first, rest) = item(alloc, levels, tokens)?;
    let (first, rest) = inner_by(alloc, levels, first, rest)?;
    bracket_by(alloc, levels, first, rest)
}

fn literal_item(alloc: Global, tokens: &[Lexeme]) -> Result<(Bracketed, &[Lexeme]), Fault>
    ensures value { Gives (λ x. (x.0, x.1.now)) result (spec.literal_item.reads tokens.now) }
    ensures shorter { IfOk result (λ x. length x.1.now ≤ length tokens.now) }
{
    let (value, rest) = literal(alloc, tokens)?;
    Ok((Bracketed::Value(value), rest))
}

/// The beginning of a test, with one more level than so many.
#[cycle(condition)]
#[tactic(auto, unfolding(sb_grammar::specs::Exprs::item, sb_grammar::specs::Words::fixed_at))]
fn nested(alloc: Global, levels: u32, tokens: &[Lexeme]) -> Result<(Bracketed, &[Lexeme]), Fault>
    ensures value { Gives (λ x. (x.0, x.1.now)) result ((spec.item (suc levels)).reads tokens.now) }
    ensures shorter { IfOk result (λ x. length x.1.now ≤ length tokens.now) }
{
    match tokens {
        [t, rest @ ..] if is(Fixed::Open, t) => {
            let (inner, rest) = bracketed(alloc, levels, rest)?;
            Ok((inner, expect(Fixed::Close, rest)?))
        }
        [t, rest @ ..] if is(Fixed::Cast, t) => {
            let (value, rest) = cast(alloc, levels, rest)?;
            Ok((Bracketed::Value(value), rest))
        }
        _ => literal_item(alloc, tokens),
    }
}

/// The beginning of a test, with so many levels left.
#[cycle(condition)]
#[tactic(auto, unfolding(sb_grammar::specs::Exprs::item))]
fn item(alloc: Global, levels: u32, tokens: &[Lexeme]) -> Result<(Bracketed, &[Lexeme]), Fault>
    ensures value { Gives (λ x. (x.0, x.1.now)) result ((spec.item levels).reads tokens.now) }
    ensures shorter { IfOk result (λ x. length x.1.now ≤ length tokens.now) }
{
    if levels == 0 {
        return literal_item(alloc, tokens);
    }
    nested(alloc, levels - 1, tokens)
}

/// What IF tests.
#[tactic(auto, unfolding(sb_grammar::specs::Exprs::condition_of))]
pub(crate) fn condition(
    alloc: Global,
    levels: u32,
    tokens: &[Lexeme],
) -> Result<(Condition, &[Lexeme]), Fault>
    ensures value { Gives (λ x. (x.0, x.1.now)) result ((spec.condition levels).reads tokens.now) }
    ensures shorter { IfOk result (λ x. length x.1.now ≤ length tokens.now) }
{
    let (first, rest) = conjunction(alloc, levels, tokens)?;
    more_conjunctions(alloc, levels, first, rest)
}
