//! Expressions.

ghost use Rattle.std.specs.Prelude.{◌≡◌, ◌≤◌, ◌<◌, ◌-◌, suc, length, IfOk};
ghost use Rattle.sb_parse.specs.Gives.{Gives};
ghost use Rattle.sb_grammar.specs.Exprs as spec;

use crate::fault::Fault;
use crate::value::{expect, kind, number_of, text_by};
use sb_grammar::{Expr, Fixed, Lexeme, Sign, Term, is};
use sb_lex::TokenKind;
use sb_log::{Bytes, ValueKind};
use sqlite_items::{Boxed, Items};
use std::alloc::{AllocError, Global};

fn variable_expr(alloc: Global, value: &[u8]) -> Result<Option<Expr>, AllocError>
    ensures { IfOk result (λ e. e ≡ spec.variable_expr value.now) }
{
    if value.eq_ignore_ascii_case(b"@@ROWCOUNT") {
        return Ok(Some(Expr::RowCount));
    }
    match text_by(alloc, value)? {
        Some(variable) => Ok(Some(Expr::Variable(variable))),
        None => Ok(None),
    }
}

fn text_expr(alloc: Global, value: &[u8]) -> Result<Option<Expr>, AllocError>
    ensures { IfOk result (λ e. e ≡ spec.text_expr value.now) }
{
    match text_by(alloc, value)? {
        Some(text) => Ok(Some(Expr::Text(text))),
        None => Ok(None),
    }
}

fn number_expr(t: &Lexeme) -> Option<Expr>
    ensures { result ≡ spec.number_expr t.now }
{
    match number_of(t) {
        Some(number) => Some(Expr::Number(number)),
        None => None,
    }
}

#[tactic(auto, unfolding(sb_grammar::specs::Exprs::literal_of))]
fn literal_of(alloc: Global, t: &Lexeme) -> Result<Option<Expr>, AllocError>
    ensures { IfOk result (λ e. e ≡ spec.literal_of t.now) }
{
    if is(Fixed::Null, t) {
        return Ok(Some(Expr::Null));
    }
    match t.kind {
        TokenKind::Number => Ok(number_expr(t)),
        TokenKind::Text => text_expr(alloc, t.value.as_slice()),
        TokenKind::Binary => Ok(Some(Expr::Bytes(Bytes::from_vec(Vec::from_slice(
            alloc,
            t.value.as_slice(),
        )?)))),
        TokenKind::Variable => variable_expr(alloc, t.value.as_slice()),
        _ => Ok(None),
    }
}

pub(crate) fn literal(alloc: Global, tokens: &[Lexeme]) -> Result<(Expr, &[Lexeme]), Fault>
    ensures value { Gives (λ x. (x.0, x.1.now)) result (spec.literal.reads tokens.now) }
    ensures shorter { IfOk result (λ x. length x.1.now ≤ length tokens.now) }
{
    match tokens {
        [] => Err(Fault::Bad(0)),
        [t, rest @ ..] => match literal_of(alloc, t)? {
            Some(e) => Ok((e, rest)),
            None => Err(Fault::Bad(tokens.len())),
        },
    }
}

#[tactic(auto, unfolding(sb_grammar::specs::Exprs::sign_of))]
pub(crate) fn sign_of(t: &Lexeme) -> Option<Sign>
    ensures { result ≡ spec.sign_of t.now }
{
    if is(Fixed::Plus, t) {
        Some(Sign::Plus)
    } else if is(Fixed::Minus, t) {
        Some(Sign::Minus)
    } else {
        None
    }
}

/// One more term behind an expression: a sum goes on, anything else begins one.
fn joined(alloc: Global, sign: Sign, left: Expr, operand: Expr) -> Result<Expr, AllocError>
    ensures { IfOk result (λ e. e ≡ spec.joined sign left operand) }
{
    let term = Term { sign, operand };
    match left {
        Expr::Sum(first, mut terms) => {
            terms.push(term)?;
            Ok(Expr::Sum(first, terms))
        }
        first => {
            let mut terms = Items::new(alloc);
            terms.push(term)?;
            Ok(Expr::Sum(Boxed::new(alloc, first)?, terms))
        }
    }
}

fn cast_to(alloc: Global, inner: Expr, kind: ValueKind) -> Result<Expr, AllocError>
    ensures { IfOk result (λ e. e ≡ Expr.Cast inner kind) }
{
    Ok(Expr::Cast(Boxed::new(alloc, inner)?, kind))
}

#[cycle(expr)]
#[tactic(auto, unfolding(sb_grammar::specs::Exprs::cast_of))]
pub(crate) fn cast(
    alloc: Global,
    levels: u32,
    tokens: &[Lexeme],
) -> Result<(Expr, &[Lexeme]), Fault>
    ensures value { Gives (λ x. (x.0, x.1.now)) result ((spec.cast_of (spec.sum levels)).reads tokens.now) }
    ensures shorter { IfOk result (λ x. length x.1.now ≤ length tokens.now) }
{
    let rest = expect(Fixed::Open, tokens)?;
    let (inner, rest) = sum(alloc, levels, rest)?;
    let rest = expect(Fixed::As, rest)?;
    let (kind, rest) = kind(rest)?;
    let rest = expect(Fixed::Close, rest)?;
    Ok((cast_to(alloc, inner, kind)?, rest))
}

/// With one more level than so many.
#[cycle(expr)]
#[tactic(auto, unfolding(sb_grammar::specs::Exprs::operand, sb_grammar::specs::Words::fixed_at))]
fn nested(alloc: Global, levels: u32, tokens: &[Lexeme]) -> Result<(Expr, &[Lexeme]), Fault>
    ensures value { Gives (λ x. (x.0, x.1.now)) result ((spec.operand (suc levels)).reads tokens.now) }
    ensures shorter { IfOk result (λ x. length x.1.now ≤ length tokens.now) }
{
    match tokens {
        [t, rest @ ..] if is(Fixed::Open, t) => {
            let (e, rest) = sum(alloc, levels, rest)?;
            Ok((e, expect(Fixed::Close, rest)?))
        }
        [t, rest @ ..] if is(Fixed::Cast, t) => cast(alloc, levels, rest),
        _ => literal(alloc, tokens),
    }
}

/// With so many levels of brackets and CASTs left.
#[cycle(expr)]
#[tactic(auto, unfolding(sb_grammar::specs::Exprs::operand))]
pub(crate) fn operand(
    alloc: Global,
    levels: u32,
    tokens: &[Lexeme],
) -> Result<(Expr, &[Lexeme]), Fault>
    ensures value { Gives (λ x. (x.0, x.1.now)) result ((spec.operand levels).reads tokens.now) }
    ensures shorter { IfOk result (λ x. length x.1.now ≤ length tokens.now) }
{
    if levels == 0 {
        return literal(alloc, tokens);
    }
    nested(alloc, levels - 1, tokens)
}

/// What a sign and an operand make of an expression.
#[cycle(expr)]
fn signed_operand(
    alloc: Global,
    levels: u32,
    sign: Sign,
    left: Expr,
    tokens: &[Lexeme],
) -> Result<(Expr, &[Lexeme]), Fault>
    ensures value { Gives (λ x. (x.0, x.1.now)) result ((spec.join_step (spec.operand levels) sign left).reads tokens.now) }
    ensures shorter { IfOk result (λ x. length x.1.now ≤ length tokens.now) }
{
    let (right, rest) = operand(alloc, levels, tokens)?;
    Ok((joined(alloc, sign, left, right)?, rest))
}

/// An expression that begins with this operand.
#[cycle(expr)]
pub(crate) fn more_sum(
    alloc: Global,
    levels: u32,
    first: Expr,
    tokens: &[Lexeme],
) -> Result<(Expr, &[Lexeme]), Fault>
    ensures value { Gives (λ x. (x.0, x.1.now)) result ((spec.more_sum (spec.operand levels) first).reads tokens.now) }
    ensures shorter { IfOk result (λ x. length x.1.now ≤ length tokens.now) }
{
    let (mut left, mut rest) = (first, tokens);
    'signs: while let [t, more @ ..] = rest {
        let Some(sign) = sign_of(t) else {
            break;
        };
        let (next, after) = signed_operand(alloc, levels, sign, left, more)?;
        left = next;
        rest = after;
    }
    Ok((left, rest))
}

#[cycle(expr)]
#[tactic(auto, unfolding(sb_grammar::specs::Exprs::sum_of))]
pub(crate) fn sum(alloc: Global, levels: u32, tokens: &[Lexeme]) -> Result<(Expr, &[Lexeme]), Fault>
    ensures value { Gives (λ x. (x.0, x.1.now)) result ((spec.sum levels).reads tokens.now) }
    ensures shorter { IfOk result (λ x. length x.1.now ≤ length tokens.now) }
{
    let (first, rest) = operand(alloc, levels, tokens)?;
    more_sum(alloc, levels, first, rest)
}
