//! The activation of a queue.

ghost use Rattle.std.specs.Prelude.{◌≡◌, ◌≤◌, suc, length, IfOk, is_some};
ghost use Rattle.sb_parse.specs.Gives.{Gives};
ghost use Rattle.sb_grammar.specs.Options.{one, more};
ghost use Rattle.sb_grammar.specs.Definitions as spec;

use crate::fault::Fault;
use crate::value::{expect, number, on_off, qname};
use sb_grammar::{ActivationOption, ActivationOptions, Fixed, Lexeme, is};
use sb_lex::TokenKind;
use sb_log::Activation;
use std::alloc::Global;

#[tactic(auto, unfolding(sb_grammar::specs::Definitions::run_as_of))]
fn is_run_as(t: &Lexeme) -> bool
    ensures { result ≡ is_some (spec.run_as_of t.now) }
{
    is(Fixed::Itself, t) || is(Fixed::Owner, t) || t.kind == TokenKind::Text
}

#[tactic(auto, using(crate::proofs::Utf8::some_unit, crate::proofs::Utf8::none_unit))]
fn run_as(tokens: &[Lexeme]) -> Result<&[Lexeme], Fault>
    ensures value { Gives (λ rest. (tt, rest.now)) result (spec.run_as.reads tokens.now) }
    ensures shorter { IfOk result (λ rest. length rest.now ≤ length tokens.now) }
{
    match tokens {
        [t, rest @ ..] if is_run_as(t) => Ok(rest),
        _ => Err(Fault::Bad(tokens.len())),
    }
}

#[tactic(auto, unfolding(sb_grammar::specs::Definitions::activation_take))]
fn activation_take(written: &ActivationOptions, t: &Lexeme) -> Option<ActivationOption>
    ensures { result ≡ spec.activation_choices.take written.now t.now }
{
    if is(Fixed::Status, t) && written.status.is_none() {
        Some(ActivationOption::Status)
    } else if is(Fixed::ProcedureName, t) && written.procedure.is_none() {
        Some(ActivationOption::Procedure)
    } else if is(Fixed::MaxQueueReaders, t) && written.readers.is_none() {
        Some(ActivationOption::Readers)
    } else if is(Fixed::Execute, t) && !written.execute {
        Some(ActivationOption::Execute)
    } else {
        None
    }
}

fn activation_next(written: &ActivationOptions) -> Option<ActivationOption>
    ensures { result ≡ spec.activation_choices.next written.now }
{
    if written.procedure.is_none() {
        Some(ActivationOption::Procedure)
    } else if written.readers.is_none() {
        Some(ActivationOption::Readers)
    } else if written.status.is_none() {
        Some(ActivationOption::Status)
    } else if !written.execute {
        Some(ActivationOption::Execute)
    } else {
        None
    }
}

fn activation_needs(written: &ActivationOptions) -> bool
    ensures { result ≡ spec.activation_choices.needs written.now }
{
    if written.procedure.is_none() {
        true
    } else {
        written.readers.is_none()
    }
}

#[tactic(auto, unfolding(sb_grammar::specs::Definitions::activation_value))]
fn activation_value(
    alloc: Global,
    mut written: ActivationOptions,
    option: ActivationOption,
    tokens: &[Lexeme],
) -> Result<(ActivationOptions, &[Lexeme]), Fault>
    ensures value { Gives (λ x. (x.0, x.1.now)) result ((spec.activation_value written option).reads tokens.now) }
    ensures shorter { IfOk result (λ x. length x.1.now ≤ length tokens.now) }
{
    match option {
        ActivationOption::Status => {
            let (on, rest) = on_off(expect(Fixed::Equals, tokens)?)?;
            written.status = Some(on);
            Ok((written, rest))
        }
        ActivationOption::Procedure => {
            let (procedure, rest) = qname(alloc, expect(Fixed::Equals, tokens)?)?;
            written.procedure = Some(procedure);
            Ok((written, rest))
        }
        ActivationOption::Readers => {
            let (readers, rest) = number(expect(Fixed::Equals, tokens)?)?;
            written.readers = Some(readers);
            Ok((written, rest))
        }
        ActivationOption::Execute => {
            let rest = run_as(expect(Fixed::As, tokens)?)?;
            written.execute = true;
            Ok((written, rest))
        }
    }
}

/// One more option.
#[tactic(auto, unfolding(sb_grammar::specs::Options::one))]
fn activation_one(
    alloc: Global,
    written: ActivationOptions,
    tokens: &[Lexeme],
) -> Result<(ActivationOptions, &[Lexeme]), Fault>
    ensures value { Gives (λ x. (x.0, x.1.now)) result ((one spec.activation_choices ActivationOption.Procedure written).reads tokens.now) }
    ensures shorter { IfOk result (λ x. length x.1.now ≤ length tokens.now) }
{
    let [t, rest @ ..] = tokens else {
        return Err(Fault::Bad(0));
    };
    let Some(option) = activation_take(&written, t) else {
        return Err(Fault::Bad(tokens.len()));
    };
    activation_value(alloc, written, option, rest)
}

/// The other options, one more than so many at most.
#[cycle(activation)]
#[tactic(auto, unfolding(sb_grammar::specs::Options::more, sb_grammar::specs::Options::one, sb_grammar::specs::Words::fixed_at))]
fn activation_another(
    alloc: Global,
    left: u32,
    written: ActivationOptions,
    tokens: &[Lexeme],
) -> Result<(ActivationOptions, &[Lexeme]), Fault>
    ensures value { Gives (λ x. (x.0, x.1.now)) result ((more spec.activation_choices (suc left) written).reads tokens.now) }
    ensures shorter { IfOk result (λ x. length x.1.now ≤ length tokens.now) }
{
    let Some(_next) = activation_next(&written) else {
        return Ok((written, tokens));
    };
    if activation_needs(&written) {
        let (written, rest) = activation_one(alloc, written, expect(Fixed::Comma, tokens)?)?;
        return activation_more(alloc, left, written, rest);
    }
    match tokens {
        [t, rest @ ..] if is(Fixed::Comma, t) => {
            let (written, rest) = activation_one(alloc, written, rest)?;
            activation_more(alloc, left, written, rest)
        }
        _ => Ok((written, tokens)),
    }
}

/// The other options, so many at most.
#[cycle(activation)]
#[tactic(auto, unfolding(sb_grammar::specs::Options::more))]
fn activation_more(
    alloc: Global,
    left: u32,
    written: ActivationOptions,
    tokens: &[Lexeme],
) -> Result<(ActivationOptions, &[Lexeme]), Fault>
    ensures value { Gives (λ x. (x.0, x.1.now)) result ((more spec.activation_choices left written).reads tokens.now) }
    ensures shorter { IfOk result (λ x. length x.1.now ≤ length tokens.now) }
{
    if left == 0 {
        return Ok((written, tokens));
    }
    activation_another(alloc, left - 1, written, tokens)
}

fn activation_of(written: ActivationOptions) -> Option<Activation>
    ensures { result ≡ spec.activation_of written }
{
    let ActivationOptions {
        status,
        procedure,
        readers,
        execute: _,
    } = written;
    match (procedure, readers) {
        (Some(procedure), Some(readers)) => Some(Activation {
            on: status.unwrap_or(true),
            procedure,
            readers,
        }),
        _ => None,
    }
}

#[tactic(auto, unfolding(sb_grammar::specs::Definitions::activation, sb_grammar::specs::Options::options))]
pub(crate) fn activation(
    alloc: Global,
    tokens: &[Lexeme],
) -> Result<(Option<Activation>, &[Lexeme]), Fault>
    ensures value { Gives (λ x. (x.0, x.1.now)) result (spec.activation.reads tokens.now) }
    ensures shorter { IfOk result (λ x. length x.1.now ≤ length tokens.now) }
{
    let none = ActivationOptions {
        status: None,
        procedure: None,
        readers: None,
        execute: false,
    };
    let (written, rest) = activation_one(alloc, none, expect(Fixed::Open, tokens)?)?;
    let (written, rest) = activation_more(alloc, 3, written, rest)?;
    Ok((activation_of(written), expect(Fixed::Close, rest)?))
}
