//! Priorities.

ghost use Rattle.std.specs.Prelude.{◌≡◌, ◌≤◌, suc, length, IfOk};
ghost use Rattle.sb_parse.specs.Gives.{Gives};
ghost use Rattle.sb_grammar.specs.Options.{one, more};
ghost use Rattle.sb_grammar.specs.Definitions as spec;

use crate::fault::Fault;
use crate::value::{expect, name, name_of, number_of, phrase, text_of};
use sb_grammar::{Fixed, Lexeme, PriorityOption, PriorityOptions, Statement, is};
use sb_log::{Ddl, Name, PriorityDef, Text};
use std::alloc::{AllocError, Global};

#[tactic(auto, unfolding(sb_grammar::specs::Definitions::any_name_of))]
fn any_name_of(alloc: Global, t: &Lexeme) -> Result<Option<Option<Name>>, AllocError>
    ensures { IfOk result (λ o. o ≡ spec.any_name_of t.now) }
{
    if is(Fixed::Any, t) {
        return Ok(Some(None));
    }
    match name_of(alloc, t)? {
        Some(name) => Ok(Some(Some(name))),
        None => Ok(None),
    }
}

#[tactic(auto, unfolding(sb_grammar::specs::Definitions::any_text_of))]
fn any_text_of(alloc: Global, t: &Lexeme) -> Result<Option<Option<Text>>, AllocError>
    ensures { IfOk result (λ o. o ≡ spec.any_text_of t.now) }
{
    if is(Fixed::Any, t) {
        return Ok(Some(None));
    }
    match text_of(alloc, t)? {
        Some(text) => Ok(Some(Some(text))),
        None => Ok(None),
    }
}

#[tactic(auto, unfolding(sb_grammar::specs::Definitions::level_of))]
fn level_of(t: &Lexeme) -> Option<i64>
    ensures { result ≡ spec.level_of t.now }
{
    if is(Fixed::Default, t) {
        Some(5)
    } else {
        number_of(t)
    }
}

fn any_name(alloc: Global, tokens: &[Lexeme]) -> Result<(Option<Name>, &[Lexeme]), Fault>
    ensures value { Gives (λ x. (x.0, x.1.now)) result (spec.any_name.reads tokens.now) }
    ensures shorter { IfOk result (λ x. length x.1.now ≤ length tokens.now) }
{
    match tokens {
        [] => Err(Fault::Bad(0)),
        [t, rest @ ..] => match any_name_of(alloc, t)? {
            Some(value) => Ok((value, rest)),
            None => Err(Fault::Bad(tokens.len())),
        },
    }
}

fn any_text(alloc: Global, tokens: &[Lexeme]) -> Result<(Option<Text>, &[Lexeme]), Fault>
    ensures value { Gives (λ x. (x.0, x.1.now)) result (spec.any_text.reads tokens.now) }
    ensures shorter { IfOk result (λ x. length x.1.now ≤ length tokens.now) }
{
    match tokens {
        [] => Err(Fault::Bad(0)),
        [t, rest @ ..] => match any_text_of(alloc, t)? {
            Some(value) => Ok((value, rest)),
            None => Err(Fault::Bad(tokens.len())),
        },
    }
}

fn level(tokens: &[Lexeme]) -> Result<(i64, &[Lexeme]), Fault>
    ensures value { Gives (λ x. (x.0, x.1.now)) result (spec.level.reads tokens.now) }
    ensures shorter { IfOk result (λ x. length x.1.now ≤ length tokens.now) }
{
    match tokens {
        [] => Err(Fault::Bad(0)),
        [t, rest @ ..] => match level_of(t) {
            Some(value) => Ok((value, rest)),
            None => Err(Fault::Bad(tokens.len())),
        },
    }
}

#[tactic(auto, unfolding(sb_grammar::specs::Definitions::priority_take))]
fn priority_take(written: &PriorityOptions, t: &Lexeme) -> Option<PriorityOption>
    ensures { result ≡ spec.priority_choices.take written.now t.now }
{
    if is(Fixed::ContractName, t) && written.contract.is_none() {
        Some(PriorityOption::Contract)
    } else if is(Fixed::LocalServiceName, t) && written.local.is_none() {
        Some(PriorityOption::Local)
    } else if is(Fixed::RemoteServiceName, t) && written.remote.is_none() {
        Some(PriorityOption::Remote)
    } else if is(Fixed::PriorityLevel, t) && written.level.is_none() {
        Some(PriorityOption::Level)
    } else {
        None
    }
}

fn priority_next(written: &PriorityOptions) -> Option<PriorityOption>
    ensures { result ≡ spec.priority_choices.next written.now }
{
    if written.contract.is_none() {
        Some(PriorityOption::Contract)
    } else if written.local.is_none() {
        Some(PriorityOption::Local)
    } else if written.remote.is_none() {
        Some(PriorityOption::Remote)
    } else if written.level.is_none() {
        Some(PriorityOption::Level)
    } else {
        None
    }
}

#[tactic(auto, unfolding(sb_grammar::specs::Definitions::priority_value))]
fn priority_value(
    alloc: Global,
    mut written: PriorityOptions,
    option: PriorityOption,
    tokens: &[Lexeme],
) -> Result<(PriorityOptions, &[Lexeme]), Fault>
    ensures value { Gives (λ x. (x.0, x.1.now)) result ((spec.priority_value written option).reads tokens.now) }
    ensures shorter { IfOk result (λ x. length x.1.now ≤ length tokens.now) }
{
    let rest = expect(Fixed::Equals, tokens)?;
    match option {
        PriorityOption::Contract => {
            let (contract, rest) = any_name(alloc, rest)?;
            written.contract = Some(contract);
            Ok((written, rest))
        }
        PriorityOption::Local => {
            let (local, rest) = any_name(alloc, rest)?;
            written.local = Some(local);
            Ok((written, rest))
        }
        PriorityOption::Remote => {
            let (remote, rest) = any_text(alloc, rest)?;
            written.remote = Some(remote);
            Ok((written, rest))
        }
        PriorityOption::Level => {
            let (level, rest) = level(rest)?;
            written.level = Some(level);
            Ok((written, rest))
        }
    }
}

/// One more option.
#[tactic(auto, unfolding(sb_grammar::specs::Options::one))]
fn priority_one(
    alloc: Global,
    written: PriorityOptions,
    tokens: &[Lexeme],
) -> Result<(PriorityOptions, &[Lexeme]), Fault>
    ensures value { Gives (λ x. (x.0, x.1.now)) result ((one spec.priority_choices PriorityOption.Contract written).reads tokens.now) }
    ensures shorter { IfOk result (λ x. length x.1.now ≤ length tokens.now) }
{
    let [t, rest @ ..] = tokens else {
        return Err(Fault::Bad(0));
    };
    let Some(option) = priority_take(&written, t) else {
        return Err(Fault::Bad(tokens.len()));
    };
    priority_value(alloc, written, option, rest)
}

/// The other options, one more than so many at most.
#[cycle(priority)]
#[tactic(auto, unfolding(sb_grammar::specs::Options::more, sb_grammar::specs::Options::one, sb_grammar::specs::Words::fixed_at))]
fn priority_another(
    alloc: Global,
    left: u32,
    written: PriorityOptions,
    tokens: &[Lexeme],
) -> Result<(PriorityOptions, &[Lexeme]), Fault>
    ensures value { Gives (λ x. (x.0, x.1.now)) result ((more spec.priority_choices (suc left) written).reads tokens.now) }
    ensures shorter { IfOk result (λ x. length x.1.now ≤ length tokens.now) }
{
    let Some(_next) = priority_next(&written) else {
        return Ok((written, tokens));
    };
    match tokens {
        [t, rest @ ..] if is(Fixed::Comma, t) => {
            let (written, rest) = priority_one(alloc, written, rest)?;
            priority_more(alloc, left, written, rest)
        }
        _ => Ok((written, tokens)),
    }
}

/// The other options, so many at most.
#[cycle(priority)]
#[tactic(auto, unfolding(sb_grammar::specs::Options::more))]
fn priority_more(
    alloc: Global,
    left: u32,
    written: PriorityOptions,
    tokens: &[Lexeme],
) -> Result<(PriorityOptions, &[Lexeme]), Fault>
    ensures value { Gives (λ x. (x.0, x.1.now)) result ((more spec.priority_choices left written).reads tokens.now) }
    ensures shorter { IfOk result (λ x. length x.1.now ≤ length tokens.now) }
{
    if left == 0 {
        return Ok((written, tokens));
    }
    priority_another(alloc, left - 1, written, tokens)
}

#[tactic(auto, unfolding(sb_grammar::specs::Definitions::priority_options, sb_grammar::specs::Options::options, sb_grammar::specs::Words::fixed_at))]
fn priority_options(alloc: Global, tokens: &[Lexeme]) -> Result<(PriorityOptions, &[Lexeme]), Fault>
    ensures value { Gives (λ x. (x.0, x.1.now)) result (spec.priority_options.reads tokens.now) }
    ensures shorter { IfOk result (λ x. length x.1.now ≤ length tokens.now) }
{
    let none = PriorityOptions {
        contract: None,
        local: None,
        remote: None,
        level: None,
    };
    match tokens {
        [t, rest @ ..] if is(Fixed::Set, t) => {
            let (written, rest) = priority_one(alloc, none, expect(Fixed::Open, rest)?)?;
            let (written, rest) = priority_more(alloc, 3, written, rest)?;
            Ok((written, expect(Fixed::Close, rest)?))
        }
        _ => Ok((none, tokens)),
    }
}

#[tactic(auto, unfolding(sb_grammar::specs::Definitions::priority))]
pub(crate) fn priority(alloc: Global, tokens: &[Lexeme]) -> Result<(Statement, &[Lexeme]), Fault>
    ensures value { Gives (λ x. (x.0, x.1.now)) result (spec.priority.reads tokens.now) }
    ensures shorter { IfOk result (λ x. length x.1.now ≤ length tokens.now) }
{
    let (name, rest) = name(alloc, expect(Fixed::Priority, tokens)?)?;
    let rest = phrase(&[Fixed::For, Fixed::Conversation], rest)?;
    let (written, rest) = priority_options(alloc, rest)?;
    let PriorityOptions {
        contract,
        local,
        remote,
        level,
    } = written;
    let priority = PriorityDef {
        name,
        contract: contract.unwrap_or(None),
        local: local.unwrap_or(None),
        remote: remote.unwrap_or(None),
        level: level.unwrap_or(5),
    };
    Ok((Statement::Define(Ddl::Priority(priority)), rest))
}
