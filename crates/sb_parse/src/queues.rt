//! Queues.

ghost use Rattle.std.specs.Prelude.{◌≡◌, ◌≤◌, suc, length, IfOk};
ghost use Rattle.sb_parse.specs.Gives.{Gives};
ghost use Rattle.sb_grammar.specs.Options.{one, more};
ghost use Rattle.sb_grammar.specs.Definitions as spec;

use crate::activation::activation;
use crate::fault::Fault;
use crate::value::{expect, on_off, phrase, qname};
use sb_grammar::{Barred, Fixed, Lexeme, QueueOption, QueueOptions, Statement, is};
use sb_log::{Ddl, QueueDef};
use std::alloc::Global;

#[tactic(auto, unfolding(sb_grammar::specs::Definitions::retention_of))]
fn retention_of(t: &Lexeme) -> Option<Barred>
    ensures { result ≡ spec.retention_of t.now }
{
    if is(Fixed::On, t) {
        Some(Barred::On)
    } else {
        None
    }
}

/// OFF, where ON isn't supported.
fn off(tokens: &[Lexeme]) -> Result<&[Lexeme], Fault>
    ensures value { Gives (λ rest. (tt, rest.now)) result (spec.retention.reads tokens.now) }
    ensures shorter { IfOk result (λ rest. length rest.now ≤ length tokens.now) }
{
    if let [t, ..] = tokens {
        if let Some(word) = retention_of(t) {
            return Err(Fault::Unsupported(tokens.len(), word));
        }
    }
    expect(Fixed::Off, tokens)
}

#[tactic(auto, unfolding(sb_grammar::specs::Definitions::queue_take))]
fn queue_take(written: &QueueOptions, t: &Lexeme) -> Option<QueueOption>
    ensures { result ≡ spec.queue_choices.take written.now t.now }
{
    if is(Fixed::Status, t) && written.status.is_none() {
        Some(QueueOption::Status)
    } else if is(Fixed::Retention, t) && !written.retention {
        Some(QueueOption::Retention)
    } else if is(Fixed::Activation, t) && written.activation.is_none() {
        Some(QueueOption::Activation)
    } else if is(Fixed::PoisonMessageHandling, t) && written.poison.is_none() {
        Some(QueueOption::Poison)
    } else {
        None
    }
}

fn queue_next(written: &QueueOptions) -> Option<QueueOption>
    ensures { result ≡ spec.queue_choices.next written.now }
{
    if written.status.is_none() {
        Some(QueueOption::Status)
    } else if !written.retention {
        Some(QueueOption::Retention)
    } else if written.activation.is_none() {
        Some(QueueOption::Activation)
    } else if written.poison.is_none() {
        Some(QueueOption::Poison)
    } else {
        None
    }
}

#[tactic(auto, unfolding(sb_grammar::specs::Definitions::queue_value))]
fn queue_value(
    alloc: Global,
    mut written: QueueOptions,
    option: QueueOption,
    tokens: &[Lexeme],
) -> Result<(QueueOptions, &[Lexeme]), Fault>
    ensures value { Gives (λ x. (x.0, x.1.now)) result ((spec.queue_value written option).reads tokens.now) }
    ensures shorter { IfOk result (λ x. length x.1.now ≤ length tokens.now) }
{
    match option {
        QueueOption::Status => {
            let (on, rest) = on_off(expect(Fixed::Equals, tokens)?)?;
            written.status = Some(on);
            Ok((written, rest))
        }
        QueueOption::Retention => {
            let rest = off(expect(Fixed::Equals, tokens)?)?;
            written.retention = true;
            Ok((written, rest))
        }
        QueueOption::Activation => {
            let (activation, rest) = activation(alloc, tokens)?;
            written.activation = Some(activation);
            Ok((written, rest))
        }
        QueueOption::Poison => {
            let rest = phrase(&[Fixed::Open, Fixed::Status, Fixed::Equals], tokens)?;
            let (on, rest) = on_off(rest)?;
            written.poison = Some(on);
            Ok((written, expect(Fixed::Close, rest)?))
        }
    }
}

/// One more option.
#[tactic(auto, unfolding(sb_grammar::specs::Options::one))]
fn queue_one(
    alloc: Global,
    written: QueueOptions,
    tokens: &[Lexeme],
) -> Result<(QueueOptions, &[Lexeme]), Fault>
    ensures value { Gives (λ x. (x.0, x.1.now)) result ((one spec.queue_choices QueueOption.Status written).reads tokens.now) }
    ensures shorter { IfOk result (λ x. length x.1.now ≤ length tokens.now) }
{
    let [t, rest @ ..] = tokens else {
        return Err(Fault::Bad(0));
    };
    let Some(option) = queue_take(&written, t) else {
        return Err(Fault::Bad(tokens.len()));
    };
    queue_value(alloc, written, option, rest)
}

/// The other options, one more than so many at most.
#[cycle(queue)]
#[tactic(auto, unfolding(sb_grammar::specs::Options::more, sb_grammar::specs::Options::one, sb_grammar::specs::Words::fixed_at))]
fn queue_another(
    alloc: Global,
    left: u32,
    written: QueueOptions,
    tokens: &[Lexeme],
) -> Result<(QueueOptions, &[Lexeme]), Fault>
    ensures value { Gives (λ x. (x.0, x.1.now)) result ((more spec.queue_choices (suc left) written).reads tokens.now) }
    ensures shorter { IfOk result (λ x. length x.1.now ≤ length tokens.now) }
{
    let Some(_next) = queue_next(&written) else {
        return Ok((written, tokens));
    };
    match tokens {
        [t, rest @ ..] if is(Fixed::Comma, t) => {
            let (written, rest) = queue_one(alloc, written, rest)?;
            queue_more(alloc, left, written, rest)
        }
        _ => Ok((written, tokens)),
    }
}

/// The other options, so many at most.
#[cycle(queue)]
#[tactic(auto, unfolding(sb_grammar::specs::Options::more))]
fn queue_more(
    alloc: Global,
    left: u32,
    written: QueueOptions,
    tokens: &[Lexeme],
) -> Result<(QueueOptions, &[Lexeme]), Fault>
    ensures value { Gives (λ x. (x.0, x.1.now)) result ((more spec.queue_choices left written).reads tokens.now) }
    ensures shorter { IfOk result (λ x. length x.1.now ≤ length tokens.now) }
{
    if left == 0 {
        return Ok((written, tokens));
    }
    queue_another(alloc, left - 1, written, tokens)
}

#[tactic(auto, unfolding(sb_grammar::specs::Definitions::queue_options, sb_grammar::specs::Options::options, sb_grammar::specs::Words::fixed_at))]
fn queue_options(alloc: Global, tokens: &[Lexeme]) -> Result<(QueueOptions, &[Lexeme]), Fault>
    ensures value { Gives (λ x. (x.0, x.1.now)) result (spec.queue_options.reads tokens.now) }
    ensures shorter { IfOk result (λ x. length x.1.now ≤ length tokens.now) }
{
    let none = QueueOptions {
        status: None,
        retention: false,
        activation: None,
        poison: None,
    };
    match tokens {
        [t, rest @ ..] if is(Fixed::With, t) => {
            let (written, rest) = queue_one(alloc, none, rest)?;
            queue_more(alloc, 3, written, rest)
        }
        _ => Ok((none, tokens)),
    }
}

#[tactic(auto, unfolding(sb_grammar::specs::Definitions::queue))]
pub(crate) fn queue(alloc: Global, tokens: &[Lexeme]) -> Result<(Statement, &[Lexeme]), Fault>
    ensures value { Gives (λ x. (x.0, x.1.now)) result (spec.queue.reads tokens.now) }
    ensures shorter { IfOk result (λ x. length x.1.now ≤ length tokens.now) }
{
    let (name, rest) = qname(alloc, tokens)?;
    let (written, rest) = queue_options(alloc, rest)?;
    let QueueOptions {
        status,
        retention: _,
        activation,
        poison,
    } = written;
    let queue = QueueDef {
        name,
        on: status.unwrap_or(true),
        poison: poison.unwrap_or(true),
        activation: activation.unwrap_or(None),
    };
    Ok((Statement::Define(Ddl::Queue(queue)), rest))
}
