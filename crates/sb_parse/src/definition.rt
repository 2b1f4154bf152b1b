//! Definitions.

ghost use Rattle.std.specs.Prelude.{◌≡◌, ◌≤◌, length, IfOk};
ghost use Rattle.sb_parse.specs.Gives.{Gives};
ghost use Rattle.sb_grammar.specs.Definitions as spec;

use crate::contracts::{contract, message, service};
use crate::fault::Fault;
use crate::priorities::priority;
use crate::queues::queue;
use crate::routes::route;
use crate::value::{expect, on_off, phrase, qname};
use sb_grammar::{Fixed, Lexeme, Made, Statement, is};
use sb_log::{Ddl, TableDef};
use std::alloc::Global;

#[tactic(auto, unfolding(sb_grammar::specs::Definitions::table))]
fn table(alloc: Global, tokens: &[Lexeme]) -> Result<(Statement, &[Lexeme]), Fault>
    ensures value { Gives (λ x. (x.0, x.1.now)) result (spec.table.reads tokens.now) }
    ensures shorter { IfOk result (λ x. length x.1.now ≤ length tokens.now) }
{
    let (name, rest) = qname(alloc, tokens)?;
    let columns = [
        Fixed::Open,
        Fixed::Id,
        Fixed::BigInt,
        Fixed::Primary,
        Fixed::Key,
        Fixed::Comma,
        Fixed::N,
        Fixed::BigInt,
        Fixed::Comma,
        Fixed::Body,
        Fixed::NVarChar,
        Fixed::Open,
        Fixed::Max,
        Fixed::Close,
        Fixed::Close,
    ];
    let rest = phrase(&columns, rest)?;
    Ok((Statement::Define(Ddl::Table(TableDef { name })), rest))
}

#[tactic(auto, unfolding(sb_grammar::specs::Definitions::made_of))]
fn made_of(t: &Lexeme) -> Option<Made>
    ensures { result ≡ spec.made_of t.now }
{
    if is(Fixed::Message, t) {
        Some(Made::Message)
    } else if is(Fixed::Contract, t) {
        Some(Made::Contract)
    } else if is(Fixed::Queue, t) {
        Some(Made::Queue)
    } else if is(Fixed::Service, t) {
        Some(Made::Service)
    } else if is(Fixed::Route, t) {
        Some(Made::Route)
    } else if is(Fixed::Broker, t) {
        Some(Made::Broker)
    } else if is(Fixed::Table, t) {
        Some(Made::Table)
    } else {
        None
    }
}

fn made_by(alloc: Global, made: Made, tokens: &[Lexeme]) -> Result<(Statement, &[Lexeme]), Fault>
    ensures value { Gives (λ x. (x.0, x.1.now)) result ((spec.made_by made).reads tokens.now) }
    ensures shorter { IfOk result (λ x. length x.1.now ≤ length tokens.now) }
{
    match made {
        Made::Message => message(alloc, tokens),
        Made::Contract => contract(alloc, tokens),
        Made::Queue => queue(alloc, tokens),
        Made::Service => service(alloc, tokens),
        Made::Route => route(alloc, tokens),
        Made::Broker => priority(alloc, tokens),
        Made::Table => table(alloc, tokens),
    }
}

/// Behind CREATE.
#[tactic(auto, unfolding(sb_grammar::specs::Definitions::create_rest))]
pub(crate) fn create(alloc: Global, tokens: &[Lexeme]) -> Result<(Statement, &[Lexeme]), Fault>
    ensures value { Gives (λ x. (x.0, x.1.now)) result (spec.create_rest.reads tokens.now) }
    ensures shorter { IfOk result (λ x. length x.1.now ≤ length tokens.now) }
{
    let [t, rest @ ..] = tokens else {
        return Err(Fault::Bad(0));
    };
    match made_of(t) {
        Some(made) => made_by(alloc, made, rest),
        None => Err(Fault::Bad(tokens.len())),
    }
}

/// Behind ALTER.
#[tactic(auto, unfolding(sb_grammar::specs::Definitions::alter_rest))]
pub(crate) fn alter(alloc: Global, tokens: &[Lexeme]) -> Result<(Statement, &[Lexeme]), Fault>
    ensures value { Gives (λ x. (x.0, x.1.now)) result (spec.alter_rest.reads tokens.now) }
    ensures shorter { IfOk result (λ x. length x.1.now ≤ length tokens.now) }
{
    let (queue, rest) = qname(alloc, expect(Fixed::Queue, tokens)?)?;
    let rest = phrase(&[Fixed::With, Fixed::Status, Fixed::Equals], rest)?;
    let (on, rest) = on_off(rest)?;
    Ok((Statement::AlterQueue { queue, on }, rest))
}
