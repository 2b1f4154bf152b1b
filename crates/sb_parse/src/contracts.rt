//! Message types, contracts and services.

ghost use Rattle.std.specs.Prelude.{◌≡◌, ◌≤◌, length, IfOk};
ghost use Rattle.sb_parse.specs.Gives.{Gives};
ghost use Rattle.sb_grammar.specs.Values as values;
ghost use Rattle.sb_grammar.specs.Definitions as spec;

use crate::fault::Fault;
use crate::value::{behind, expect, name, phrase, qname};
use sb_grammar::{Barred, Fixed, Lexeme, Statement, is};
use sb_log::{ContractDef, Ddl, Listed, MessageDef, Name, Sender, SentBy, ServiceDef};
use std::alloc::Global;

#[tactic(auto, unfolding(sb_grammar::specs::Definitions::authorization, sb_grammar::specs::Words::fixed_at))]
pub(crate) fn authorization(
    alloc: Global,
    tokens: &[Lexeme],
) -> Result<(Option<Name>, &[Lexeme]), Fault>
    ensures value { Gives (λ x. (x.0, x.1.now)) result (spec.authorization.reads tokens.now) }
    ensures shorter { IfOk result (λ x. length x.1.now ≤ length tokens.now) }
{
    match tokens {
        [t, rest @ ..] if is(Fixed::Authorization, t) => {
            let (name, rest) = name(alloc, rest)?;
            Ok((Some(name), rest))
        }
        _ => Ok((None, tokens)),
    }
}

#[tactic(auto, unfolding(sb_grammar::specs::Definitions::xml_of))]
fn xml_of(t: &Lexeme) -> Option<Barred>
    ensures { result ≡ spec.xml_of t.now }
{
    if is(Fixed::WellFormedXml, t) {
        Some(Barred::WellFormedXml)
    } else if is(Fixed::ValidXml, t) {
        Some(Barred::ValidXml)
    } else {
        None
    }
}

#[tactic(auto, unfolding(sb_grammar::specs::Definitions::empty_of))]
fn empty_of(t: &Lexeme) -> Option<bool>
    ensures { result ≡ spec.empty_of t.now }
{
    if is(Fixed::Nothing, t) {
        Some(false)
    } else if is(Fixed::Empty, t) {
        Some(true)
    } else {
        None
    }
}

#[tactic(auto, unfolding(sb_grammar::specs::Definitions::validation, sb_grammar::specs::Words::fixed_at))]
fn validation(tokens: &[Lexeme]) -> Result<(bool, &[Lexeme]), Fault>
    ensures value { Gives (λ x. (x.0, x.1.now)) result (spec.validation.reads tokens.now) }
    ensures shorter { IfOk result (λ x. length x.1.now ≤ length tokens.now) }
{
    match tokens {
        [t, rest @ ..] if is(Fixed::Validation, t) => empty(expect(Fixed::Equals, rest)?),
        _ => Ok((false, tokens)),
    }
}

fn empty(tokens: &[Lexeme]) -> Result<(bool, &[Lexeme]), Fault>
    ensures value { Gives (λ x. (x.0, x.1.now)) result (spec.empty.reads tokens.now) }
    ensures shorter { IfOk result (λ x. length x.1.now ≤ length tokens.now) }
{
    let [t, rest @ ..] = tokens else {
        return Err(Fault::Bad(0));
    };
    if let Some(word) = xml_of(t) {
        return Err(Fault::Unsupported(tokens.len(), word));
    }
    match empty_of(t) {
        Some(is_empty) => Ok((is_empty, rest)),
        None => Err(Fault::Bad(tokens.len())),
    }
}

#[tactic(auto, unfolding(sb_grammar::specs::Definitions::message))]
pub(crate) fn message(alloc: Global, tokens: &[Lexeme]) -> Result<(Statement, &[Lexeme]), Fault>
    ensures value { Gives (λ x. (x.0, x.1.now)) result (spec.message.reads tokens.now) }
    ensures shorter { IfOk result (λ x. length x.1.now ≤ length tokens.now) }
{
    let (name, rest) = name(alloc, expect(Fixed::Type, tokens)?)?;
    let (_owner, rest) = authorization(alloc, rest)?;
    let (empty, rest) = validation(rest)?;
    Ok((
        Statement::Define(Ddl::MessageType(MessageDef { name, empty })),
        rest,
    ))
}

#[tactic(auto, unfolding(sb_grammar::specs::Definitions::sender_of))]
fn sender_of(t: &Lexeme) -> Option<Sender>
    ensures { result ≡ spec.sender_of t.now }
{
    if is(Fixed::Initiator, t) {
        Some(Sender::Initiator)
    } else if is(Fixed::Target, t) {
        Some(Sender::Target)
    } else if is(Fixed::Any, t) {
        Some(Sender::Any)
    } else {
        None
    }
}

fn sender(tokens: &[Lexeme]) -> Result<(Sender, &[Lexeme]), Fault>
    ensures value { Gives (λ x. (x.0, x.1.now)) result (spec.sender.reads tokens.now) }
    ensures shorter { IfOk result (λ x. length x.1.now ≤ length tokens.now) }
{
    match tokens {
        [] => Err(Fault::Bad(0)),
        [t, rest @ ..] => match sender_of(t) {
            Some(value) => Ok((value, rest)),
            None => Err(Fault::Bad(tokens.len())),
        },
    }
}

#[tactic(auto, unfolding(sb_grammar::specs::Definitions::sent_by))]
fn sent_by(alloc: Global, tokens: &[Lexeme]) -> Result<(SentBy, &[Lexeme]), Fault>
    ensures value { Gives (λ x. (x.0, x.1.now)) result (spec.sent_by.reads tokens.now) }
    ensures shorter { IfOk result (λ x. length x.1.now ≤ length tokens.now) }
{
    let (kind, rest) = name(alloc, tokens)?;
    let rest = phrase(&[Fixed::Sent, Fixed::By], rest)?;
    let (by, rest) = sender(rest)?;
    Ok((SentBy { kind, by }, rest))
}

#[tactic(auto, unfolding(sb_grammar::specs::Definitions::commas))]
fn sent_bys(alloc: Global, tokens: &[Lexeme]) -> Result<(Listed<SentBy>, &[Lexeme]), Fault>
    ensures value { Gives (λ x. (x.0, x.1.now)) result ((spec.commas spec.sent_by).reads tokens.now) }
    ensures shorter { IfOk result (λ x. length x.1.now ≤ length tokens.now) }
{
    let (first, mut rest) = sent_by(alloc, tokens)?;
    let mut all = Listed::new(alloc);
    all.push(first)?;
    'members: while let Some(more) = behind(Fixed::Comma, rest) {
        let (next, after) = sent_by(alloc, more)?;
        all.push(next)?;
        rest = after;
    }
    Ok((all, rest))
}

#[tactic(auto, unfolding(sb_grammar::specs::Definitions::commas))]
fn names(alloc: Global, tokens: &[Lexeme]) -> Result<(Listed<Name>, &[Lexeme]), Fault>
    ensures value { Gives (λ x. (x.0, x.1.now)) result ((spec.commas values.name).reads tokens.now) }
    ensures shorter { IfOk result (λ x. length x.1.now ≤ length tokens.now) }
{
    let (first, mut rest) = name(alloc, tokens)?;
    let mut all = Listed::new(alloc);
    all.push(first)?;
    'members: while let Some(more) = behind(Fixed::Comma, rest) {
        let (next, after) = name(alloc, more)?;
        all.push(next)?;
        rest = after;
    }
    Ok((all, rest))
}

#[tactic(auto, unfolding(sb_grammar::specs::Definitions::contract))]
pub(crate) fn contract(alloc: Global, tokens: &[Lexeme]) -> Result<(Statement, &[Lexeme]), Fault>
    ensures value { Gives (λ x. (x.0, x.1.now)) result (spec.contract.reads tokens.now) }
    ensures shorter { IfOk result (λ x. length x.1.now ≤ length tokens.now) }
{
    let (name, rest) = name(alloc, tokens)?;
    let (_owner, rest) = authorization(alloc, rest)?;
    let (types, rest) = sent_bys(alloc, expect(Fixed::Open, rest)?)?;
    let rest = expect(Fixed::Close, rest)?;
    Ok((
        Statement::Define(Ddl::Contract(ContractDef { name, types })),
        rest,
    ))
}

#[tactic(auto, unfolding(sb_grammar::specs::Definitions::contracts_part, sb_grammar::specs::Words::fixed_at))]
fn contracts_part(alloc: Global, tokens: &[Lexeme]) -> Result<(Listed<Name>, &[Lexeme]), Fault>
    ensures value { Gives (λ x. (x.0, x.1.now)) result (spec.contracts_part.reads tokens.now) }
    ensures shorter { IfOk result (λ x. length x.1.now ≤ length tokens.now) }
{
    match tokens {
        [t, rest @ ..] if is(Fixed::Open, t) => {
            let (names, rest) = names(alloc, rest)?;
            Ok((names, expect(Fixed::Close, rest)?))
        }
        _ => Ok((Listed::new(alloc), tokens)),
    }
}

#[tactic(auto, unfolding(sb_grammar::specs::Definitions::service))]
pub(crate) fn service(alloc: Global, tokens: &[Lexeme]) -> Result<(Statement, &[Lexeme]), Fault>
    ensures value { Gives (λ x. (x.0, x.1.now)) result (spec.service.reads tokens.now) }
    ensures shorter { IfOk result (λ x. length x.1.now ≤ length tokens.now) }
{
    let (name, rest) = name(alloc, tokens)?;
    let (_owner, rest) = authorization(alloc, rest)?;
    let rest = phrase(&[Fixed::On, Fixed::Queue], rest)?;
    let (queue, rest) = qname(alloc, rest)?;
    let (contracts, rest) = contracts_part(alloc, rest)?;
    let service = ServiceDef {
        name,
        queue,
        contracts,
    };
    Ok((Statement::Define(Ddl::Service(service)), rest))
}
