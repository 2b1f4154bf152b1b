//! Routes.

ghost use Rattle.std.specs.Prelude.{◌≡◌, ◌≤◌, suc, length, IfOk};
ghost use Rattle.sb_parse.specs.Gives.{Gives};
ghost use Rattle.sb_grammar.specs.Options.{one, more};
ghost use Rattle.sb_grammar.specs.Definitions as spec;

use crate::address::address;
use crate::contracts::authorization;
use crate::fault::Fault;
use crate::value::{expect, handle_by, name, text};
use sb_grammar::{Barred, Fixed, Lexeme, RouteOption, RouteOptions, Statement, is};
use sb_lex::TokenKind;
use sb_log::{Ddl, Handle, RouteDef};
use std::alloc::Global;

#[tactic(auto, unfolding(sb_grammar::specs::Definitions::handle_of))]
fn handle_of(t: &Lexeme) -> Option<Handle>
    ensures { result ≡ spec.handle_of t.now }
{
    match t.kind {
        TokenKind::Text => handle_by(t.value.as_slice()),
        _ => None,
    }
}

fn handle(tokens: &[Lexeme]) -> Result<(Handle, &[Lexeme]), Fault>
    ensures value { Gives (λ x. (x.0, x.1.now)) result (spec.handle.reads tokens.now) }
    ensures shorter { IfOk result (λ x. length x.1.now ≤ length tokens.now) }
{
    match tokens {
        [] => Err(Fault::Bad(0)),
        [t, rest @ ..] => match handle_of(t) {
            Some(value) => Ok((value, rest)),
            None => Err(Fault::Bad(tokens.len())),
        },
    }
}

#[tactic(auto, unfolding(sb_grammar::specs::Definitions::route_bars))]
fn route_bars(t: &Lexeme) -> Option<Barred>
    ensures { result ≡ spec.route_bars spec.no_route_options t.now }
{
    if is(Fixed::Lifetime, t) {
        Some(Barred::Lifetime)
    } else if is(Fixed::MirrorAddress, t) {
        Some(Barred::MirrorAddress)
    } else {
        None
    }
}

#[tactic(auto, unfolding(sb_grammar::specs::Definitions::route_take))]
fn route_take(written: &RouteOptions, t: &Lexeme) -> Option<RouteOption>
    ensures { result ≡ spec.route_choices.take written.now t.now }
{
    if is(Fixed::ServiceName, t) && written.service.is_none() {
        Some(RouteOption::Service)
    } else if is(Fixed::BrokerInstance, t) && written.instance.is_none() {
        Some(RouteOption::Instance)
    } else if is(Fixed::Address, t) && written.address.is_none() {
        Some(RouteOption::Address)
    } else {
        None
    }
}

fn route_next(written: &RouteOptions) -> Option<RouteOption>
    ensures { result ≡ spec.route_choices.next written.now }
{
    if written.address.is_none() {
        Some(RouteOption::Address)
    } else if written.service.is_none() {
        Some(RouteOption::Service)
    } else if written.instance.is_none() {
        Some(RouteOption::Instance)
    } else {
        None
    }
}

fn route_needs(written: &RouteOptions) -> bool
    ensures { result ≡ spec.route_choices.needs written.now }
{
    written.address.is_none()
}

#[tactic(auto, unfolding(sb_grammar::specs::Definitions::route_value))]
fn route_value(
    alloc: Global,
    mut written: RouteOptions,
    option: RouteOption,
    tokens: &[Lexeme],
) -> Result<(RouteOptions, &[Lexeme]), Fault>
    ensures value { Gives (λ x. (x.0, x.1.now)) result ((spec.route_value written option).reads tokens.now) }
    ensures shorter { IfOk result (λ x. length x.1.now ≤ length tokens.now) }
{
    let rest = expect(Fixed::Equals, tokens)?;
    match option {
        RouteOption::Service => {
            let (service, rest) = text(alloc, rest)?;
            written.service = Some(service);
            Ok((written, rest))
        }
        RouteOption::Instance => {
            let (instance, rest) = handle(rest)?;
            written.instance = Some(instance);
            Ok((written, rest))
        }
        RouteOption::Address => {
            let (to, rest) = address(rest)?;
            written.address = Some(to);
            Ok((written, rest))
        }
    }
}

/// One more option.
#[tactic(auto, unfolding(sb_grammar::specs::Options::one, sb_grammar::specs::Definitions::route_bars))]
fn route_one(
    alloc: Global,
    written: RouteOptions,
    tokens: &[Lexeme],
) -> Result<(RouteOptions, &[Lexeme]), Fault>
    ensures value { Gives (λ x. (x.0, x.1.now)) result ((one spec.route_choices RouteOption.Address written).reads tokens.now) }
    ensures shorter { IfOk result (λ x. length x.1.now ≤ length tokens.now) }
{
    let [t, rest @ ..] = tokens else {
        return Err(Fault::Bad(0));
    };
    if let Some(word) = route_bars(t) {
        return Err(Fault::Unsupported(tokens.len(), word));
    }
    let Some(option) = route_take(&written, t) else {
        return Err(Fault::Bad(tokens.len()));
    };
    route_value(alloc, written, option, rest)
}

/// The other options, one more than so many at most.
#[cycle(route)]
#[tactic(auto, unfolding(sb_grammar::specs::Options::more, sb_grammar::specs::Options::one, sb_grammar::specs::Words::fixed_at))]
fn route_another(
    alloc: Global,
    left: u32,
    written: RouteOptions,
    tokens: &[Lexeme],
) -> Result<(RouteOptions, &[Lexeme]), Fault>
    ensures value { Gives (λ x. (x.0, x.1.now)) result ((more spec.route_choices (suc left) written).reads tokens.now) }
    ensures shorter { IfOk result (λ x. length x.1.now ≤ length tokens.now) }
{
    let Some(_next) = route_next(&written) else {
        return Ok((written, tokens));
    };
    if route_needs(&written) {
        let (written, rest) = route_one(alloc, written, expect(Fixed::Comma, tokens)?)?;
        return route_more(alloc, left, written, rest);
    }
    match tokens {
        [t, rest @ ..] if is(Fixed::Comma, t) => {
            let (written, rest) = route_one(alloc, written, rest)?;
            route_more(alloc, left, written, rest)
        }
        _ => Ok((written, tokens)),
    }
}

/// The other options, so many at most.
#[cycle(route)]
#[tactic(auto, unfolding(sb_grammar::specs::Options::more))]
fn route_more(
    alloc: Global,
    left: u32,
    written: RouteOptions,
    tokens: &[Lexeme],
) -> Result<(RouteOptions, &[Lexeme]), Fault>
    ensures value { Gives (λ x. (x.0, x.1.now)) result ((more spec.route_choices left written).reads tokens.now) }
    ensures shorter { IfOk result (λ x. length x.1.now ≤ length tokens.now) }
{
    if left == 0 {
        return Ok((written, tokens));
    }
    route_another(alloc, left - 1, written, tokens)
}

#[tactic(auto, unfolding(sb_grammar::specs::Definitions::route, sb_grammar::specs::Options::options))]
pub(crate) fn route(alloc: Global, tokens: &[Lexeme]) -> Result<(Statement, &[Lexeme]), Fault>
    ensures value { Gives (λ x. (x.0, x.1.now)) result (spec.route.reads tokens.now) }
    ensures shorter { IfOk result (λ x. length x.1.now ≤ length tokens.now) }
{
    let (name, rest) = name(alloc, tokens)?;
    let (_owner, rest) = authorization(alloc, rest)?;
    let none = RouteOptions {
        service: None,
        instance: None,
        address: None,
    };
    let (written, rest) = route_one(alloc, none, expect(Fixed::With, rest)?)?;
    let (written, rest) = route_more(alloc, 2, written, rest)?;
    let RouteOptions {
        service,
        instance,
        address,
    } = written;
    let route = RouteDef {
        name,
        service,
        instance,
        to: address.unwrap_or(None),
    };
    Ok((Statement::Define(Ddl::Route(route)), rest))
}
