//! The address of a route.

ghost use Rattle.std.specs.Prelude.{◌≡◌, ◌≤◌, length, IfOk};
ghost use Rattle.std.specs.List.{list_all};
ghost use Rattle.std.specs.Char.{is_ascii_digit};
ghost use Rattle.sb_parse.specs.Gives.{Gives};
ghost use Rattle.sb_grammar.specs.Definitions as spec;

use crate::fault::Fault;
use sb_grammar::{Barred, Lexeme};
use sb_lex::TokenKind;
use sb_log::Who;

/// The instance that a host of a route names.
fn host_of(host: &[u8]) -> Option<Option<Who>>
    ensures { result ≡ spec.host_of host.now }
{
    if host == b"A:".as_slice() {
        Some(Some(Who::A))
    } else if host == b"B:".as_slice() {
        Some(Some(Who::B))
    } else {
        None
    }
}

fn are_digits(bytes: &[u8]) -> bool
    ensures { result ≡ list_all is_ascii_digit bytes.now }
{
    bytes.iter().all(|byte| byte.is_ascii_digit())
}

#[tactic(auto, using(crate::proofs::Ports::some_port))]
fn is_port(port: &[u8]) -> bool
    ensures { result ≡ spec.is_port port.now }
{
    match port {
        [] => false,
        _ => are_digits(port),
    }
}

/// `TCP://A:port` or `TCP://B:port`.
fn tcp_host(value: &[u8]) -> Option<Option<Who>>
    ensures { result ≡ spec.tcp_host value.now }
{
    if value.len() < 8 {
        return None;
    }
    if value[..6].eq_ignore_ascii_case(b"TCP://") && is_port(&value[8..]) {
        host_of(&value[6..8])
    } else {
        None
    }
}

fn address_by(value: &[u8]) -> Option<Option<Who>>
    ensures { result ≡ spec.address_by value.now }
{
    if value == b"LOCAL".as_slice() {
        return Some(None);
    }
    tcp_host(value)
}

#[tactic(auto, unfolding(sb_grammar::specs::Definitions::address_of))]
fn address_of(t: &Lexeme) -> Option<Option<Who>>
    ensures { result ≡ spec.address_of t.now }
{
    match t.kind {
        TokenKind::Text => address_by(t.value.as_slice()),
        _ => None,
    }
}

#[tactic(auto, unfolding(sb_grammar::specs::Definitions::transport_of))]
fn transport_of(t: &Lexeme) -> Option<Barred>
    ensures { result ≡ spec.transport_of t.now }
{
    match t.kind {
        TokenKind::Text => {
            if t.value.as_slice() == b"TRANSPORT".as_slice() {
                Some(Barred::Transport)
            } else {
                None
            }
        }
        _ => None,
    }
}

pub(crate) fn address(tokens: &[Lexeme]) -> Result<(Option<Who>, &[Lexeme]), Fault>
    ensures value { Gives (λ x. (x.0, x.1.now)) result (spec.address.reads tokens.now) }
    ensures shorter { IfOk result (λ x. length x.1.now ≤ length tokens.now) }
{
    let [t, rest @ ..] = tokens else {
        return Err(Fault::Bad(0));
    };
    if let Some(word) = transport_of(t) {
        return Err(Fault::Unsupported(tokens.len(), word));
    }
    match address_of(t) {
        Some(to) => Ok((to, rest)),
        None => Err(Fault::Bad(tokens.len())),
    }
}
