//! What single tokens stand for.

ghost use Rattle.std.specs.Prelude.{◌≡◌, ◌≤◌, ◌<◌, ◌^◌, min, IfOk, IfSome, MatchOption, None, true, false, is_some, length, fold};
ghost use Rattle.std.specs.Str.{is_utf8};
ghost use Rattle.std.specs.List.{list_any};
ghost use Rattle.sb_grammar.specs.Rules.{head};
ghost use Rattle.sb_grammar.specs.Words.{is_fixed, fixed_at};
ghost use Rattle.sb_parse.specs.Gives.{Gives};
ghost use Rattle.sb_parse.specs.Past.{Behind};
ghost use Rattle.sb_grammar.specs.Values as spec;

use crate::fault::Fault;
use sb_grammar::{BrokerInstance, Fixed, KindWord, Lexeme, is};
use sb_lex::TokenKind;
use sb_log::{Handle, Name, NameRefused, Text, ValueKind};
use std::alloc::{AllocError, Global};

/// Past a fixed word or sign.
#[tactic(auto, unfolding(sb_grammar::specs::Words::fixed_at))]
pub(crate) fn expect(fixed: Fixed, tokens: &[Lexeme]) -> Result<&[Lexeme], Fault>
    ensures value { Gives (λ rest. (tt, rest.now)) result ((spec.sign fixed).reads tokens.now) }
    ensures shorter { IfOk result (λ rest. length rest.now ≤ length tokens.now) }
{
    match tokens {
        [t, rest @ ..] if is(fixed, t) => Ok(rest),
        _ => Err(Fault::Bad(tokens.len())),
    }
}

/// Behind a word or sign, if it stands first.
#[tactic(auto, unfolding(sb_grammar::specs::Words::fixed_at), using(crate::proofs::Members::behind_cut))]
pub(crate) fn behind(fixed: Fixed, tokens: &[Lexeme]) -> Option<&[Lexeme]>
    ensures parts { MatchOption result (head (fixed_at fixed) tokens.now ≡ None) (λ rest. Behind fixed tokens.now rest.now) }
    ensures shorter { IfSome result (λ rest. length rest.now < length tokens.now) }
{
    match tokens {
        [t, rest @ ..] if is(fixed, t) => Some(rest),
        _ => None,
    }
}

/// Past fixed words and signs.
#[tactic(auto, unfolding(sb_grammar::specs::Values::phrase))]
pub(crate) fn phrase<'a>(words: &[Fixed], tokens: &'a [Lexeme]) -> Result<&'a [Lexeme], Fault>
    ensures value { Gives (λ rest. (tt, rest.now)) result ((spec.phrase words.now).reads tokens.now) }
    ensures shorter { IfOk result (λ rest. length rest.now ≤ length tokens.now) }
{
    match words {
        [] => Ok(tokens),
        [word, more @ ..] => phrase(more, expect(*word, tokens)?),
    }
}

/// The bytes as a text, if they are in UTF-8.
#[tactic(auto, using(crate::proofs::Utf8::utf8_true, crate::proofs::Utf8::utf8_false))]
fn utf8(bytes: &[u8]) -> Option<&str>
    ensures { MatchOption result (is_utf8 bytes.now ≡ false) (λ s. (s.now ≡ bytes.now) × (is_utf8 bytes.now ≡ true)) }
{
    match std::str::from_utf8(bytes) {
        Ok(text) => Some(text),
        Err(_) => None,
    }
}

pub(crate) fn text_by(alloc: Global, bytes: &[u8]) -> Result<Option<Text>, AllocError>
    ensures { IfOk result (λ o. o ≡ spec.text_by bytes.now) }
{
    match utf8(bytes) {
        None => Ok(None),
        Some(text) => Ok(Some(Text::from_string(String::from_str(alloc, text)?))),
    }
}

fn named(alloc: Global, bytes: &[u8]) -> Result<Option<Name>, AllocError>
    ensures { IfOk result (λ o. o ≡ spec.named bytes.now) }
{
    let Some(text) = utf8(bytes) else {
        return Ok(None);
    };
    match Name::new(alloc, text) {
        Ok(name) => Ok(Some(name)),
        Err(NameRefused::OutOfMemory) => Err(AllocError),
        Err(_) => Ok(None),
    }
}

/// Whether a token is one of these words.
fn is_any(words: &[Fixed], t: &Lexeme) -> bool
    ensures { result ≡ list_any (λ w. is_fixed w t.now) words.now }
{
    words.iter().any(|word| is(*word, t))
}

/// The words that a bare name can't be.
#[tactic(auto, unfolding(sb_grammar::specs::Values::is_reserved))]
fn is_reserved(t: &Lexeme) -> bool
    ensures { result ≡ spec.is_reserved t.now }
{
    let reserved = [
        Fixed::Any,
        Fixed::Create,
        Fixed::Alter,
        Fixed::Begin,
        Fixed::Commit,
        Fixed::Rollback,
        Fixed::Send,
        Fixed::Waitfor,
        Fixed::Receive,
        Fixed::Get,
        Fixed::Move,
        Fixed::End,
        Fixed::Insert,
        Fixed::Update,
        Fixed::Delete,
        Fixed::Select,
        Fixed::Declare,
        Fixed::Set,
        Fixed::If,
        Fixed::Return,
    ];
    is_any(&reserved, t)
}

#[tactic(auto, unfolding(sb_grammar::specs::Values::name_of))]
pub(crate) fn name_of(alloc: Global, t: &Lexeme) -> Result<Option<Name>, AllocError>
    ensures { IfOk result (λ o. o ≡ spec.name_of t.now) }
{
    match t.kind {
        TokenKind::Word => {
            if is_reserved(t) {
                Ok(None)
            } else {
                named(alloc, t.value.as_slice())
            }
        }
        TokenKind::Bracketed => named(alloc, t.value.as_slice()),
        TokenKind::Quoted => named(alloc, t.value.as_slice()),
        _ => Ok(None),
    }
}

pub(crate) fn name(alloc: Global, tokens: &[Lexeme]) -> Result<(Name, &[Lexeme]), Fault>
    ensures value { Gives (λ x. (x.0, x.1.now)) result (spec.name.reads tokens.now) }
    ensures shorter { IfOk result (λ x. length x.1.now ≤ length tokens.now) }
{
    match tokens {
        [] => Err(Fault::Bad(0)),
        [t, rest @ ..] => match name_of(alloc, t)? {
            Some(name) => Ok((name, rest)),
            None => Err(Fault::Bad(tokens.len())),
        },
    }
}

/// A name with its schema, which is dropped.
#[tactic(auto, unfolding(sb_grammar::specs::Values::qname, sb_grammar::specs::Words::fixed_at))]
pub(crate) fn qname(alloc: Global, tokens: &[Lexeme]) -> Result<(Name, &[Lexeme]), Fault>
    ensures value { Gives (λ x. (x.0, x.1.now)) result (spec.qname.reads tokens.now) }
    ensures shorter { IfOk result (λ x. length x.1.now ≤ length tokens.now) }
{
    match tokens {
        [t, rest @ ..] if is(Fixed::Schema, t) => name(alloc, expect(Fixed::Dot, rest)?),
        _ => name(alloc, tokens),
    }
}

#[tactic(auto, unfolding(sb_grammar::specs::Values::variable_of))]
pub(crate) fn variable_of(alloc: Global, t: &Lexeme) -> Result<Option<Text>, AllocError>
    ensures { IfOk result (λ o. o ≡ spec.variable_of t.now) }
{
    match t.kind {
        TokenKind::Variable => text_by(alloc, t.value.as_slice()),
        _ => Ok(None),
    }
}

pub(crate) fn variable(alloc: Global, tokens: &[Lexeme]) -> Result<(Text, &[Lexeme]), Fault>
    ensures value { Gives (λ x. (x.0, x.1.now)) result (spec.variable.reads tokens.now) }
    ensures shorter { IfOk result (λ x. length x.1.now ≤ length tokens.now) }
{
    match tokens {
        [] => Err(Fault::Bad(0)),
        [t, rest @ ..] => match variable_of(alloc, t)? {
            Some(variable) => Ok((variable, rest)),
            None => Err(Fault::Bad(tokens.len())),
        },
    }
}

#[tactic(auto, unfolding(sb_grammar::specs::Values::text_of))]
pub(crate) fn text_of(alloc: Global, t: &Lexeme) -> Result<Option<Text>, AllocError>
    ensures { IfOk result (λ o. o ≡ spec.text_of t.now) }
{
    match t.kind {
        TokenKind::Text => text_by(alloc, t.value.as_slice()),
        _ => Ok(None),
    }
}

pub(crate) fn text(alloc: Global, tokens: &[Lexeme]) -> Result<(Text, &[Lexeme]), Fault>
    ensures value { Gives (λ x. (x.0, x.1.now)) result (spec.text.reads tokens.now) }
    ensures shorter { IfOk result (λ x. length x.1.now ≤ length tokens.now) }
{
    match tokens {
        [] => Err(Fault::Bad(0)),
        [t, rest @ ..] => match text_of(alloc, t)? {
            Some(text) => Ok((text, rest)),
            None => Err(Fault::Bad(tokens.len())),
        },
    }
}

/// The value of decimal digits, or 2^63 where it is that or more.
fn capped_value(digits: &[u8]) -> u64
    ensures { result ≡ min (fold spec.with_digit 0 digits.now) (2 ^ 63) }
{
    let mut value: u64 = 0;
    for digit in digits {
        let next = u128::from(value) * 10 + u128::from(digit.saturating_sub(b'0'));
        value = if next < CAP { next as u64 } else { CAP as u64 };
    }
    value
}

const CAP: u128 = 1 << 63;

fn number_by(digits: &[u8]) -> Option<i64>
    ensures { result ≡ spec.number_by (fold spec.with_digit 0 digits.now) }
{
    let value = capped_value(digits);
    if value < 1 << 63 {
        Some(value as i64)
    } else {
        None
    }
}

#[tactic(auto, unfolding(sb_grammar::specs::Values::number_of))]
pub(crate) fn number_of(t: &Lexeme) -> Option<i64>
    ensures { result ≡ spec.number_of t.now }
{
    match t.kind {
        TokenKind::Number => number_by(t.value.as_slice()),
        _ => None,
    }
}

pub(crate) fn number(tokens: &[Lexeme]) -> Result<(i64, &[Lexeme]), Fault>
    ensures value { Gives (λ x. (x.0, x.1.now)) result (spec.number.reads tokens.now) }
    ensures shorter { IfOk result (λ x. length x.1.now ≤ length tokens.now) }
{
    match tokens {
        [] => Err(Fault::Bad(0)),
        [t, rest @ ..] => match number_of(t) {
            Some(number) => Ok((number, rest)),
            None => Err(Fault::Bad(tokens.len())),
        },
    }
}

#[tactic(auto, unfolding(sb_grammar::specs::Values::on_off_of))]
pub(crate) fn on_off(tokens: &[Lexeme]) -> Result<(bool, &[Lexeme]), Fault>
    ensures value { Gives (λ x. (x.0, x.1.now)) result (spec.on_off.reads tokens.now) }
    ensures shorter { IfOk result (λ x. length x.1.now ≤ length tokens.now) }
{
    match tokens {
        [t, rest @ ..] if is(Fixed::On, t) => Ok((true, rest)),
        [t, rest @ ..] if is(Fixed::Off, t) => Ok((false, rest)),
        _ => Err(Fault::Bad(tokens.len())),
    }
}

#[tactic(auto, unfolding(sb_grammar::specs::Values::kind_word_of))]
fn kind_word_of(t: &Lexeme) -> Option<KindWord>
    ensures { result ≡ spec.kind_word_of t.now }
{
    let (kind, is_sized) = if is(Fixed::BigInt, t) {
        (ValueKind::Bigint, false)
    } else if is(Fixed::Int, t) {
        (ValueKind::Bigint, false)
    } else if is(Fixed::SysName, t) {
        (ValueKind::Text, false)
    } else if is(Fixed::UniqueIdentifier, t) {
        (ValueKind::Identifier, false)
    } else if is(Fixed::NVarChar, t) {
        (ValueKind::Text, true)
    } else if is(Fixed::VarBinary, t) {
        (ValueKind::Bytes, true)
    } else {
        return None;
    };
    Some(KindWord { kind, is_sized })
}

/// The length of a kind, which says nothing.
#[tactic(auto, unfolding(sb_grammar::specs::Values::size_of))]
fn is_size(t: &Lexeme) -> bool
    ensures { result ≡ is_some (spec.size_of t.now) }
{
    is(Fixed::Max, t) || number_of(t).is_some()
}

#[tactic(auto, using(crate::proofs::Utf8::some_unit, crate::proofs::Utf8::none_unit))]
fn size(tokens: &[Lexeme]) -> Result<&[Lexeme], Fault>
    ensures value { Gives (λ rest. (tt, rest.now)) result (spec.size.reads tokens.now) }
    ensures shorter { IfOk result (λ rest. length rest.now ≤ length tokens.now) }
{
    match tokens {
        [t, rest @ ..] if is_size(t) => Ok(rest),
        _ => Err(Fault::Bad(tokens.len())),
    }
}

fn kind_by(
    kind: ValueKind,
    is_sized: bool,
    tokens: &[Lexeme],
) -> Result<(ValueKind, &[Lexeme]), Fault>
    ensures value { Gives (λ x. (x.0, x.1.now)) result ((spec.kind_by kind is_sized).reads tokens.now) }
    ensures shorter { IfOk result (λ x. length x.1.now ≤ length tokens.now) }
{
    if !is_sized {
        return Ok((kind, tokens));
    }
    let rest = size(expect(Fixed::Open, tokens)?)?;
    Ok((kind, expect(Fixed::Close, rest)?))
}

#[tactic(auto, unfolding(sb_grammar::specs::Values::kind))]
pub(crate) fn kind(tokens: &[Lexeme]) -> Result<(ValueKind, &[Lexeme]), Fault>
    ensures value { Gives (λ x. (x.0, x.1.now)) result (spec.kind.reads tokens.now) }
    ensures shorter { IfOk result (λ x. length x.1.now ≤ length tokens.now) }
{
    match tokens {
        [] => Err(Fault::Bad(0)),
        [t, rest @ ..] => match kind_word_of(t) {
            Some(word) => kind_by(word.kind, word.is_sized, rest),
            None => Err(Fault::Bad(tokens.len())),
        },
    }
}

pub(crate) fn handle_by(bytes: &[u8]) -> Option<Handle>
    ensures { result ≡ spec.handle_by bytes.now }
{
    match utf8(bytes) {
        None => None,
        Some(text) => Handle::read(text),
    }
}

#[tactic(auto, unfolding(sb_grammar::specs::Values::broker_of))]
fn broker_of(t: &Lexeme) -> Option<BrokerInstance>
    ensures { result ≡ spec.broker_of t.now }
{
    match t.kind {
        TokenKind::Text => {
            if t.value.as_slice() == b"CURRENT DATABASE".as_slice() {
                return Some(BrokerInstance::Current);
            }
            match handle_by(t.value.as_slice()) {
                Some(handle) => Some(BrokerInstance::Other(handle)),
                None => None,
            }
        }
        _ => None,
    }
}

pub(crate) fn broker(tokens: &[Lexeme]) -> Result<(BrokerInstance, &[Lexeme]), Fault>
    ensures value { Gives (λ x. (x.0, x.1.now)) result (spec.broker.reads tokens.now) }
    ensures shorter { IfOk result (λ x. length x.1.now ≤ length tokens.now) }
{
    match tokens {
        [] => Err(Fault::Bad(0)),
        [t, rest @ ..] => match broker_of(t) {
            Some(broker) => Ok((broker, rest)),
            None => Err(Fault::Bad(tokens.len())),
        },
    }
}
