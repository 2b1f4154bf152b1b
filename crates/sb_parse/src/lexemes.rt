//! The tokens of a text with what they stand for.

ghost use Rattle.std.specs.Prelude.{◌≡◌, ◌<◌, ◌≤◌, drop, length, false, IfOk};
ghost use Rattle.sb_lex.specs.Cuts.{InOrder};
ghost use Rattle.sb_parse.specs.Lexemes as spec;

use sb_grammar::Lexeme;
use sb_lex::{Token, TokenKind};
use sqlite_items::Items;
use std::alloc::{AllocError, Global};

/// A text between its quotes, where a doubled quote is written once.
#[tactic(auto, using(crate::proofs::LexemeLaws::undoubled_second, crate::proofs::LexemeLaws::undoubled_first))]
fn undoubled(alloc: Global, spelling: &[u8], quote: u8) -> Result<Items<u8>, AllocError>
    ensures { IfOk result (λ value. value ≡ spec.undoubled quote false spelling.now) }
{
    let mut value = Items::new(alloc);
    let mut is_second = false;
    'bytes: for byte in spelling {
        if is_second {
            is_second = false;
        } else {
            is_second = *byte == quote;
            value.push(*byte)?;
        }
    }
    Ok(value)
}

/// Behind so many bytes and before the last.
fn inner(before: usize, spelling: &[u8]) -> &[u8]
    ensures { result.now ≡ spec.inner before spelling.now }
{
    if before < spelling.len() {
        &spelling[before..spelling.len() - 1]
    } else {
        &spelling[..0]
    }
}

fn text_open(spelling: &[u8]) -> usize
    ensures { result ≡ spec.text_open spelling.now }
{
    match spelling {
        [b'N', ..] => 2,
        _ => 1,
    }
}

fn digit_value(digit: u8) -> u8
    ensures value { result ≡ spec.digit_value digit }
    ensures small { result < 16 }
{
    match digit {
        b'0'..=b'9' => digit - b'0',
        b'a'..=b'f' => digit - b'a' + 10,
        b'A'..=b'F' => digit - b'A' + 10,
        _ => 0,
    }
}

/// The bytes that pairs of hexadecimal digits spell.
#[tactic(auto, using(crate::proofs::LexemeLaws::pairs_step, crate::proofs::LexemeLaws::pairs_end))]
fn byte_pairs(alloc: Global, digits: &[u8]) -> Result<Items<u8>, AllocError>
    ensures { IfOk result (λ value. value ≡ spec.byte_pairs digits.now) }
{
    let mut value = Items::new(alloc);
    let mut rest = digits;
    'pairs: while let [high, low, more @ ..] = rest {
        value.push(digit_value(*high) * 16 + digit_value(*low))?;
        rest = more;
    }
    Ok(value)
}

fn behind_prefix(spelling: &[u8]) -> &[u8]
    ensures { result.now ≡ drop 2 spelling.now }
{
    match spelling {
        [_, _, digits @ ..] => digits,
        _ => &spelling[..0],
    }
}

/// What a token of a kind stands for.
fn value_of(alloc: Global, kind: TokenKind, spelling: &[u8]) -> Result<Items<u8>, AllocError>
    ensures { IfOk result (λ value. value ≡ spec.value_of kind spelling.now) }
{
    match kind {
        TokenKind::Text => undoubled(alloc, inner(text_open(spelling), spelling), b'\''),
        TokenKind::Quoted => undoubled(alloc, inner(1, spelling), b'"'),
        TokenKind::Bracketed => undoubled(alloc, inner(1, spelling), b']'),
        TokenKind::Binary => byte_pairs(alloc, behind_prefix(spelling)),
        _ => Items::from_slice(alloc, spelling),
    }
}

fn lexeme(alloc: Global, text: &[u8], token: &Token) -> Result<Lexeme, AllocError>
    requires ordered { token.now.start ≤ token.now.end }
    requires within { token.now.end ≤ length text.now }
    ensures { IfOk result (λ l. l ≡ spec.lexeme_of text.now token.now) }
{
    let value = value_of(alloc, token.kind, &text[token.start..token.end])?;
    Ok(Lexeme {
        kind: token.kind,
        value,
        start: token.start,
        end: token.end,
    })
}

/// Each token with what it stands for.
pub(crate) fn lexemes(
    alloc: Global,
    text: &str,
    tokens: &[Token],
) -> Result<Vec<Lexeme>, AllocError>
    requires { InOrder 0 tokens.now (length text.now) }
    ensures { IfOk result (λ all. all.items ≡ spec.lexemes_of text.now tokens.now) }
{
    let mut all = Vec::new(alloc);
    'tokens: for token in tokens {
        all.push(lexeme(alloc, text.as_bytes(), token)?)?;
    }
    Ok(all)
}
