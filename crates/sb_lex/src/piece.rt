//! What stands at the front of a text.

ghost use Rattle.std.specs.Prelude.{◌≡◌, ◌≢◌, ◌<◌, ◌≤◌, ◌+◌, ◌^◌, ℕ, length, slice_index, IfSome, true, false};
ghost use Rattle.sb_lex.specs.Lex as spec;
ghost use Rattle.sb_lex.specs.Pieces.{HasLength};

use crate::token::TokenKind;

#[derive(Clone, Copy)]
pub(crate) enum Class {
    Blank,
    Digit,
    Hex,
    Letter,
    Word,
    Line,
}

#[derive(Clone, Copy)]
pub(crate) enum Piece {
    /// A token of a kind and a length.
    Token(TokenKind, usize),
    /// A blank or a comment of a length.
    Gap(usize),
    /// What is neither.
    Unlexed,
}

fn is_in(class: Class, b: u8) -> bool
    ensures { result ≡ spec.is_in class b }
{
    match class {
        Class::Blank => b == b' ' || b == b'\t' || b == b'\n',
        Class::Digit => b.is_ascii_digit(),
        Class::Hex => b.is_ascii_hexdigit(),
        Class::Letter => b.is_ascii_alphabetic() || b == b'_',
        Class::Word => {
            b.is_ascii_alphanumeric() || b == b'_' || b == b'$' || b == b'#' || b == b'@'
        }
        Class::Line => b != b'\n',
    }
}

fn byte(z: &[u8], at: usize) -> u8
    ensures value { result ≡ slice_index z.now at }
    ensures within { result ≢ 0 → at < length z.now }
{
    if at < z.len() { z[at] } else { 0 }
}

fn run(class: Class, z: &[u8]) -> usize
    ensures value { result ≡ spec.run class z.now }
    ensures within { result ≤ length z.now }
    ensures moves { spec.is_in class (slice_index z.now 0) ≡ true → 0 < length z.now → 0 < result }
{
    let mut end = 0;
    while end < z.len() && is_in(class, z[end]) {
        end += 1;
    }
    end
}

fn closing(quote: u8, mut at: usize, mut z: &[u8]) -> Option<usize>
    requires { at + length z.now < 2 ^ 63 }
    ensures value { result ≡ spec.closing quote false at z.entry.now }
    ensures within { IfSome result (λ end. (at < end) × (end ≤ at + length z.entry.now)) }
{
    let mut is_second = false;
    while let [b, rest @ ..] = z {
        if !is_second && *b == quote && byte(rest, 0) != quote {
            return Some(at + 1);
        }
        is_second = !is_second && *b == quote;
        at += 1;
        z = rest;
    }
    None
}

fn comment(mut at: usize, mut z: &[u8]) -> Option<usize>
    requires { at + length z.now < 2 ^ 63 }
    ensures value { result ≡ spec.comment 1 false at z.entry.now }
    ensures within { IfSome result (λ end. (at < end) × (end ≤ at + length z.entry.now)) }
{
    let mut is_second = false;
    let mut depth: usize = 1;
    while let [b, rest @ ..] = z {
        if is_second {
            is_second = false;
        } else if *b == b'/' && byte(rest, 0) == b'*' {
            is_second = true;
            depth += 1;
        } else if *b == b'*' && byte(rest, 0) == b'/' {
            if depth == 1 {
                return Some(at + 2);
            }
            is_second = true;
            depth -= 1;
        }
        at += 1;
        z = rest;
    }
    None
}

fn pairs(mut at: usize, mut z: &[u8]) -> usize
    requires { at + length z.now < 2 ^ 63 }
    ensures value { result ≡ spec.pairs at z.entry.now }
    ensures within { (at ≤ result) × (result ≤ at + length z.entry.now) }
{
    while let [a, b, rest @ ..] = z {
        if !is_in(Class::Hex, *a) || !is_in(Class::Hex, *b) {
            return at;
        }
        at += 2;
        z = rest;
    }
    at
}

fn closed(kind: TokenKind, end: Option<usize>) -> Piece
    ensures { result ≡ spec.closed kind end }
{
    match end {
        None => Piece::Unlexed,
        Some(len) => Piece::Token(kind, len),
    }
}

fn passed(end: Option<usize>) -> Piece
    ensures { result ≡ spec.passed end }
{
    match end {
        None => Piece::Unlexed,
        Some(len) => Piece::Gap(len),
    }
}

#[tactic(auto, unfolding(crate::specs::Lex::sign))]
fn sign(b: u8, c: u8) -> Piece
    ensures value { result ≡ spec.sign b c }
    ensures within { (n : ℕ) → 0 < n → (c ≢ 0 → 1 < n) → HasLength result n }
{
    if b == b'<' && c == b'>' {
        return Piece::Token(TokenKind::Sign, 2);
    }
    match b {
        b'(' | b')' | b',' | b'.' | b';' | b'=' | b'<' | b'>' | b'+' | b'-' | b'*' => {
            Piece::Token(TokenKind::Sign, 1)
        }
        _ => Piece::Unlexed,
    }
}

fn letter(b: u8, c: u8, z: &[u8]) -> Piece
    requires some { 0 < length z.now }
    requires first { b ≡ slice_index z.now 0 }
    requires second { c ≡ slice_index z.now 1 }
    requires letter { spec.is_in Class.Letter b ≡ true }
    ensures value { result ≡ spec.letter_at b c z.now }
    ensures within { HasLength result (length z.now) }
{
    if b == b'N' && c == b'\'' {
        closed(TokenKind::Text, closing(b'\'', 2, &z[2..]))
    } else {
        Piece::Token(TokenKind::Word, run(Class::Word, z))
    }
}

fn digit(b: u8, c: u8, z: &[u8]) -> Piece
    requires some { 0 < length z.now }
    requires first { b ≡ slice_index z.now 0 }
    requires second { c ≡ slice_index z.now 1 }
    requires digit { spec.is_in Class.Digit b ≡ true }
    ensures value { result ≡ spec.digit_at b c z.now }
    ensures within { HasLength result (length z.now) }
{
    if b == b'0' && c == b'x' {
        Piece::Token(TokenKind::Binary, pairs(2, &z[2..]))
    } else {
        Piece::Token(TokenKind::Number, run(Class::Digit, z))
    }
}

#[tactic(auto, unfolding(crate::specs::Lex::other_at))]
fn other(b: u8, c: u8, z: &[u8]) -> Piece
    requires some { 0 < length z.now }
    requires first { b ≡ slice_index z.now 0 }
    requires second { c ≡ slice_index z.now 1 }
    ensures value { result ≡ spec.other_at b c z.now }
    ensures within { HasLength result (length z.now) }
{
    if is_in(Class::Blank, b) {
        Piece::Gap(1)
    } else if b == b'-' && c == b'-' {
        Piece::Gap(run(Class::Line, z))
    } else if b == b'/' && c == b'*' {
        passed(comment(2, &z[2..]))
    } else if b == b'\'' {
        closed(TokenKind::Text, closing(b'\'', 1, &z[1..]))
    } else if b == b'"' {
        closed(TokenKind::Quoted, closing(b'"', 1, &z[1..]))
    } else if b == b'[' {
        closed(TokenKind::Bracketed, closing(b']', 1, &z[1..]))
    } else {
        sign(b, c)
    }
}

/// What stands in front of a text that has something.
#[tactic(auto, unfolding(crate::specs::Lex::piece_at))]
pub(crate) fn front(z: &[u8]) -> Piece
    requires { 0 < length z.now }
    ensures value { result ≡ spec.piece_at z.now }
    ensures within { HasLength result (length z.now) }
{
    let (b, c) = (byte(z, 0), byte(z, 1));
    if is_in(Class::Letter, b) {
        letter(b, c, z)
    } else if b == b'@' {
        Piece::Token(TokenKind::Variable, run(Class::Word, z))
    } else if is_in(Class::Digit, b) {
        digit(b, c, z)
    } else {
        other(b, c, z)
    }
}
