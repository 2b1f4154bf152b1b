//! Lines: their blanks and words, and what a line is.

ghost use Rattle.std.specs.Prelude.{◌≡◌, ◌≤◌, length, position, IfSome};
ghost use Rattle.sb_script.specs.Lines as says;

/// What a line is.
#[derive(Clone, Copy, Debug, PartialEq, Eq)]
pub enum Line {
    /// A part of a batch.
    Text,
    Go,
    Command,
}

/// What a line is.
#[tactic(auto, unfolding(crate::specs::Lines::line_of))]
pub fn line_of(line: &[u8]) -> Line
    ensures { result ≡ says.line_of line.now }
{
    line_by(trimmed(line))
}

fn line_by(text: &[u8]) -> Line
    ensures { result ≡ says.line_by text.now }
{
    if is_go(text) {
        Line::Go
    } else if text.starts_with(b":") {
        Line::Command
    } else {
        Line::Text
    }
}

fn is_go(text: &[u8]) -> bool
    ensures { result ≡ says.is_go text.now }
{
    is(text, b"GO") || is(text, b"Go") || is(text, b"gO") || is(text, b"go")
}

/// Whether a text is this word.
pub fn is(text: &[u8], word: &[u8]) -> bool
    ensures { result ≡ says.same text.now word.now }
{
    text == word
}

/// A text without the blanks at its ends.
pub fn trimmed(text: &[u8]) -> &[u8]
    ensures { result.now ≡ says.trimmed text.now }
{
    before_blanks(behind_blanks(text))
}

/// The first word of a text.
pub fn word(text: &[u8]) -> &[u8]
    ensures { result.now ≡ says.word text.now }
{
    &text[..word_len(text)]
}

/// What stands behind the first word and the blanks that follow it.
pub fn behind_word(text: &[u8]) -> &[u8]
    ensures { result.now ≡ says.behind_word text.now }
{
    behind_blanks(&text[word_len(text)..])
}

fn behind_blanks(text: &[u8]) -> &[u8]
    ensures { result.now ≡ says.behind_blanks text.now }
{
    &text[blanks_len(text)..]
}

fn before_blanks(text: &[u8]) -> &[u8]
    ensures { result.now ≡ says.before_blanks text.now }
{
    &text[..ink_end(text)]
}

#[tactic(auto, unfolding(crate::specs::Lines::is_blank))]
fn is_blank(byte: u8) -> bool
    ensures { result ≡ says.is_blank byte }
{
    byte == b' ' || byte == b'\t'
}

// How many bytes stand before the first blank.
fn word_len(text: &[u8]) -> usize
    ensures is { result ≡ says.word_len text.now }
    ensures within { result ≤ length text.now }
{
    first_blank(text).unwrap_or(text.len())
}

fn first_blank(text: &[u8]) -> Option<usize>
    ensures is { result ≡ position says.is_blank text.now }
    ensures within { IfSome result (λ i. i ≤ length text.now) }
{
    text.iter().position(|byte| is_blank(*byte))
}

// How many blanks stand in front.
fn blanks_len(text: &[u8]) -> usize
    ensures is { result ≡ says.blanks_len text.now }
    ensures within { result ≤ length text.now }
{
    first_ink(text).unwrap_or(text.len())
}

fn first_ink(text: &[u8]) -> Option<usize>
    ensures is { result ≡ position says.is_ink text.now }
    ensures within { IfSome result (λ i. i ≤ length text.now) }
{
    text.iter().position(|byte| is_ink(*byte))
}

fn is_ink(byte: u8) -> bool
    ensures { result ≡ says.is_ink byte }
{
    !is_blank(byte)
}

// Where the last byte that is no blank ends.
fn ink_end(text: &[u8]) -> usize
    ensures is { result ≡ says.ink_end text.now }
    ensures within { result ≤ length text.now }
{
    let mut end = 0;
    for (i, byte) in text.iter().enumerate() {
        if !is_blank(*byte) {
            end = i + 1;
        }
    }
    end
}
