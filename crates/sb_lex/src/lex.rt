//! The tokens of a whole text.

ghost use Rattle.std.specs.Prelude.{◌≡◌, ◌<◌, ◌^◌, ℕ, List, Option, Some, None, length, IfOk, IfErr};
ghost use Rattle.sb_lex.specs.Lex.{tokens_of};
ghost use Rattle.sb_lex.specs.Cuts.{IsCut, IsOnlyCut, InOrder};
ghost use Rattle.sb_lex.specs.Answer.{tokens_in, Answers, IsUnlexedAt};
ghost use Rattle.sb_lex.specs.declared.token.Token as declared;

use crate::piece::{Piece, front};
use crate::token::Token;
use std::alloc::{AllocError, Global};

/// The tokens before the first place where no blank, comment or token stands.
#[derive(Debug, Drop)]
pub struct Lexed {
    pub tokens: Vec<Token>,
    /// That place; none where the tokens reach the text's end.
    pub unlexed: Option<usize>,
}

#[derive(Clone, Copy, Debug, PartialEq, Eq)]
pub enum LexRefused {
    OutOfMemory,
    /// A comment, text or bracket that begins here doesn't end, or a character begins no token.
    Unlexed { at: usize },
}

impl From<AllocError> for LexRefused {
    ghost use Rattle.std.specs.Prelude.{◌≡◌};
    ghost use Rattle.sb_lex.specs.declared.lex.LexRefused.TheVariants.{OutOfMemory};

    ghost from_gives = { λ _ e. e ≡ OutOfMemory };

    fn from(_e: AllocError) -> LexRefused {
        LexRefused::OutOfMemory
    }
}

fn scan(alloc: Global, text: &str) -> Result<Lexed, AllocError>
    ensures { IfOk result (λ l. tokens_in l ≡ tokens_of text.now) }
{
    let mut tokens = Vec::new(alloc);
    let mut at = 0;
    let mut rest = text.as_bytes();
    'pieces: while !rest.is_empty() {
        let len = match front(rest) {
            Piece::Unlexed => {
                return Ok(Lexed {
                    tokens,
                    unlexed: Some(at),
                });
            }
            Piece::Gap(len) => len,
            Piece::Token(kind, len) => {
                tokens.push(Token {
                    kind,
                    start: at,
                    end: at + len,
                })?;
                len
            }
        };
        at += len;
        rest = &rest[len..];
    }
    Ok(Lexed {
        tokens,
        unlexed: None,
    })
}

/// The tokens of a text, up to its end or to the first place where none stands.
pub fn cut(alloc: Global, text: &str) -> Result<Lexed, AllocError>
    ensures cut { IfOk result (λ l. IsCut text.now l.tokens.items l.unlexed) }
    ensures only { IfOk result (λ l. IsOnlyCut text.now l.tokens.items l.unlexed) }
    ensures in_order { IfOk result (λ l. InOrder 0 l.tokens.items (length text.now)) }
{
    scan(alloc, text)
}

/// The tokens of a text that has nothing else but blanks and comments.
pub fn tokens(alloc: Global, text: &str) -> Result<Vec<Token>, LexRefused>
    ensures cut { IfOk result (λ ts. IsCut text.now ts.items None) }
    ensures unlexed { IfErr result (IsUnlexedAt text.now) }
    // However the text is cut, this is the answer, unless memory runs out.
    ensures only { (ts : List declared.Token) (u : Option ℕ) → IsCut text.now ts u → Answers result ts u }
    ensures in_order { IfOk result (λ ts. InOrder 0 ts.items (length text.now)) }
{
    let Lexed { tokens, unlexed } = scan(alloc, text)?;
    match unlexed {
        None => Ok(tokens),
        Some(at) => Err(LexRefused::Unlexed { at }),
    }
}
