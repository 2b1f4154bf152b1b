//! The tokens of a script's text.
//!
//! A text is cut into tokens with blanks and comments between them, each token as long as its
//! spelling allows, in one pass from left to right. Where none of these stands, the rest is
//! unlexed: a comment, text or bracket that doesn't end, or a character that begins no token.
#![tactic(auto)]

mod lex;
mod piece;
mod token;

pub use lex::{LexRefused, Lexed, cut, tokens};
pub use token::{Token, TokenKind};

#[cfg(test)]
mod tests;
