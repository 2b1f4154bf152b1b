//! Batches and procedures, as texts.

ghost use Rattle.std.specs.Prelude.{◌≡◌, List, [], length, Ok, IfOk, IfErr};
ghost use Rattle.sb_lex.specs.Cuts.{InOrder};
ghost use Rattle.sb_grammar.specs.Batches as spec;
ghost use Rattle.sb_grammar.specs.declared.tree.Statement as declared;
ghost use Rattle.sb_parse.specs.Answers.{Answers, Names};
ghost use Rattle.sb_parse.specs.Lexemes.{lexemes_of};
ghost use Rattle.sb_parse.specs.Places.{IsSpelledIn, IsRead, Refuses, place_of, bad_at, refused, finished};

use crate::batch::{batch_of_tokens, procedure_of_tokens};
use crate::fault::Fault;
use crate::lexemes::lexemes;
use sb_grammar::{Barred, Statement};
use sb_lex::{Lexed, Token, cut};
use sqlite_items::Items;
use std::alloc::{AllocError, Global};

/// The statements of a batch or a procedure.
pub type Block = Items<Statement>;

/// Why a text is no batch or procedure, and where.
#[derive(Clone, Copy, Debug, PartialEq, Eq)]
pub enum ParseRefused {
    OutOfMemory,
    /// No spelling goes on with the token that begins here, or the tokens end here too soon.
    BadStatement { at: usize },
    /// The word that begins here isn't supported.
    Unsupported { at: usize, what: Barred },
    /// A comment, text or bracket that begins here doesn't end, or a character begins no token.
    Unlexed { at: usize },
}

impl From<AllocError> for ParseRefused {
    ghost use Rattle.std.specs.Prelude.{◌≡◌};
    ghost use Rattle.sb_parse.specs.declared.text.ParseRefused.TheVariants.{OutOfMemory};

    ghost from_gives = { λ _ e. e ≡ OutOfMemory };

    fn from(_e: AllocError) -> ParseRefused {
        ParseRefused::OutOfMemory
    }
}

/// Where the token begins from which on so many are left; where none is, the last one ends.
fn place(tokens: &[Token], left: usize) -> usize
    ensures { result ≡ place_of tokens.now left }
{
    match tokens.get(tokens.len().saturating_sub(left)) {
        Some(token) => token.start,
        None => match tokens.last() {
            Some(token) => token.end,
            None => 0,
        },
    }
}

fn bad(found: &Lexed, left: usize) -> ParseRefused
    ensures { result ≡ bad_at found.now.tokens.items found.now.unlexed left }
{
    match found.unlexed {
        Some(at) if left == 0 => ParseRefused::Unlexed { at },
        _ => ParseRefused::BadStatement {
            at: place(found.tokens.as_slice(), left),
        },
    }
}

fn refusal(found: &Lexed, fault: Fault) -> ParseRefused
    ensures { result ≡ refused found.now.tokens.items found.now.unlexed fault }
{
    match fault {
        Fault::Memory => ParseRefused::OutOfMemory,
        Fault::Bad(left) => bad(found, left),
        Fault::Unsupported(left, what) => ParseRefused::Unsupported {
            at: place(found.tokens.as_slice(), left),
            what,
        },
    }
}

/// The answer for a text, by that for its tokens.
fn finish(found: &Lexed, answer: Result<Block, Fault>) -> Result<Block, ParseRefused>
    ensures { result ≡ finished found.now.tokens.items found.now.unlexed answer }
{
    match answer {
        Ok(all) => match found.unlexed {
            None => Ok(all),
            Some(at) => Err(ParseRefused::Unlexed { at }),
        },
        Err(fault) => Err(refusal(found, fault)),
    }
}

/// The statements that the tokens of a text spell as a batch.
fn batch_of(alloc: Global, text: &str, found: &Lexed) -> Result<Block, Fault>
    requires { InOrder 0 found.now.tokens.items (length text.now) }
    ensures spelled { IfOk result (λ all. (spec.batch 64).spells all (lexemes_of text.now found.now.tokens.items) []) }
    ensures only { (all : List declared.Statement) → (spec.batch 64).spells all (lexemes_of text.now found.now.tokens.items) [] → Answers result (Ok all) }
    ensures place { Names result (spec.batch 64) (lexemes_of text.now found.now.tokens.items) }
{
    let tokens = lexemes(alloc, text, found.tokens.as_slice())?;
    batch_of_tokens(alloc, tokens.as_slice())
}

/// The statements that the tokens of a text spell as a procedure.
fn procedure_of(alloc: Global, text: &str, found: &Lexed) -> Result<Block, Fault>
    requires { InOrder 0 found.now.tokens.items (length text.now) }
    ensures spelled { IfOk result (λ all. (spec.procedure 64).spells all (lexemes_of text.now found.now.tokens.items) []) }
    ensures only { (all : List declared.Statement) → (spec.procedure 64).spells all (lexemes_of text.now found.now.tokens.items) [] → Answers result (Ok all) }
    ensures place { Names result (spec.procedure 64) (lexemes_of text.now found.now.tokens.items) }
{
    let tokens = lexemes(alloc, text, found.tokens.as_slice())?;
    procedure_of_tokens(alloc, tokens.as_slice())
}

/// The statements of a batch.
pub fn statements(alloc: Global, text: &str) -> Result<Block, ParseRefused>
    // What is read is spelled so by the text's tokens.
    ensures spelled { IfOk result (λ all. IsSpelledIn (spec.batch 64) all text.now) }
    // What is spelled so is read, and as these statements.
    ensures only { (all : List declared.Statement) → IsSpelledIn (spec.batch 64) all text.now → IsRead all result }
    // A refusal names the first place.
    ensures place { IfErr result (Refuses (spec.batch 64) text.now) }
{
    let found = cut(alloc, text)?;
    let answer = batch_of(alloc, text, &found);
    finish(&found, answer)
}

/// The statements of a procedure, whose text begins with its AS.
pub fn procedure(alloc: Global, text: &str) -> Result<Block, ParseRefused>
    ensures spelled { IfOk result (λ all. IsSpelledIn (spec.procedure 64) all text.now) }
    ensures only { (all : List declared.Statement) → IsSpelledIn (spec.procedure 64) all text.now → IsRead all result }
    ensures place { IfErr result (Refuses (spec.procedure 64) text.now) }
{
    let found = cut(alloc, text)?;
    let answer = procedure_of(alloc, text, &found);
    finish(&found, answer)
}
