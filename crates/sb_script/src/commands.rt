//! Commands, and the lines that spell those of the world.

ghost use Rattle.std.specs.Prelude.{◌≡◌, ◌+◌, ◌≤◌, min, IfOk};
ghost use Rattle.std.specs.Char.{is_ascii_digit};
ghost use Rattle.std.specs.List.{list_all};
ghost use Rattle.sb_script.specs.Commands as says;

use crate::lines::{behind_word, is, word};
use hex::FromHexError;
use sb_grammar::Barred;
use sb_log::{Bytes, Session, Text, Who};
use sb_parse::Block;
use std::alloc::{AllocError, Global};

/// What a script commands.
#[derive(Debug, Drop)]
pub enum Command {
    /// Later batches go to this session.
    Connect(Session),
    /// The statements of a batch, and its text, from which a procedure's text is cut.
    Batch { text: Text, block: Block },
    Pump,
    Deliver(u64),
    Lose(u64),
    Clean,
    Tick(u64),
    Clock(u64),
    Fuse(u64),
    Crash(u64),
    Open,
    Serve,
    Dump,
    Inject(Bytes),
}

/// Why a script is refused.
#[derive(Clone, Copy, Debug, PartialEq, Eq)]
pub enum BadWhy {
    TooLong,
    NotText,
    UnknownCommand,
    BadArgument,
    Unlexed,
    BadStatement,
    Unsupported { what: Barred },
}

/// The first word of a command, without its colon.
#[derive(Clone, Copy, Debug, PartialEq, Eq)]
pub enum Word {
    Connect,
    Pump,
    Deliver,
    Lose,
    Clean,
    Tick,
    Clock,
    Fuse,
    Crash,
    Open,
    Serve,
    Dump,
    Inject,
}

/// The greatest number of a command.
pub const MOST: u64 = 1_000_000_000_000;

/// What a line without the blanks at its ends commands.
#[tactic(auto, unfolding(crate::specs::Commands::command_of))]
pub fn command_of(alloc: Global, text: &[u8]) -> Result<Result<Command, BadWhy>, AllocError>
    ensures { IfOk result (λ found. found ≡ says.command_of text.now) }
{
    match word_of(word(text)) {
        Some(first) => command_behind(alloc, first, behind_word(text)),
        None => Ok(Err(BadWhy::UnknownCommand)),
    }
}

fn command_behind(
    alloc: Global,
    first: Word,
    rest: &[u8],
) -> Result<Result<Command, BadWhy>, AllocError>
    ensures { IfOk result (λ found. found ≡ says.command_behind first rest.now) }
{
    match argued(alloc, first, rest)? {
        Some(command) => Ok(Ok(command)),
        None => Ok(Err(BadWhy::BadArgument)),
    }
}

fn word_of(text: &[u8]) -> Option<Word>
    ensures { result ≡ says.word_of text.now }
{
    if is(text, b":connect") {
        Some(Word::Connect)
    } else if is(text, b":pump") {
        Some(Word::Pump)
    } else if is(text, b":deliver") {
        Some(Word::Deliver)
    } else if is(text, b":lose") {
        Some(Word::Lose)
    } else if is(text, b":clean") {
        Some(Word::Clean)
    } else if is(text, b":tick") {
        Some(Word::Tick)
    } else {
        later_word_of(text)
    }
}

fn later_word_of(text: &[u8]) -> Option<Word>
    ensures { result ≡ says.later_word_of text.now }
{
    if is(text, b":clock") {
        Some(Word::Clock)
    } else if is(text, b":fuse") {
        Some(Word::Fuse)
    } else if is(text, b":crash") {
        Some(Word::Crash)
    } else if is(text, b":open") {
        Some(Word::Open)
    } else if is(text, b":serve") {
        Some(Word::Serve)
    } else if is(text, b":dump") {
        Some(Word::Dump)
    } else if is(text, b":inject") {
        Some(Word::Inject)
    } else {
        None
    }
}

// The command of a first word and what stands behind it, unless that is no argument of the command.
fn argued(alloc: Global, first: Word, rest: &[u8]) -> Result<Option<Command>, AllocError>
    ensures { IfOk result (λ command. command ≡ says.argued first rest.now) }
{
    match first {
        Word::Connect => Ok(connect(rest)),
        Word::Inject => inject(alloc, rest),
        Word::Pump => Ok(alone(Command::Pump, rest)),
        Word::Clean => Ok(alone(Command::Clean, rest)),
        Word::Open => Ok(alone(Command::Open, rest)),
        Word::Serve => Ok(alone(Command::Serve, rest)),
        Word::Dump => Ok(alone(Command::Dump, rest)),
        _ => Ok(numbered(first, number(rest))),
    }
}

// The command of a word that takes a number.
fn numbered(first: Word, number: Option<u64>) -> Option<Command>
    ensures { result ≡ says.numbered first number }
{
    let number = number?;
    match first {
        Word::Deliver => Some(Command::Deliver(number)),
        Word::Lose => Some(Command::Lose(number)),
        Word::Tick => Some(Command::Tick(number)),
        Word::Clock => Some(Command::Clock(number)),
        Word::Fuse => Some(Command::Fuse(number)),
        Word::Crash => Some(Command::Crash(number)),
        _ => None,
    }
}

// A command that takes no argument.
fn alone(command: Command, rest: &[u8]) -> Option<Command>
    ensures { result ≡ says.alone command rest.now }
{
    if rest.is_empty() { Some(command) } else { None }
}

fn connect(rest: &[u8]) -> Option<Command>
    ensures { result ≡ says.connect rest.now }
{
    match (instance(word(rest)), session_number(behind_word(rest))) {
        (Some(instance), Some(number)) => Some(Command::Connect(Session { instance, number })),
        _ => None,
    }
}

fn instance(text: &[u8]) -> Option<Who>
    ensures { result ≡ says.instance text.now }
{
    if is(text, b"A") {
        Some(Who::A)
    } else if is(text, b"B") {
        Some(Who::B)
    } else {
        None
    }
}

// The number of a session, 1 where none is spelled.
fn session_number(text: &[u8]) -> Option<u8>
    ensures { result ≡ says.session_number text.now }
{
    if text.is_empty() {
        return Some(1);
    }
    match number(text) {
        Some(number) if 1 <= number && number <= 9 => Some(number as u8),
        _ => None,
    }
}

// The bytes that pairs of hexadecimal digits spell.
fn inject(alloc: Global, rest: &[u8]) -> Result<Option<Command>, AllocError>
    ensures { IfOk result (λ command. command ≡ says.inject rest.now) }
{
    match hex::decode(alloc, rest) {
        Ok(bytes) => Ok(Some(Command::Inject(Bytes::from_vec(bytes)))),
        Err(FromHexError::OutOfMemory) => Err(AllocError),
        Err(_) => Ok(None),
    }
}

// The number that decimal digits spell, unless it is too great.
fn number(text: &[u8]) -> Option<u64>
    ensures { result ≡ says.number_of text.now }
{
    if text.is_empty() || !are_digits(text) {
        return None;
    }
    let number = capped(text);
    if number <= MOST { Some(number) } else { None }
}

fn are_digits(text: &[u8]) -> bool
    ensures { result ≡ list_all is_ascii_digit text.now }
{
    text.iter().all(|byte| byte.is_ascii_digit())
}

// The number that digits spell, or one past the greatest.
fn capped(text: &[u8]) -> u64
    ensures { result ≡ min (says.decimal text.now) (says.most + 1) }
{
    let mut number = 0;
    for byte in text {
        let digit = u64::from(byte.saturating_sub(b'0'));
        number = (number * 10 + digit).min(MOST + 1);
    }
    number
}
