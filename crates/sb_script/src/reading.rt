//! Scripts, line by line.

ghost use Rattle.std.specs.Prelude.{◌≡◌, ◌+◌, ◌<◌, ◌≤◌, ◌^◌, ◌∷◌, ◌++◌, ℕ, List, [], Ok, length, take, string_bytes, IfOk, IfErr, OnOk, MatchResult};
ghost use Rattle.std.specs.Str.Lines.{lines};
ghost use Rattle.sb_script.specs.declared.commands.Command as declared;
ghost use Rattle.sb_script.specs.Script as says;
ghost use Rattle.sb_script.specs.Reading as reads;

use crate::commands::{BadWhy, Command, command_of};
use crate::lines::{Line, line_of, trimmed};
use sb_log::Text;
use sb_parse::{Block, ParseRefused, statements};
use std::alloc::{AllocError, AllocFailed, Global};
use std::mem;

/// Why no script was read.
#[derive(Clone, Copy, Debug, PartialEq, Eq)]
pub enum ScriptRefused {
    /// The line of the first place that is refused, from 1, and why it is.
    BadLine { line: u64, why: BadWhy },
    OutOfMemory,
}

impl From<AllocError> for ScriptRefused {
    ghost use Rattle.std.specs.Prelude.{◌≡◌};
    ghost use Rattle.sb_script.specs.declared.reading.ScriptRefused.TheVariants.{OutOfMemory};

    ghost from_gives = { λ _ e. e ≡ OutOfMemory };

    fn from(_e: AllocError) -> ScriptRefused {
        ScriptRefused::OutOfMemory
    }
}

impl<T: Drop> From<AllocFailed<T>> for ScriptRefused {
    ghost use Rattle.std.specs.Prelude.{◌≡◌};
    ghost use Rattle.sb_script.specs.declared.reading.ScriptRefused.TheVariants.{OutOfMemory};

    ghost from_gives = { λ _ e. e ≡ OutOfMemory };

    fn from(_e: AllocFailed<T>) -> ScriptRefused {
        ScriptRefused::OutOfMemory
    }
}

/// The most bytes that a script has.
pub const LIMIT: usize = 8_388_608;

/// A script that is read up to a line.
#[derive(Drop)]
pub struct Reading {
    commands: Vec<Command>,
    /// The text of the batch that is open, each of its lines with its end.
    batch: String,
    /// The first line of that batch.
    first: u64,
    /// The line that is read next.
    number: u64,
}

/// The commands of a script, or its first refusal.
pub fn script(alloc: Global, bytes: &[u8]) -> Result<Vec<Command>, ScriptRefused>
    // What is read is what the bytes say.
    ensures commands { IfOk result (λ v. says.ScriptSays bytes.now (Ok v.items)) }
    // A refusal is the one that the bytes say, unless memory is wanting.
    ensures refused { IfErr result (reads.IsRefusal bytes.now) }
    // Commands that the bytes say are read, and as these.
    ensures only { (cs : List declared.Command) → says.ScriptSays bytes.now (Ok cs) → MatchResult result (λ v. v.items ≡ cs) reads.IsOutOfMemory }
{
    if bytes.len() > LIMIT {
        return Err(refusal(line_behind(&bytes[..LIMIT]), BadWhy::TooLong));
    }
    match std::str::from_utf8(bytes) {
        Ok(text) => read(alloc, text),
        Err(fault) => {
            let valid = front(bytes, fault.valid_up_to());
            Err(refusal(line_behind(valid), BadWhy::NotText))
        }
    }
}

// What the lines of a text say.
fn read(alloc: Global, text: &str) -> Result<Vec<Command>, ScriptRefused>
    requires { length text.now ≤ says.limit }
    ensures goes_on { IfOk result (λ v. reads.GoesOn (says.pieces_of text.now) [] [] v.items) }
    ensures stops { IfErr result (reads.StopsAt (says.pieces_of text.now) []) }
{
    let mut reading = Reading::new(alloc);
    for line in text.lines() {
        match reading.read_line(alloc, line) {
            Ok(()) => {}
            Err(refused) => return Err(refused),
        }
    }
    reading.finish(alloc)
}

impl Reading {
    fn new(alloc: Global) -> Reading
        ensures left { (ls : List (List ℕ)) → reads.left result ls ≡ says.pieces 1 [] 1 ls }
        ensures commands { result.commands.items ≡ [] }
        ensures number { result.number ≡ 1 }
        ensures first { result.first ≡ 1 }
    {
        Reading {
            commands: Vec::new(alloc),
            batch: String::new(alloc),
            first: 1,
            number: 1,
        }
    }

    fn read_line(&mut self, alloc: Global, line: &str) -> Result<(), ScriptRefused>
        requires number { self.old.number < 2 ^ 32 }
        requires first { self.old.first ≤ self.old.number }
        ensures goes_on { (ls : List (List ℕ)) → OnOk result (reads.GoesOn (reads.left self.old (line.now ∷ ls)) self.old.commands.items (reads.left self.new ls) self.new.commands.items) }
        ensures stops { (ls : List (List ℕ)) → IfErr result (reads.StopsAt (reads.left self.old (line.now ∷ ls)) self.old.commands.items) }
        ensures number { OnOk result (self.new.number ≡ self.old.number + 1) }
        ensures first { OnOk result (self.new.first ≤ self.new.number) }
    {
        match line_of(line.as_bytes()) {
            Line::Text => self.keep_line(line),
            Line::Go => self.end_by_go(alloc),
            Line::Command => self.end_by_command(alloc, line),
        }
    }

    // The line belongs to the batch that is open.
    fn keep_line(&mut self, line: &str) -> Result<(), ScriptRefused>
        requires { self.old.number < 2 ^ 32 }
        ensures batch { OnOk result (string_bytes self.new.batch ≡ string_bytes self.old.batch ++ (line.now ++ 10 ∷ [])) }
        ensures commands { OnOk result (self.new.commands.items ≡ self.old.commands.items) }
        ensures first { OnOk result (self.new.first ≡ self.old.first) }
        ensures number { OnOk result (self.new.number ≡ self.old.number + 1) }
        ensures memory { IfErr result reads.IsOutOfMemory }
    {
        self.batch.push_str(line)?;
        self.batch.push('\n')?;
        self.number += 1;
        Ok(())
    }

    // The line ends the batch.
    fn end_by_go(&mut self, alloc: Global) -> Result<(), ScriptRefused>
        requires number { self.old.number < 2 ^ 32 }
        requires first { self.old.first ≤ self.old.number }
        ensures goes_on { (ps : List says.Piece) → OnOk result (reads.GoesOn (says.batch self.old.first (string_bytes self.old.batch) ∷ ps) self.old.commands.items ps self.new.commands.items) }
        ensures stops { (ps : List says.Piece) → IfErr result (reads.StopsAt (says.batch self.old.first (string_bytes self.old.batch) ∷ ps) self.old.commands.items) }
        ensures batch { OnOk result (string_bytes self.new.batch ≡ []) }
        ensures first { OnOk result (self.new.first ≡ self.old.number + 1) }
        ensures number { OnOk result (self.new.number ≡ self.old.number + 1) }
    {
        let text = mem::replace(&mut self.batch, String::new(alloc));
        if let Err(refused) = end_batch(alloc, &mut self.commands, self.first, text) {
            return Err(refused);
        }
        self.number += 1;
        self.first = self.number;
        Ok(())
    }

    // The line ends the batch and is a command.
    fn end_by_command(&mut self, alloc: Global, line: &str) -> Result<(), ScriptRefused>
        requires number { self.old.number < 2 ^ 32 }
        requires first { self.old.first ≤ self.old.number }
        ensures goes_on { (ps : List says.Piece) → OnOk result (reads.GoesOn (says.batch self.old.first (string_bytes self.old.batch) ∷ says.command_line self.old.number line.now ∷ ps) self.old.commands.items ps self.new.commands.items) }
        ensures stops { (ps : List says.Piece) → IfErr result (reads.StopsAt (says.batch self.old.first (string_bytes self.old.batch) ∷ says.command_line self.old.number line.now ∷ ps) self.old.commands.items) }
        ensures batch { OnOk result (string_bytes self.new.batch ≡ []) }
        ensures first { OnOk result (self.new.first ≡ self.old.number + 1) }
        ensures number { OnOk result (self.new.number ≡ self.old.number + 1) }
    {
        let number = self.number;
        match self.end_by_go(alloc) {
            Ok(()) => push_command(alloc, &mut self.commands, number, line.as_bytes()),
            Err(refused) => Err(refused),
        }
    }

    // The end of the script ends the batch.
    fn finish(self, alloc: Global) -> Result<Vec<Command>, ScriptRefused>
        requires { self.first < 2 ^ 33 }
        ensures goes_on { IfOk result (λ v. reads.GoesOn (reads.left self []) self.commands.items [] v.items) }
        ensures stops { IfErr result (reads.StopsAt (reads.left self []) self.commands.items) }
    {
        let Reading {
            mut commands,
            batch,
            first,
            number: _,
        } = self;
        match end_batch(alloc, &mut commands, first, batch) {
            Ok(()) => Ok(commands),
            Err(refused) => Err(refused),
        }
    }
}

// Judges a batch, by its first line and its text.
fn end_batch(
    alloc: Global,
    commands: &mut Vec<Command>,
    first: u64,
    text: String,
) -> Result<(), ScriptRefused>
    requires { first < 2 ^ 33 }
    ensures goes_on { (ps : List says.Piece) → OnOk result (reads.GoesOn (says.batch first (string_bytes text) ∷ ps) commands.old.items ps commands.new.items) }
    ensures stops { (ps : List says.Piece) → IfErr result (reads.StopsAt (says.batch first (string_bytes text) ∷ ps) commands.old.items) }
{
    match statements(alloc, text.as_str()) {
        Ok(block) => {
            push_batch(commands, text, block)?;
            Ok(())
        }
        Err(refused) => Err(batch_refusal(first, text.as_str(), refused)),
    }
}

fn push_batch(commands: &mut Vec<Command>, text: String, block: Block) -> Result<(), AllocError>
    ensures { OnOk result (commands.new.items ≡ commands.old.items ++ says.batched (string_bytes text) block) }
{
    if block.len() > 0 {
        let text = Text::from_string(text);
        commands.push(Command::Batch { text, block })?;
    }
    Ok(())
}

// Reads a command, by its number and its line.
fn push_command(
    alloc: Global,
    commands: &mut Vec<Command>,
    number: u64,
    line: &[u8],
) -> Result<(), ScriptRefused>
    ensures goes_on { (ps : List says.Piece) → OnOk result (reads.GoesOn (says.command_line number line.now ∷ ps) commands.old.items ps commands.new.items) }
    ensures stops { (ps : List says.Piece) → IfErr result (reads.StopsAt (says.command_line number line.now ∷ ps) commands.old.items) }
{
    match command_of(alloc, trimmed(line))? {
        Ok(command) => {
            commands.push(command)?;
            Ok(())
        }
        Err(why) => Err(refusal(number, why)),
    }
}

fn refusal(line: u64, why: BadWhy) -> ScriptRefused
    ensures { result ≡ ScriptRefused.BadLine line why }
{
    ScriptRefused::BadLine { line, why }
}

// The refusal of a batch, at the line of the place that is named.
fn batch_refusal(first: u64, text: &str, refused: ParseRefused) -> ScriptRefused
    requires { first < 2 ^ 33 }
    ensures { result ≡ reads.refusal_of (says.named first text.now refused) }
{
    match refused {
        ParseRefused::OutOfMemory => ScriptRefused::OutOfMemory,
        ParseRefused::BadStatement { at } => {
            refusal(line_at(first, text, at), BadWhy::BadStatement)
        }
        ParseRefused::Unsupported { at, what } => {
            refusal(line_at(first, text, at), BadWhy::Unsupported { what })
        }
        ParseRefused::Unlexed { at } => refusal(line_at(first, text, at), BadWhy::Unlexed),
    }
}

// The line of a place in a batch.
fn line_at(first: u64, text: &str, at: usize) -> u64
    requires { first < 2 ^ 33 }
    ensures { result ≡ says.line_at first text.now at }
{
    first + line_ends(front(text.as_bytes(), at))
}

// The number of the line behind these bytes.
fn line_behind(bytes: &[u8]) -> u64
    ensures { result ≡ says.line_behind bytes.now }
{
    line_ends(bytes) + 1
}

// How many lines end in these bytes.
fn line_ends(bytes: &[u8]) -> u64
    ensures is { result ≡ says.line_ends bytes.now }
    ensures within { result ≤ 2 ^ 63 }
{
    let ends = bytes.iter().filter(|byte| **byte == b'\n').count();
    ends as u64
}

// At most so many bytes.
fn front(bytes: &[u8], at: usize) -> &[u8]
    ensures { result.now ≡ take at bytes.now }
{
    &bytes[..at.min(bytes.len())]
}
