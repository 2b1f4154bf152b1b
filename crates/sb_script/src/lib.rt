//! Whole scripts: their lines, the commands of the world among them, and the batches between.
//!
//! A line that is GO ends a batch, and a line that begins with a colon ends one and is a command. A
//! batch is judged whole when it ends, and the first refusal in the order of the lines is named.
#![tactic(auto)]

mod commands;
mod facts;
mod lines;
mod reading;

pub use commands::{BadWhy, Command};
pub use facts::{
    bytes_say_one_thing, numbers_of_commands_are_within, texts_without_tokens_spell_none,
};
pub use reading::{LIMIT, ScriptRefused, script};

#[cfg(test)]
mod tests;
