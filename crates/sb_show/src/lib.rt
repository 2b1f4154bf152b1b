//! The transcript of a step: one line with who made it, what happened and the answer, and the
//! lines of detail behind it.
//!
//! `show` gives the text, `length` says how many bytes it has and takes no memory. Names stand
//! in brackets, ids have 36 characters, bytes are `0x` and two digits each, and what is missing
//! is NULL. A refusal of a statement has its number; one of a command of the world has none.
#![tactic(auto)]

mod answer;
mod dump;
mod event;
mod refusal;
mod step;
#[cfg(test)]
mod tests;
mod value;

pub use event::request_words;
pub use step::{length, show};
