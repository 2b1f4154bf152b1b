//! The top call of the broker: a script is read from a source, and its transcript goes to a sink.
#![tactic(auto)]

mod clean;
mod drive;
mod ending;
mod first;
mod history;
mod input;
mod output;
mod perform;
#[cfg(test)]
mod plain_tests;
mod refusals;
mod statements;
mod top;
#[cfg(test)]
mod top_tests;

pub use ending::{Ended, Why};
pub use sb_script::BadWhy;
pub use top::run;
