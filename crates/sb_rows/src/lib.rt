//! The rows of all tables as they are committed, and which transaction holds which key.
#![tactic(auto)]

mod by_key;
mod laws;
mod numbers;
mod tables;
#[cfg(test)]
mod tests;

pub use laws::rows_are_those_of_the_log;
pub use tables::{RowHeld, Tables};
