//! One instance of the broker in memory: its log, and what its statements answer.
#![tactic(auto)]

mod candidates;
mod carrying;
mod counters;
mod defining;
mod facts;
mod handing;
mod instance;
mod learning;
mod marks;
mod ordering;
mod receiving;
mod sending;
mod stopped;
#[cfg(test)]
mod tests;
mod unready;
mod waiting;

pub use handing::Pending;
pub use instance::Instance;
pub use unready::Unready;
