//! The messages that wait in the queues of an instance, and what a RECEIVE picks of them.
#![tactic(auto)]

mod candidates;
mod choosing;
mod laws;
mod names;
mod ordering;
mod queues;
mod stored;
#[cfg(test)]
mod tests;

pub use laws::{
    known_queues_stay_known, operations_are_told_one_by_one, picks_are_those_of_the_log,
    waiting_grows_with_the_log,
};
pub use queues::Queues;
