//! The routes and broker priorities of an instance: where its messages go, and which
//! level a dialog gets.
#![tactic(auto)]

mod laws;
mod levels;
mod matching;
mod routing;
#[cfg(test)]
mod tests;
mod ways;

pub use laws::{defined_ways_grow, levels_are_those_of_the_log, routes_are_those_of_the_log};
pub use ways::Routes;
