//! What an instance knows of each side of its conversations, found by side and by handle.
#![tactic(auto)]

mod answer;
mod by_handle;
mod by_side;
mod change;
mod endpoint;
mod endpoints;
mod headers;
mod laws;
#[cfg(test)]
mod tests;

pub use endpoint::{Endpoint, Made};
pub use endpoints::Endpoints;
pub use laws::{
    answers_are_those_of_the_log, endpoints_grow_with_the_log, facts_are_those_of_the_log,
    kept_in_step_with_the_log,
};
