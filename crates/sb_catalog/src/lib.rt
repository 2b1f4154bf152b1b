//! The catalog of an instance: its message types, contracts, queues, services, routes,
//! priorities, tables and procedures, found by their names, and which definitions are
//! refused.
#![tactic(auto)]

mod by_name;
mod catalog;
mod defining;
mod kinds;
mod laws;
mod listed;
mod named;
mod refused;
mod senders;
mod sent_here;
#[cfg(test)]
mod tests;
mod texts;

pub use catalog::Catalog;
pub use kinds::Kind;
pub use laws::{
    accepted_names_are_new, arrivals_are_judged_as_by_the_log, definitions_are_those_of_the_log,
    knowledge_grows_with_the_log, refusals_are_those_of_the_log, verdicts_are_by_what_is_here,
};
