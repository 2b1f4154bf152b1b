//! What the statements of a batch or a procedure are, ask and do.
//!
//! A statement is known in a transcript by its words. A machine goes through a block: it does by
//! itself what needs no instance, and gives the rest as requests whose expressions are computed.
#![tactic(auto)]

mod act;
mod condition;
mod declaring;
mod dialog;
mod expression;
mod facts;
mod left;
mod machine;
mod naming;
mod receiving;
mod replies;
mod request;
mod rest;
mod rows;
mod seen;
#[cfg(test)]
mod tests;
mod variables;
mod wanted;

pub use act::{Act, MachineFault};
pub use facts::{acts_are_what_the_block_does, blocks_can_be_done};
pub use machine::Machine;
pub use naming::words;
pub use variables::{Variable, Variables};
