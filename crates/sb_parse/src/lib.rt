//! The statements of batches and procedures.
#![tactic(auto)]

mod activation;
mod address;
mod batch;
mod condition;
mod contracts;
mod definition;
mod dialog;
mod expr;
mod facts;
mod fault;
mod lexemes;
mod priorities;
mod queues;
mod receives;
mod routes;
mod row;
mod statement;
mod text;
mod value;

pub use batch::{batch_of_tokens, procedure_of_tokens};
pub use facts::quoted_tokens_stand_for;
pub use fault::Fault;
pub use text::{Block, ParseRefused, procedure, statements};

#[cfg(test)]
mod tests;
