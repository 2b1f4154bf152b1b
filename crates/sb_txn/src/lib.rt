//! An open transaction: what it has done so far, and the conversation groups that it holds.
#![tactic(auto)]

mod giving;
#[cfg(test)]
mod tests;
mod txn;

pub use txn::Txn;
