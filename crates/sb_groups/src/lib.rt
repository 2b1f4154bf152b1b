//! The locks on conversation groups: which transaction holds which group.
#![tactic(auto)]

mod locks;
#[cfg(test)]
mod tests;

pub use locks::{GroupGuard, HeldBy, Locks};
