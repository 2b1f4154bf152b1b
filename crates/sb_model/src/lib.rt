//! The definitions that the contracts of the broker cite.
#![tactic(auto)]
