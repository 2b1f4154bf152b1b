//! What the program reads and writes, as traits that say what is left and what was written,
//! with their forms in memory and over the standard streams.
#![tactic(auto)]

mod memory;
mod standard;
mod streams;
#[cfg(test)]
mod tests;

pub use memory::{MemSink, MemSource};
pub use standard::{StdSink, StdSource};
pub use streams::{Failed, Sink, Source};
