//! Frames of the link as bytes.
//!
//! A frame has one spelling. `encode` gives it; `decode` gives the frame that bytes spell, or the
//! place of the first field that can't be read.
#![tactic(auto)]

mod coding;
mod laws;
mod refused;

pub use coding::{decode, encode};
pub use laws::{frame_has_its_size, frame_has_one_spelling, frame_is_read_again};
pub use refused::FrameRefused;

#[cfg(test)]
mod tests;
