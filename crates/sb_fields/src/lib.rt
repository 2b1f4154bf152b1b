//! The fields that entries and frames are made of: numbers, texts and bytes.
//!
//! A value has one spelling. Each `put` appends it, and each `take` reads it from the front of
//! bytes, whatever follows. Numbers stand with their greatest byte first.
#![tactic(auto)]

mod laws;
mod putting;
mod taking;

pub use laws::{bytes32_has_one_spelling, number_has_one_spelling, text16_has_one_spelling};
pub use putting::{put_bytes32, put_text16, put_u8, put_u16, put_u32, put_u64, put_u128};
pub use taking::{take_bytes32, take_text16, take_u8, take_u16, take_u32, take_u64, take_u128};

#[cfg(test)]
mod tests;
