//! Values of a batch: how they convert, and what is computed with them.
#![tactic(auto)]

mod compute;
mod convert;
mod fault;
#[cfg(test)]
mod tests;
mod value;

pub use compute::{is_equal, is_less, minus, plus};
pub use convert::{as_bytes, as_identifier, as_number, as_text, cast, converted};
pub use fault::Fault;
pub use value::Value;
