//! Entries of a log as bytes.
//!
//! An entry has one spelling. `encode` gives it; `decode` gives the entry that bytes spell, or the
//! place of the first field that can't be read. Sides, headers and contents, which frames have as
//! well, are offered one by one.
#![tactic(auto)]

mod coding;
mod definition_reading;
mod definition_writing;
mod entry_reading;
mod entry_writing;
mod laws;
mod lengths;
mod message_reading;
mod message_writing;
mod refused;
mod unread;

pub use coding::{decode, encode};
pub use laws::{entry_has_its_size, entry_has_one_spelling, entry_is_read_again};
pub use lengths::encoded_len;
pub use message_reading::{
    byte_between, eight_bytes, read_content, read_flag, read_handle, read_header, read_side,
};
pub use message_writing::{put_content, put_flag, put_handle, put_header, put_side};
pub use refused::EntryRefused;
pub use unread::Unread;

#[cfg(test)]
mod tests;
