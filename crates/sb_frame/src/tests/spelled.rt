//! Spellings worked by hand from the table of frames, as digits of bytes in fields. The words
//! `id` and `instance` stand for the 16 bytes of a conversation's and of an instance's id.

use std::alloc::Global;
use std::test::Fail;

const ID: &str = "a0000000000000000000000000000001";

const INSTANCE: &str = "a0000000000000000000000000000000";

/// An acknowledgement up to 3 of the messages of an initiator.
pub const ACKNOWLEDGEMENT: &str = "5342 01 02 id 01 0000000000000003 00 instance";

/// A message with each content, and another acknowledgement.
pub const FRAMES: [&str; 4] = [
    "5342 01 01 id 01 0000000000000001 000142 000153 000143 instance 00 0000000000000007 01 00014d 01 00000001 05",
    "5342 01 01 id 01 0000000000000001 000142 000153 000143 instance 01 id 0000000000000007 02",
    "5342 01 01 id 01 0000000000000001 000142 000153 000143 instance 00 0000000000000007 03 00000032 0001 61",
    "5342 01 02 id 02 0000000000000000 01 instance",
];

/// The bytes that the digits spell.
pub fn bytes(alloc: Global, text: &str) -> Result<Vec<u8>, Fail> {
    let mut out = Vec::new(alloc);
    for field in text.split(' ') {
        let digits = match field {
            "id" => ID,
            "instance" => INSTANCE,
            _ => field,
        };
        let part = hex::decode(alloc, digits)?;
        out.extend_from_slice(part.as_slice())?;
    }
    Ok(out)
}
