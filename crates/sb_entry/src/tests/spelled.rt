//! Spellings worked by hand from the table of entries and operations, as digits of bytes in
//! fields. The word `id` stands for the 16 bytes of an id.

use std::alloc::Global;
use std::test::Fail;

const ID: &str = "a0000000000000000000000000000001";

/// The bytes that the digits spell.
pub fn bytes(alloc: Global, text: &str) -> Result<Vec<u8>, Fail> {
    let mut out = Vec::new(alloc);
    for field in text.split(' ') {
        let digits = if field == "id" { ID } else { field };
        let part = hex::decode(alloc, digits)?;
        out.extend_from_slice(part.as_slice())?;
    }
    Ok(out)
}

pub const CONTENTS: [&str; 4] = [
    "01 00014d 01 00000002 7800",
    "01 00014d 00",
    "02",
    "03 00000032 0001 61",
];

pub const OPERATIONS: [&str; 12] = [
    "01 id id 000142 000153 000143 id 00 0000000000000007",
    "02 id 01 00014d 01 00000001 05",
    "02 id 02 00014d 00",
    "03 000151 0000000000000009",
    "04 id 01 00",
    "04 id 01 01",
    "04 id 01 02 00000032 0000",
    "05 id 01",
    "06 id 01 id",
    "07 id 01 0000000000000009",
    "08 000154 0000000000000009 01 0000000000000009 01 00000002 c3b6",
    "09 000154 ff00000000000009",
];

pub const DEFINITIONS: [&str; 11] = [
    "01 00014d 01",
    "01 00014d 02",
    "02 000143 0002 000161 01 000162 03",
    "03 000151 01 00 00",
    "03 000151 00 01 01 01 000150 7fff",
    "04 000153 000151 0001 000161",
    "05 000152 00 00 00",
    "05 000152 01 000153 01 id 02",
    "06 000150 00 01 00014c 01 000152 0a",
    "07 000154",
    "08 000150 00000002 4153",
];

/// Entries without operations, definitions or contents.
pub const OTHERS: [&str; 5] = [
    "04 id 01 0000000000000003 00",
    "04 id 02 0000000000000000 01",
    "05 id 01",
    "06 id 02",
    "07 000151 01",
];
